// Works the allocators, a case for each line of the input: ALLOCATOR UNITS LOAD ROUNDS, as `bitmap 4096 full 1000`.
// A round takes two units and gives them back. Under `empty` all other units are in; under `full` they are out, and
// the two are the lowest and the highest. What it prints depends on the input alone: it is timed from outside.
#![tactic(auto)]

use pool::allocator::{Allocator, AllocatorFault};
use pool::bitmap::Bitmap;
use pool::chain::Chain;
use pool::joined::Joined;
use std::io;

#[derive(Clone, Copy)]
enum Kind {
    Bitmap,
    Chain,
    Pair,
}

#[derive(Clone, Copy)]
enum Load {
    Empty,
    Full,
}

#[derive(Clone, Copy)]
struct Case {
    kind: Kind,
    units: usize,
    load: Load,
    rounds: u32,
}

fn case_of(line: &str) -> Option<Case> {
    let mut words = line.split_whitespace();
    let kind = match words.next()? {
        "bitmap" => Kind::Bitmap,
        "chain" => Kind::Chain,
        "pair" => Kind::Pair,
        _ => return None,
    };
    let units = words.next()?.parse().ok()?;
    let load = match words.next()? {
        "empty" => Load::Empty,
        "full" => Load::Full,
        _ => return None,
    };
    let rounds = words.next()?.parse().ok()?;
    Some(Case {
        kind,
        units,
        load,
        rounds,
    })
}

// takes every unit, and gives the lowest and the highest back
fn fill<A: Allocator>(pool: &mut A) -> Result<(), AllocatorFault> {
    let size = pool.size();
    for _ in 0..size {
        pool.take()?;
    }
    pool.give(0)?;
    pool.give(size - 1)
}

// so many rounds; the sum of the units that were taken
fn work<A: Allocator>(pool: &mut A, rounds: u32) -> Result<u64, AllocatorFault> {
    let mut sum = 0u64;
    for _ in 0..rounds {
        let one = pool.take()?;
        let other = pool.take()?;
        sum = sum
            .wrapping_add(u64::from(one))
            .wrapping_add(u64::from(other));
        pool.give(one)?;
        pool.give(other)?;
    }
    Ok(sum)
}

fn measure<A: Allocator>(pool: &mut A, case: Case) -> Result<u64, AllocatorFault> {
    match case.load {
        Load::Empty => {}
        Load::Full => fill(pool)?,
    }
    work(pool, case.rounds)
}

// The three differ in the memory that they lend; a trait for it would be longer than they are.
fn run_bitmap(case: Case) -> Result<u64, AllocatorFault> {
    let mut memory = [0u8; 512];
    Bitmap::check(case.units, &memory)?;
    measure(&mut Bitmap::make(case.units, &mut memory), case)
}

fn run_chain(case: Case) -> Result<u64, AllocatorFault> {
    let mut links = [0u16; 4096];
    Chain::check(case.units, &links)?;
    measure(&mut Chain::make(case.units, &mut links), case)
}

// a bitmap of the lower half and a chain of the rest
fn run_pair(case: Case) -> Result<u64, AllocatorFault> {
    let mut memory = [0u8; 512];
    let mut links = [0u16; 4096];
    let half = case.units / 2;
    let rest = case.units - half;
    Bitmap::check(half, &memory)?;
    Chain::check(rest, &links)?;
    let map = Bitmap::make(half, &mut memory);
    let chain = Chain::make(rest, &mut links);
    Joined::check(&map, &chain)?;
    measure(&mut Joined::make(map, chain), case)
}

fn run(case: Case) -> Result<u64, AllocatorFault> {
    match case.kind {
        Kind::Bitmap => run_bitmap(case),
        Kind::Chain => run_chain(case),
        Kind::Pair => run_pair(case),
    }
}

fn main(rt: HostRuntime) -> io::Result<()> {
    for line in rt.lines(rt.alloc()) {
        let line = line?;
        let Some(case) = case_of(line.as_str()) else {
            println!(rt; "{line}: not a case")?;
            continue;
        };
        match run(case) {
            Ok(sum) => println!(rt; "{line}: sum {sum}")?,
            Err(fault) => {
                let number = fault.number();
                println!(rt; "{line}: refused {number}")?;
            }
        }
    }
    Ok(())
}
