// Runs the script that comes on standard input on a pool of 100 units, and writes the answers and how the run ended.
#![tactic(auto)]

ghost use Rattle.setup.specs.Schemes.{plan};
ghost use Rattle.setup.specs.Setups.{Ran};
ghost use Rattle.setup.specs.declared.scheme.Scheme.TheVariants.{Copies as copies_of};

use runner::ended::Ended;
use runner::run::LONGEST_SCRIPT;
use setup::calls::run_on_bitmap;
use setup::scheme::Scheme;
use std::io::{Read, Write};

/// The bytes that answers may have together.
const ANSWER_BYTES: usize = 36_000;

// A run over a bitmap of 100 units, 4 of them kept back, under two copies.
fn run_box(script: &[u8], answers: &mut [u8]) -> Ended
    ensures { Ran (plan 100 4 (copies_of 2)) script.now answers.old answers.new result }
{
    let mut memory = [0u8; 13];
    let Ok(ended) = run_on_bitmap(
        &mut memory,
        100,
        4,
        Scheme::Copies { n: 2 },
        script,
        answers,
    ) else {
        unreachable()
    };
    ended
}

fn answer_input(rt: &HostRuntime) -> anyhow::Result<()> {
    let heap = rt.alloc();
    let mut script = Vec::new(heap);
    // One byte more than a script may have tells that it is too long.
    let _ = rt
        .stdin()
        .take(LONGEST_SCRIPT as u64 + 1)
        .read_to_end(&mut script)?;
    let mut answers = vec![in heap; 0u8; ANSWER_BYTES]?;
    let ended = run_box(script.as_slice(), answers.as_mut_slice());
    let mut stopped = [0u8; 4];
    let _ = ended.answer().write_to(&mut stopped, 0);
    let mut out = rt.stdout();
    out.write_all(&answers[..ended.written])?;
    out.write_all(&stopped)?;
    Ok(())
}

fn main(rt: HostRuntime) -> anyhow::Result<()> {
    answer_input(&rt)
}
