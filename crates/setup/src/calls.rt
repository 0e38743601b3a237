// Runs over each kind of pool. The figures are checked first, in the order of the refusals' numbers.
ghost use Rattle.std.specs.Prelude.{◌≡◌, ◌+◌, ◌≤◌, false, length, replicate, Ok, slice_index};
ghost use Rattle.ledger.specs.Makes.{check_answer};
ghost use Rattle.ledger.specs.Serves.{planned};
ghost use Rattle.pool.specs.Links.{Space};
ghost use Rattle.pool.specs.Marks.{Room};
ghost use Rattle.pool.specs.Units.{Checked as PoolChecked};
ghost use Rattle.setup.specs.Schemes.{SchemeFits, plan};
ghost use Rattle.setup.specs.Setups.{Called, NestedRoom, PairRoom, PlanChecked, RunWith, Unwritten};

use super::fault::SetupFault;
use super::scheme::Scheme;
use costs::copies::Copies;
use costs::parity::Parity;
use costs::policy::CostPolicy;
use ledger::Ledger;
use ledger::fault::MakeFault;
use pool::allocator::{Allocator, AllocatorFault, MOST_UNITS};
use pool::bitmap::Bitmap;
use pool::chain::Chain;
use pool::joined::Joined;
use runner::ended::Ended;
use runner::run::run;

// Runs a script on a new ledger, and gives the allocator back.
fn run_over<A: Allocator, P: CostPolicy + Drop>(
    pool: A,
    policy: P,
    slop: u16,
    script: &[u8],
    answers: &mut [u8],
) -> (Ended, A)
    requires { check_answer slop (A.Allocator.units pool) ≡ Ok tt }
    ensures ran { RunWith (planned P.CostPolicy (A.Allocator.units pool) policy slop) script.now answers.old answers.new (A.Allocator.units result.1) result.0 }
    ensures lent { A.Allocator.lent result.1 ≡ A.Allocator.lent pool }
{
    let mut ledger = Ledger::make(pool, policy, slop);
    let ended = run(&mut ledger, script, answers);
    let (pool, _) = ledger.close();
    (ended, pool)
}

// Runs a script on a new ledger under the policy with these figures.
fn run_under<A: Allocator>(
    pool: A,
    slop: u16,
    scheme: Scheme,
    script: &[u8],
    answers: &mut [u8],
) -> (Ended, A)
    requires checked { check_answer slop (A.Allocator.units pool) ≡ Ok tt }
    requires fits { SchemeFits scheme }
    ensures ran { RunWith (plan (length (A.Allocator.units pool)) slop scheme) script.now answers.old answers.new (A.Allocator.units result.1) result.0 }
    ensures lent { A.Allocator.lent result.1 ≡ A.Allocator.lent pool }
{
    match scheme {
        Scheme::Copies { n } => run_over(pool, Copies::make(n), slop, script, answers),
        Scheme::Parity { p, w } => run_over(pool, Parity::make(p, w), slop, script, answers),
    }
}

// Refuses a slop that is not below the units, and figures that no policy has. A struct of the slop and the scheme is no plainer:
// each call would make it of its two parameters to pass it on twice.
fn check_plan(units: usize, slop: u16, scheme: Scheme) -> Result<(), SetupFault>
    ensures { PlanChecked units slop scheme result }
{
    if usize::from(slop) >= units {
        return Err(MakeFault::SlopTooLarge.into());
    }
    scheme.check()?;
    Ok(())
}

// Each of the next four checks its memory and lends it then, and its contract names the memory that it was lent: a refusal
// leaves it. One function over a trait of memories is no plainer: it would take each memory twice, shared for the check and lent for the making.

/// Runs a script on a new ledger over a bitmap of so many units. A refusal writes nothing.
pub fn run_on_bitmap(
    memory: &mut [u8],
    units: usize,
    slop: u16,
    scheme: Scheme,
    script: &[u8],
    answers: &mut [u8],
) -> Result<Ended, SetupFault>
    ensures ran { Called (Room memory.old units) units slop scheme script.now answers.old answers.new result }
    ensures unwritten { Unwritten memory.old memory.new result }
{
    Bitmap::check(units, memory)?;
    check_plan(units, slop, scheme)?;
    let bits = Bitmap::make(units, memory);
    let (ended, _) = run_under(bits, slop, scheme, script, answers);
    Ok(ended)
}

/// Runs a script on a new ledger over a chain of so many units. A refusal writes nothing.
pub fn run_on_chain(
    links: &mut [u16],
    units: usize,
    slop: u16,
    scheme: Scheme,
    script: &[u8],
    answers: &mut [u8],
) -> Result<Ended, SetupFault>
    ensures ran { Called (Space links.old units) units slop scheme script.now answers.old answers.new result }
    ensures unwritten { Unwritten links.old links.new result }
{
    Chain::check(units, links)?;
    check_plan(units, slop, scheme)?;
    let chain = Chain::make(units, links);
    let (ended, _) = run_under(chain, slop, scheme, script, answers);
    Ok(ended)
}

// Whether two allocators of so many units make a pair.
fn check_few(first: usize, second: usize) -> Result<(), AllocatorFault>
    requires { (first ≤ 4096) × (second ≤ 4096) }
    ensures { PoolChecked (first + second ≤ 4096) result }
{
    if first + second > MOST_UNITS {
        return Err(AllocatorFault::BadSize);
    }
    Ok(())
}

// Whether a bitmap and a chain fit their memory and make a pair.
fn check_pair(
    memory: &[u8],
    links: &[u16],
    first: usize,
    second: usize,
) -> Result<(), AllocatorFault>
    ensures { PoolChecked (PairRoom memory.now links.now first second) result }
{
    Bitmap::check(first, memory)?;
    Chain::check(second, links)?;
    check_few(first, second)
}

// A bitmap and a chain as one, with every unit in.
fn make_pair<'a>(
    memory: &'a mut [u8],
    links: &'a mut [u16],
    first: usize,
    second: usize,
) -> Joined<Bitmap<'a>, Chain<'a>>
    requires { PairRoom memory.old links.old first second }
    ensures { ⟦<Joined<Bitmap<'a>, Chain<'a>> as Allocator>⟧.units result ≡ replicate (first + second) false }
{
    let bits = Bitmap::make(first, memory);
    let chain = Chain::make(second, links);
    Joined::make(bits, chain)
}

/// Runs a script on a new ledger over a bitmap of `units[0]` units joined with a chain of `units[1]`. A refusal writes nothing.
pub fn run_on_joined(
    memory: &mut [u8],
    links: &mut [u16],
    units: [usize; 2],
    slop: u16,
    scheme: Scheme,
    script: &[u8],
    answers: &mut [u8],
) -> Result<Ended, SetupFault>
    ensures ran { Called (PairRoom memory.old links.old (slice_index units 0) (slice_index units 1)) (slice_index units 0 + slice_index units 1) slop scheme script.now answers.old answers.new result }
    ensures memory { Unwritten memory.old memory.new result }
    ensures links { Unwritten links.old links.new result }
{
    check_pair(memory, links, units[0], units[1])?;
    check_plan(units[0] + units[1], slop, scheme)?;
    let pair = make_pair(memory, links, units[0], units[1]);
    let (ended, _) = run_under(pair, slop, scheme, script, answers);
    Ok(ended)
}

/// Runs a script on a new ledger over a pair of pairs: a bitmap of `units[0]` units, a chain of `units[1]`, a bitmap of `units[2]` and a
/// chain of `units[3]`, joined two by two. A refusal writes nothing.
pub fn run_on_nested(
    first_memory: &mut [u8],
    first_links: &mut [u16],
    second_memory: &mut [u8],
    second_links: &mut [u16],
    units: [usize; 4],
    slop: u16,
    scheme: Scheme,
    script: &[u8],
    answers: &mut [u8],
) -> Result<Ended, SetupFault>
    ensures ran { Called (NestedRoom first_memory.old first_links.old second_memory.old second_links.old (slice_index units 0) (slice_index units 1) (slice_index units 2) (slice_index units 3)) (slice_index units 0 + slice_index units 1 + (slice_index units 2 + slice_index units 3)) slop scheme script.now answers.old answers.new result }
    ensures firsts { Unwritten first_memory.old first_memory.new result × Unwritten first_links.old first_links.new result }
    ensures seconds { Unwritten second_memory.old second_memory.new result × Unwritten second_links.old second_links.new result }
{
    check_pair(first_memory, first_links, units[0], units[1])?;
    check_pair(second_memory, second_links, units[2], units[3])?;
    check_few(units[0] + units[1], units[2] + units[3])?;
    check_plan(units[0] + units[1] + (units[2] + units[3]), slop, scheme)?;
    let first = make_pair(first_memory, first_links, units[0], units[1]);
    let second = make_pair(second_memory, second_links, units[2], units[3]);
    let pair = Joined::make(first, second);
    let (ended, _) = run_under(pair, slop, scheme, script, answers);
    Ok(ended)
}
