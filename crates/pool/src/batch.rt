// Several units at once, over any allocator.
ghost use Rattle.std.specs.Prelude.{◌≡◌, None, length, replicate};
ghost use Rattle.pool.specs.Batches.{without, Filled};

use super::allocator::{Allocator, AllocatorFault};

// gives back the units of the list, those of them that are out, and empties its places
fn give_back<A: Allocator>(pool: &mut A, list: &mut [Option<u16>])
    ensures units { A.Allocator.units pool.new ≡ without (A.Allocator.units pool.old) list.old }
    ensures lent { A.Allocator.lent pool.new ≡ A.Allocator.lent pool.old }
    ensures list { list.new ≡ replicate (length list.old) None }
{
    // By place: over `list.iter().flatten()` the proof was tried, and did not close.
    for place in list.iter() {
        if let Some(unit) = *place {
            let _ = pool.give(unit);
        }
    }
    list.fill(None);
}

/// Takes a unit for each place of the list. Where there are fewer units in, it gives back those that it took,
/// and empties their places.
pub fn take_exact<A: Allocator>(
    pool: &mut A,
    list: &mut [Option<u16>],
) -> Result<(), AllocatorFault>
    ensures lent { A.Allocator.lent pool.new ≡ A.Allocator.lent pool.old }
    ensures filled { Filled (A.Allocator.units pool.old) (A.Allocator.units pool.new) list.old list.new result }
{
    for (i, place) in list.iter_mut().enumerate() {
        match pool.take() {
            Ok(unit) => *place = Some(unit),
            Err(fault) => {
                give_back(pool, &mut list[..i]);
                return Err(fault);
            }
        }
    }
    Ok(())
}
