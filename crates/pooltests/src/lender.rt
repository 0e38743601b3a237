// What a caller knows of the memory that it lent, once the allocator over it is gone.
ghost use Rattle.std.specs.Prelude.{◌≡◌, false, [], set, replicate, MatchResult, OnOk, slice_set};
ghost use Rattle.pool.specs.Faults.{ground};
ghost use Rattle.pool.specs.Links.{chained};
ghost use Rattle.pool.specs.Marks.{cleared, marks, turned};
ghost use Rattle.pool.specs.Batches.{Takes};

use pool::allocator::{Allocator, AllocatorFault};
use pool::batch::take_exact;
use pool::bitmap::Bitmap;
use pool::chain::Chain;

// This and unlink_first are two: their contracts differ by the format of the memory, bits or entries.
/// Takes one unit of a new bitmap, and lets the bitmap go: the first `size` bits are cleared, bit 0 is set, and the rest
/// of the memory is as it was.
pub fn mark_first(size: usize, memory: &mut [u8]) -> Result<u16, AllocatorFault>
    ensures { MatchResult result
        (λ u. (u ≡ 0) × (memory.new ≡ turned (cleared memory.old size) 0))
        (λ f. (ground f ≡ (20, 4, [])) × (memory.new ≡ memory.old)) }
{
    Bitmap::check(size, memory)?;
    let mut map = Bitmap::make(size, memory);
    map.take()
}

/// Takes one unit of a new chain, and lets the chain go: the first `size` entries are linked, entry 0 is marked out, and
/// the rest of the memory is as it was.
pub fn unlink_first(size: usize, links: &mut [u16]) -> Result<u16, AllocatorFault>
    ensures { MatchResult result
        (λ u. (u ≡ 0) × (links.new ≡ slice_set (chained links.old size) 0 65535))
        (λ f. (ground f ≡ (20, 4, [])) × (links.new ≡ links.old)) }
{
    Chain::check(size, links)?;
    let mut chain = Chain::make(size, links);
    chain.take()
}

/// Lists units of a new bitmap by generic code, and lets the bitmap go: what the memory holds beside the units is as it was,
/// and where the list is filled, the units whose bits are set are those of the list.
pub fn list_bits(
    size: usize,
    memory: &mut [u8],
    list: &mut [Option<u16>],
) -> Result<(), AllocatorFault>
    ensures { (cleared memory.new size ≡ cleared memory.old size)
        × OnOk result (Takes (replicate size false) list.new (marks memory.new size)) }
{
    Bitmap::check(size, memory)?;
    let mut bits = Bitmap::make(size, memory);
    take_exact(&mut bits, list)
}
