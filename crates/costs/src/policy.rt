// What a cost policy means.
ghost use Rattle.std.specs.Prelude.{◌≡◌, ℕ};
ghost use Rattle.costs.specs.Answers.{Asked};
ghost use Rattle.costs.specs.Costs.{Bounded};

use super::fault::CostFault;

/// The sectors of a record, and so the largest size of a write.
pub const RECORD_SECTORS: u8 = 16;

/// The sectors of a write. A size above `RECORD_SECTORS` is refused.
pub(crate) fn sectors_of(size: u8) -> Result<u16, CostFault>
    ensures { Asked (λ sectors. sectors) size result }
{
    if size <= RECORD_SECTORS {
        Ok(u16::from(size))
    } else {
        Err(CostFault::SizeTooLarge(size))
    }
}

/// A cost in units for each size of a write, 0 to 16 sectors, and one worst cost. Asking changes nothing.
pub trait CostPolicy {
    /// The cost in units of a write of so many sectors.
    ghost cost: { Self → ℕ → ℕ };

    /// The most that any write costs.
    ghost worst: { Self → ℕ };

    /// Nothing costs nothing, any other size at least 1 and at most the worst, which is at most 64.
    ghost bounded: { (policy : Self) → Bounded (cost policy) (worst policy) };

    /// The cost of a write of `size` sectors; a size above `RECORD_SECTORS` is refused.
    fn cost(&self, size: u8) -> Result<u16, CostFault>
        ensures { Asked (cost self.now) size result };

    /// The worst cost.
    fn worst(&self) -> u16
        ensures { result ≡ worst self.now };
}
