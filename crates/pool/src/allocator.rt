// What an allocator of units is, and what it refuses with.
ghost use Rattle.std.specs.Prelude.{◌≡◌, ℕ, ◌≤◌, Bool, false, List, length, slice_index_or};
ghost use Rattle.pool.specs.Faults.{ground};
ghost use Rattle.pool.specs.Units.{Took, Gave, Kept};

/// As many units as an allocator can have.
pub const MOST_UNITS: usize = 4096;

/// Why an allocator refuses.
#[derive(Clone, Copy, PartialEq, Eq, Debug)]
pub enum AllocatorFault {
    /// Every unit is out.
    AllOut,
    /// This unit is not out.
    NotOut { unit: u16 },
    /// The size is not 1 to 4,096, or the memory is too small for it.
    BadSize,
}

impl AllocatorFault {
    /// The number of the refusal.
    pub fn number(self) -> u8
        ensures { result ≡ (ground self).0 }
    {
        match self {
            AllocatorFault::AllOut => 18,
            AllocatorFault::NotOut { unit: _ } => 19,
            AllocatorFault::BadSize => 20,
        }
    }
}

/// A fixed number of units, numbered from 0, each in or out.
pub trait Allocator {
    // the meaning: whether each unit is out
    ghost units: { Self → List Bool };

    // the lent memory: each by its name, with how many units it has and what it holds beside them
    ghost lent: { Self → List (ℕ × ℕ × List ℕ) };

    // the proof that there are 1 to 4,096 units
    ghost sized: { (s : Self) → (1 ≤ length (units s)) × (length (units s) ≤ 4096) };

    /// How many units there are.
    fn size(&self) -> u16
        ensures { result ≡ length (units self.now) };

    /// Whether the unit is out; one past the size is not.
    fn is_out(&self, unit: u16) -> bool
        ensures { result ≡ slice_index_or (units self.now) unit false };

    /// Takes a unit that is in. Refuses where every unit is out.
    fn take(&mut self) -> Result<u16, AllocatorFault>
        ensures took { Took (units self.old) (units self.new) result }
        ensures kept { Kept self.old self.new result }
        ensures lent { lent self.new ≡ lent self.old };

    /// Brings a unit back that is out. Refuses where it is not out.
    fn give(&mut self, unit: u16) -> Result<(), AllocatorFault>
        ensures gave { Gave (units self.old) (units self.new) unit result }
        ensures kept { Kept self.old self.new result }
        ensures lent { lent self.new ≡ lent self.old };
}
