// What the marks refuse with.
ghost use Rattle.std.specs.Prelude.{◌≡◌};
ghost use Rattle.marks.specs.Faults.{ground};

/// Why units are not taken.
#[derive(Clone, Copy, PartialEq, Eq, Debug)]
pub enum MarksFault {
    /// There are 64 records of 64 volumes, and this is none of them.
    NoSuchRecord { volume: u8, number: u8 },
    /// Fewer units are in than were asked for.
    AllOut,
}

impl MarksFault {
    /// The number of the refusal.
    pub fn number(self) -> u8
        ensures { result ≡ (ground self).0 }
    {
        match self {
            MarksFault::NoSuchRecord { .. } => 9,
            MarksFault::AllOut => 18,
        }
    }
}
