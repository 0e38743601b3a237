// The records that a table has a place for: 64 of 64 volumes.
ghost use Rattle.std.specs.Prelude.{◌≡◌, ◌+◌, ◌*◌, ◌<◌, MatchOption};

/// A record that a table has a place for.
#[derive(Clone, Copy)]
pub struct Place {
    pub volume: u8,
    pub number: u8,
    ghost named: { (volume < 64) × (number < 64) },
}

impl Place {
    /// The place of a record, if there is one.
    pub fn find(volume: u8, number: u8) -> Option<Self>
        ensures { MatchOption result (volume < 64 → number < 64 → ⊥) (λ p. (p.volume ≡ volume) × (p.number ≡ number)) }
    {
        if volume < 64 && number < 64 {
            Some(Place { volume, number })
        } else {
            None
        }
    }

    /// Where the head of the record's units stands.
    pub fn index(self) -> usize
        ensures { result ≡ self.volume * 64 + self.number }
    {
        usize::from(self.volume) * 64 + usize::from(self.number)
    }
}
