// An allocator made of any two: the second's units follow the first's.
ghost use Rattle.std.specs.Prelude.{◌≡◌, ◌+◌, ◌<◌, ◌≤◌, ◌++◌, length, MatchOption};
ghost use Rattle.std.specs.Coded.{×_prop};
ghost use Rattle.pool.specs.Pairs.{Few, joined_sized};
ghost use Rattle.pool.specs.Units.{Checked};

use super::allocator::{Allocator, AllocatorFault, MOST_UNITS};

// the unit's number in the second part, where it is none of the first part's so many units
fn past(border: u16, unit: u16) -> Option<u16>
    ensures { MatchOption result (unit < border) (λ own. border + own ≡ unit) }
{
    unit.checked_sub(border)
}

/// Two allocators as one.
#[derive(Drop)]
pub struct Joined<A: Allocator, B: Allocator> {
    first: A,
    second: B,
    ghost few: { Few (A.Allocator.units first) (B.Allocator.units second) },
}

impl<A: Allocator, B: Allocator> Joined<A, B> {
    /// Refuses two that have more than 4,096 units together.
    pub fn check(first: &A, second: &B) -> Result<(), AllocatorFault>
        ensures { Checked (Few (A.Allocator.units first.now) (B.Allocator.units second.now)) result }
    {
        if usize::from(first.size() + second.size()) > MOST_UNITS {
            return Err(AllocatorFault::BadSize);
        }
        Ok(())
    }

    /// The two as one, neither of them changed.
    pub fn make(first: A, second: B) -> Self
        requires { Few (A.Allocator.units first) (B.Allocator.units second) }
        ensures parts { (result.first ≡ first) × (result.second ≡ second) }
        ensures units { A.Allocator.units result.first ++ B.Allocator.units result.second ≡ A.Allocator.units first ++ B.Allocator.units second }
    {
        Joined { first, second }
    }

    /// The two, as they are now.
    pub fn parts(self) -> (A, B)
        ensures { (result.0 ≡ self.first) × (result.1 ≡ self.second) }
    {
        let Joined { first, second } = self;
        (first, second)
    }
}

impl<A: Allocator, B: Allocator> Allocator for Joined<A, B> {
    ghost units = { λ s. A.Allocator.units s.first ++ B.Allocator.units s.second };

    ghost lent = { λ s. A.Allocator.lent s.first ++ B.Allocator.lent s.second };

    ghost sized = { λ s. joined_sized (A.Allocator.units s.first) (B.Allocator.units s.second) (A.Allocator.sized s.first) s.few };

    fn size(&self) -> u16 {
        self.first.size() + self.second.size()
    }

    fn is_out(&self, unit: u16) -> bool {
        match past(self.first.size(), unit) {
            None => self.first.is_out(unit),
            Some(own) => self.second.is_out(own),
        }
    }

    fn take(&mut self) -> Result<u16, AllocatorFault> {
        if let Ok(unit) = self.first.take() {
            return Ok(unit);
        }
        let border = self.first.size();
        let unit = self.second.take()?;
        Ok(border + unit)
    }

    fn give(&mut self, unit: u16) -> Result<(), AllocatorFault> {
        match past(self.first.size(), unit) {
            None => self.first.give(unit),
            Some(own) => self
                .second
                .give(own)
                .map_err(|_| AllocatorFault::NotOut { unit }),
        }
    }
}
