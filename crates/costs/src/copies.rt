// A policy that stores every sector one to three times.
ghost use Rattle.std.specs.Prelude.{◌≡◌};
ghost use Rattle.costs.specs.Answers.{Asked, Checked};
ghost use Rattle.costs.specs.Bounds.{copies_bounded};
ghost use Rattle.costs.specs.Costs.{largest, CopiesFit, copies_cost};

use super::fault::CostFault;
use super::policy::{CostPolicy, RECORD_SECTORS, sectors_of};

/// One to three copies of every sector. No other number can be had.
#[derive(Clone, Copy, Debug)]
pub struct Copies {
    pub n: u8,
    ghost fit: { CopiesFit n },
}

impl Copies {
    /// Refuses a number of copies that is not 1 to 3.
    pub fn check(n: u8) -> Result<(), CostFault>
        ensures { Checked (CopiesFit n) result }
    {
        if (1..=3).contains(&n) {
            Ok(())
        } else {
            Err(CostFault::FiguresOutOfRange)
        }
    }

    /// The policy of `n` copies, which `check` has accepted.
    pub fn make(n: u8) -> Copies
        requires { CopiesFit n }
        ensures { result.n ≡ n }
    {
        Copies { n }
    }
}

impl CostPolicy for Copies {
    ghost cost = { λ policy size. copies_cost policy.n size };

    ghost worst = { λ policy. copies_cost policy.n largest };

    ghost bounded = { λ policy. copies_bounded policy.n policy.fit };

    fn cost(&self, size: u8) -> Result<u16, CostFault> {
        Ok(sectors_of(size)? * u16::from(self.n))
    }

    fn worst(&self) -> u16 {
        u16::from(RECORD_SECTORS) * u16::from(self.n)
    }
}
