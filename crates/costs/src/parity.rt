// A policy that stores parity beside the data, as raidz does.
ghost use Rattle.std.specs.Prelude.{◌≡◌, ℕ, ◌+◌, ◌-◌, ◌*◌, ◌^◌, ◌<◌, ◌≤◌};
ghost use Rattle.costs.specs.Answers.{Asked, Checked};
ghost use Rattle.costs.specs.Bounds.{parity_bounded};
ghost use Rattle.costs.specs.Costs.{largest, ParityFit, parity_cost, ceiling_div, rounded_up};

use super::fault::CostFault;
use super::policy::{CostPolicy, RECORD_SECTORS, sectors_of};

/// One to three parity sectors (`p`) in each row over `w` disks, more than `p` and at most 16. No other figures can be had.
#[derive(Clone, Copy, Debug)]
pub struct Parity {
    pub p: u8,
    pub w: u8,
    ghost fit: { ParityFit p w },
}

impl Parity {
    /// Refuses a parity that is not 1 to 3, and a width that is not above it and at most 16.
    pub fn check(p: u8, w: u8) -> Result<(), CostFault>
        ensures { Checked (ParityFit p w) result }
    {
        if (1..=3).contains(&p) && p < w && w <= 16 {
            Ok(())
        } else {
            Err(CostFault::FiguresOutOfRange)
        }
    }

    /// The policy of these figures, which `check` has accepted.
    pub fn make(p: u8, w: u8) -> Parity
        requires { ParityFit p w }
        ensures { (result.p ≡ p) × (result.w ≡ w) }
    {
        Parity { p, w }
    }

    // What `size` sectors cost: a row for each w - p data sectors or part of them, p parity sectors a row, all rounded up to a
    // multiple of p + 1.
    fn units(&self, size: u16) -> u16
        requires { size ≤ largest }
        ensures { result ≡ parity_cost self.now.p self.now.w size }
    {
        let p = u16::from(self.p);
        let data = u16::from(self.w) - p;
        let rows = size.div_ceil(data);
        let sectors = size + parity_sectors(p, rows);
        sectors.next_multiple_of(p + 1)
    }
}

// `p` parity sectors in each of `rows` rows.
fn parity_sectors(p: u16, rows: u16) -> u16
    requires { (p ≤ 3) × (rows ≤ largest) }
    ensures value { result ≡ p * rows }
    ensures bound { result ≤ 48 }
{
    p * rows
}

impl CostPolicy for Parity {
    ghost cost = { λ policy size. parity_cost policy.p policy.w size };

    ghost worst = { λ policy. parity_cost policy.p policy.w largest };

    ghost bounded = { λ policy. parity_bounded policy.p policy.w policy.fit };

    fn cost(&self, size: u8) -> Result<u16, CostFault> {
        Ok(self.units(sectors_of(size)?))
    }

    fn worst(&self) -> u16 {
        self.units(u16::from(RECORD_SECTORS))
    }
}
