// A cost policy by its figures.
ghost use Rattle.std.specs.Prelude.{◌≡◌};
ghost use Rattle.costs.specs.Answers.{Checked};
ghost use Rattle.setup.specs.Schemes.{SchemeFits};

use costs::copies::Copies;
use costs::fault::CostFault;
use costs::parity::Parity;

/// The figures of a cost policy, which need not be in their range.
#[derive(Clone, Copy, PartialEq, Eq, Debug)]
pub enum Scheme {
    /// So many copies of each sector.
    Copies { n: u8 },
    /// `p` parity sectors in each row over `w` disks.
    Parity { p: u8, w: u8 },
}

impl Scheme {
    /// Refuses figures that no policy can have.
    pub fn check(self) -> Result<(), CostFault>
        ensures { Checked (SchemeFits self) result }
    {
        match self {
            Scheme::Copies { n } => Copies::check(n),
            Scheme::Parity { p, w } => Parity::check(p, w),
        }
    }
}
