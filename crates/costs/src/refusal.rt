// The numbers of a fault.
ghost use Rattle.std.specs.Prelude.{◌≡◌};
ghost use Rattle.costs.specs.Faults.{refusal_of};

use super::fault::CostFault;
use super::policy::RECORD_SECTORS;
use orders::answer::{Layer, Refusal};

/// The fault in numbers.
impl From<CostFault> for Refusal {
    ghost from_gives = { λ fault refusal. refusal ≡ refusal_of fault };

    fn from(fault: CostFault) -> Refusal {
        match fault {
            CostFault::SizeTooLarge(size) => Refusal {
                number: 10,
                layer: Layer::Transactions,
                item: size,
                amount: u16::from(RECORD_SECTORS),
            },
            CostFault::FiguresOutOfRange => Refusal {
                number: 23,
                layer: Layer::Transactions,
                item: 0,
                amount: 0,
            },
        }
    }
}
