// Why the tree refuses, as an enum and in numbers.
ghost use Rattle.std.specs.Prelude.{◌≡◌};
ghost use Rattle.tree.specs.Faults.{limit_fault, refusal_of, tree_refusal};

use orders::answer::{Layer, Refusal};

/// The refusals of the tree.
#[derive(Clone, Copy, Debug, PartialEq, Eq)]
pub enum TreeFault {
    /// There is no such dataset.
    Missing { dataset: u8 },
    /// The root has neither quota nor reservation.
    IsRoot { dataset: u8 },
    /// Only a folder has datasets in it.
    NotFolder { dataset: u8 },
    /// Only a volume has records.
    NotVolume { dataset: u8 },
    /// There are as many datasets as there can be.
    Full,
    /// A volume has 1 to 64 records.
    RecordCount { records: u8 },
    /// The quota is below the charge or the reservation, by so much.
    QuotaTooSmall { dataset: u8, short: u16 },
    /// The reservation passes the quota, by so much.
    ReservationTooLarge { dataset: u8, excess: u16 },
    /// The charge of a dataset would pass its limit, by so much.
    LimitPassed { dataset: u8, shortfall: u16 },
}

/// A fault in numbers.
impl From<TreeFault> for Refusal {
    ghost from_gives = { λ fault refusal. refusal ≡ refusal_of fault };

    fn from(fault: TreeFault) -> Refusal {
        match fault {
            TreeFault::Missing { dataset }
            | TreeFault::IsRoot { dataset }
            | TreeFault::NotFolder { dataset }
            | TreeFault::NotVolume { dataset } => tree_refusal(12, dataset, 0),
            TreeFault::Full => tree_refusal(13, 0, 64),
            TreeFault::RecordCount { records } => tree_refusal(14, records, 0),
            TreeFault::QuotaTooSmall { dataset, short } => tree_refusal(15, dataset, short),
            TreeFault::ReservationTooLarge { dataset, excess } => tree_refusal(16, dataset, excess),
            TreeFault::LimitPassed { dataset, shortfall } => tree_refusal(17, dataset, shortfall),
        }
    }
}

// A refusal of this layer. One function for this layer and the tally's is no plainer: each call would name the layer besides.
fn tree_refusal(number: u8, item: u8, amount: u16) -> Refusal
    ensures { result ≡ tree_refusal number item amount }
{
    Refusal {
        number,
        layer: Layer::Tree,
        item,
        amount,
    }
}

/// A failed walk, a dataset and its shortfall, as a fault.
impl From<(u8, u16)> for TreeFault {
    ghost from_gives = { λ walked fault. fault ≡ limit_fault walked };

    fn from(walked: (u8, u16)) -> TreeFault {
        let (dataset, shortfall) = walked;
        TreeFault::LimitPassed { dataset, shortfall }
    }
}
