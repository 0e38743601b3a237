// The ledger of a pool: the book of its datasets and transactions, and who has each unit.
#![tactic(auto)]

ghost use Rattle.ledger.specs.Joined.{SoundIn};

pub mod fault;
pub mod making;
pub mod obey;
pub mod reply;
pub mod serve;
mod units;

use costs::policy::CostPolicy;
use marks::marks::Marks;
use pool::allocator::Allocator;
use tally::Tally;

/// A ledger over an allocator of units and a cost policy. Some journal stands behind it.
#[derive(Drop)]
pub struct Ledger<A: Allocator, P: CostPolicy> {
    // datasets and transactions
    tally: Tally,
    // the allocator, and the holder of each of its units
    marks: Marks<A>,
    policy: P,
    ghost sound: { ∥ SoundIn A.Allocator P.CostPolicy tally marks policy ∥₁ },
}
