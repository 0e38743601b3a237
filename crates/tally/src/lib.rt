// The book of a ledger: datasets with what they hold, and transactions, in fixed tables.
#![tactic(auto)]

ghost use Rattle.tally.specs.Sound.{Sized, Sound};

use rules::state::{Contents, Transaction};
use tree::Tree;

mod datasets;
pub mod fault;
mod figures;
mod making;
pub mod records;
mod step;
mod transact;
mod turning;

/// The datasets and transactions of a ledger over a pool of `size` units, of which `slop` are kept back, where a write costs at most `worst`.
#[derive(Drop)]
pub struct Tally {
    size: u16,
    slop: u16,
    worst: u16,
    // places, quotas, reservations, and the charges that follow
    tree: Tree,
    // what each dataset holds; what stands past the datasets is not used. Not a part of the tree's nodes: the tree knows nothing of records, and a fixed array needs no heap
    contents: [Contents; 64],
    transactions: [Transaction; 32],
    ghost sized: { Sized size slop worst },
    ghost sound: { ∥ Sound size slop worst tree contents transactions ∥₁ },
}
