// Why the ledger refuses, as an enum and in numbers.
ghost use Rattle.std.specs.Prelude.{◌≡◌, None};
ghost use Rattle.tally.specs.Faults.{of_transactions, refusal_of};
ghost use Rattle.tally.specs.declared.fault.LedgerFault.TheVariants.{InTree as in_tree};
ghost use Rattle.rules.specs.Book.{state_number};

use super::records::LARGEST;
use orders::answer::{Layer, Refusal};
use rules::state::Transaction;
use tree::fault::TreeFault;

/// The refusals of the ledger.
#[derive(Clone, Copy, Debug, PartialEq, Eq)]
pub enum LedgerFault {
    /// There are 32 transactions.
    NoSuchTransaction {
        transaction: u8,
    },
    /// The transaction's state does not allow the order.
    WrongState {
        transaction: u8,
        state: Transaction,
    },
    /// No writes or frees are asked for, or with those held before they are more than 64.
    BadCount {
        transaction: u8,
        held: u8,
    },
    /// No write, or no free, is left of those held.
    NoneLeft {
        transaction: u8,
    },
    /// The volume has only so many records.
    NoSuchRecord {
        transaction: u8,
        number: u8,
        records: u8,
    },
    /// A record has 16 sectors.
    SizeTooLarge {
        transaction: u8,
        size: u8,
    },
    /// So many transactions are assigned, with the lowest of them.
    StillAssigned {
        lowest: u8,
        count: u8,
    },
    /// A refusal of the tree, with the transaction where the order has one.
    InTree {
        fault: TreeFault,
        transaction: Option<u8>,
    },
}

/// A fault in numbers.
impl From<LedgerFault> for Refusal {
    ghost from_gives = { λ fault refusal. refusal ≡ refusal_of fault };

    fn from(fault: LedgerFault) -> Refusal {
        match fault {
            LedgerFault::NoSuchTransaction { transaction } => of_transactions(5, transaction, 0),
            LedgerFault::WrongState { transaction, state } => {
                of_transactions(6, transaction, state_number(state))
            }
            LedgerFault::BadCount { transaction, held } => {
                of_transactions(7, transaction, u16::from(held))
            }
            LedgerFault::NoneLeft { transaction } => of_transactions(8, transaction, 0),
            LedgerFault::NoSuchRecord {
                transaction: _,
                number,
                records,
            } => { of_transactions(9, number, u16::from(records)) }
            LedgerFault::SizeTooLarge {
                transaction: _,
                size,
            } => of_transactions(10, size, u16::from(LARGEST)),
            LedgerFault::StillAssigned { lowest, count } => {
                of_transactions(11, lowest, u16::from(count))
            }
            LedgerFault::InTree {
                fault,
                transaction: _,
            } => Refusal::from(fault),
        }
    }
}

// The number by which a refusal shows a state.
fn state_number(state: Transaction) -> u16
    ensures { result ≡ state_number state }
{
    match state {
        Transaction::Idle => 0,
        Transaction::Created { .. } => 1,
        Transaction::Held { .. } => 2,
        Transaction::Assigned { .. } => 3,
    }
}

// A refusal of this layer. One function for this layer and the tree's is no plainer: each call would name the layer besides.
fn of_transactions(number: u8, item: u8, amount: u16) -> Refusal
    ensures { result ≡ of_transactions number item amount }
{
    Refusal {
        number,
        layer: Layer::Transactions,
        item,
        amount,
    }
}

/// A refusal of the tree as one of the ledger's, with no transaction yet.
impl From<TreeFault> for LedgerFault {
    ghost from_gives = { λ fault lifted. lifted ≡ in_tree fault None };

    fn from(fault: TreeFault) -> LedgerFault {
        LedgerFault::InTree {
            fault,
            transaction: None,
        }
    }
}
