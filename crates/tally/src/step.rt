// How a transaction goes from state to state.
ghost use Rattle.std.specs.Prelude.{◌≡◌, ◌+◌, ◌-◌};
ghost use Rattle.rules.specs.Book.{volume_of, writes_of};
ghost use Rattle.tally.specs.Steps.{counted_or, left_or, step_of};

use super::fault::LedgerFault;
use rules::state::Transaction;

// What is asked of a transaction. One match of states and orders shows every pair, as the rules' table does; closures, one for each order, would take it apart.
#[derive(Clone, Copy)]
pub(crate) enum Asked {
    Begin { volume: u8 },
    HoldWrites { count: u8 },
    HoldFrees { count: u8 },
    Assign,
    Abort,
    Write,
    Free,
    Commit,
}

// A transaction's state before and after what is asked.
#[derive(Clone, Copy)]
pub(crate) struct Change {
    pub(crate) before: Transaction,
    pub(crate) after: Transaction,
}

// The state of transaction `t` once it is given what is asked.
pub(crate) fn step(t: u8, state: Transaction, asked: Asked) -> Result<Transaction, LedgerFault>
    ensures { result ≡ step_of t state asked }
{
    // The arms take volume, writes and frees apart: a struct of them is no plainer, since the variants are the rules' data, and their definitions cite the fields.
    match (state, asked) {
        (Transaction::Idle, Asked::Begin { volume }) => Ok(Transaction::Created { volume }),
        (Transaction::Created { volume }, Asked::HoldWrites { count }) => {
            let writes = counted(t, 0, count)?;
            Ok(Transaction::Held {
                volume,
                writes,
                frees: 0,
            })
        }
        (
            Transaction::Held {
                volume,
                writes,
                frees,
            },
            Asked::HoldWrites { count },
        ) => {
            let writes = counted(t, writes, count)?;
            Ok(Transaction::Held {
                volume,
                writes,
                frees,
            })
        }
        (Transaction::Created { volume }, Asked::HoldFrees { count }) => {
            let frees = counted(t, 0, count)?;
            Ok(Transaction::Held {
                volume,
                writes: 0,
                frees,
            })
        }
        (
            Transaction::Held {
                volume,
                writes,
                frees,
            },
            Asked::HoldFrees { count },
        ) => {
            let frees = counted(t, frees, count)?;
            Ok(Transaction::Held {
                volume,
                writes,
                frees,
            })
        }
        (
            Transaction::Held {
                volume,
                writes,
                frees,
            },
            Asked::Assign,
        ) => {
            Ok(Transaction::Assigned {
                volume,
                writes,
                frees,
            })
        }
        (Transaction::Created { .. } | Transaction::Held { .. }, Asked::Abort) => {
            Ok(Transaction::Idle)
        }
        (
            Transaction::Assigned {
                volume,
                writes,
                frees,
            },
            Asked::Write,
        ) => {
            let writes = spent(t, writes)?;
            Ok(Transaction::Assigned {
                volume,
                writes,
                frees,
            })
        }
        (
            Transaction::Assigned {
                volume,
                writes,
                frees,
            },
            Asked::Free,
        ) => {
            let frees = spent(t, frees)?;
            Ok(Transaction::Assigned {
                volume,
                writes,
                frees,
            })
        }
        (Transaction::Assigned { .. }, Asked::Commit) => Ok(Transaction::Idle),
        _ => Err(LedgerFault::WrongState {
            transaction: t,
            state,
        }),
    }
}

// How many are held with `count` more: at least one more, and at most 64 together.
fn counted(t: u8, held: u8, count: u8) -> Result<u8, LedgerFault>
    ensures { result ≡ counted_or t held count (held + count) }
{
    let total = u16::from(held) + u16::from(count);
    if count == 0 || total > 64 {
        return Err(LedgerFault::BadCount {
            transaction: t,
            held,
        });
    }
    Ok(total as u8)
}

// How many are left once one is spent.
fn spent(t: u8, left: u8) -> Result<u8, LedgerFault>
    ensures { result ≡ left_or t left (left - 1) }
{
    left.checked_sub(1)
        .ok_or(LedgerFault::NoneLeft { transaction: t })
}

// The volume of a transaction, 0 where it has none: an option is no plainer, since the Book's definition has the 0, and callers ask only where there is one.
pub(crate) fn volume_of(state: Transaction) -> u8
    ensures { result ≡ volume_of state }
{
    match state {
        Transaction::Idle => 0,
        Transaction::Created { volume }
        | Transaction::Held { volume, .. }
        | Transaction::Assigned { volume, .. } => volume,
    }
}

// The writes that are held, or left of those held.
pub(crate) fn writes_of(state: Transaction) -> u8
    ensures { result ≡ writes_of state }
{
    match state {
        Transaction::Idle | Transaction::Created { .. } => 0,
        Transaction::Held { writes, .. } | Transaction::Assigned { writes, .. } => writes,
    }
}
