// The turn: what was deferred is given back.
ghost use Rattle.std.specs.Prelude.{◌≡◌, ◌<◌, ◌≤◌, length, count_by, position};
ghost use Rattle.orders.specs.Meaning.{turn as to_turn};
ghost use Rattle.rules.specs.Book.{is_assigned};
ghost use Rattle.tally.specs.Faults.{answer_of};
ghost use Rattle.tally.specs.Parts.{Did};
ghost use Rattle.tally.specs.Turns.{Settled, turn_or};

use super::Tally;
use super::fault::LedgerFault;
use rules::state::Transaction;
use std::mem;
use tree::Tree;

fn is_assigned(state: Transaction) -> bool
    ensures { result ≡ is_assigned state }
{
    matches!(state, Transaction::Assigned { .. })
}

// How many are assigned.
fn count_assigned(transactions: &[Transaction]) -> u8
    requires { length transactions.now ≤ 32 }
    ensures { result ≡ count_by is_assigned transactions.now }
{
    transactions
        .iter()
        .filter(|state| is_assigned(**state))
        .count() as u8
}

// The first that is assigned, where one is.
fn first_assigned(transactions: &[Transaction]) -> Option<usize>
    ensures { result ≡ position is_assigned transactions.now }
{
    transactions.iter().position(|state| is_assigned(*state))
}

impl Tally {
    fn none_assigned(&self) -> Result<(), LedgerFault>
        ensures { result ≡ turn_or self.now.transactions }
    {
        match first_assigned(&self.transactions) {
            None => Ok(()),
            Some(lowest) => Err(LedgerFault::StillAssigned {
                lowest: lowest as u8,
                count: count_assigned(&self.transactions),
            }),
        }
    }

    // Gives back what one dataset has deferred; how much that is.
    fn settle(&mut self, d: u8) -> u16
        requires { d < 64 }
        ensures { Settled self.old self.new d result }
    {
        let contents = &mut self.contents[usize::from(d)];
        if let Err(_) = self.tree.lower(d, contents.deferred) {
            return 0;
        }
        mem::take(&mut contents.deferred)
    }

    /// Gives back all deferred units, where no transaction is assigned; how many they are.
    pub fn turn(&mut self) -> Result<u16, LedgerFault>
        ensures { Did self.old self.new to_turn (answer_of result) }
    {
        self.none_assigned()?;
        let mut given = 0;
        // by number: a step changes both the tree and what a dataset holds, so a closure that a chain calls would hide it from the proof
        for d in 0..64 {
            given += self.settle(d);
        }
        Ok(given)
    }
}
