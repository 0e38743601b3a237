// Orders on transactions.
ghost use Rattle.std.specs.Prelude.{◌≡◌, ◌*◌, ◌<◌, Some as some, slice_set};
ghost use Rattle.orders.specs.Meaning.{abort as to_abort, assign as to_assign, begin as to_begin, commit as to_commit, hold_frees as to_hold_frees, hold_writes as to_hold_writes};
ghost use Rattle.rules.specs.Book.{writes_of};
ghost use Rattle.tally.specs.Faults.{answer_of};
ghost use Rattle.tally.specs.Parts.{Did, Put};
ghost use Rattle.tally.specs.Sound.{Sound};
ghost use Rattle.tally.specs.Steps.{change_of, lifted};

use super::Tally;
use super::fault::LedgerFault;
use super::step::{Asked, Change, step, volume_of, writes_of};
use rules::state::Transaction;
use tree::Tree;
use tree::fault::TreeFault;

// A refusal of the tree, with the transaction of the order.
fn in_transaction(t: u8, res: Result<(), TreeFault>) -> Result<(), LedgerFault>
    ensures { result ≡ lifted (some t) res }
{
    res.map_err(|fault| LedgerFault::InTree {
        fault,
        transaction: Some(t),
    })
}

impl Tally {
    // The most that a transaction's writes may cost.
    pub(crate) fn estimate(&self, state: Transaction) -> u16
        ensures { result ≡ writes_of state * self.now.worst }
    {
        u16::from(writes_of(state)) * self.worst
    }

    // The transaction's state, and the one that it is to have.
    pub(crate) fn change(&self, t: u8, asked: Asked) -> Result<Change, LedgerFault>
        ensures { result ≡ change_of self.now.transactions t asked }
    {
        let before = self
            .transactions
            .get(usize::from(t))
            .copied()
            .ok_or(LedgerFault::NoSuchTransaction { transaction: t })?;
        let after = step(t, before, asked)?;
        Ok(Change { before, after })
    }

    fn put(&mut self, t: u8, state: Transaction)
        requires listed { t < 32 }
        requires sound { ∥ Sound self.old.size self.old.slop self.old.worst self.old.tree self.old.contents (slice_set self.old.transactions t state) ∥₁ }
        ensures { Put self.old self.new t state }
    {
        self.transactions[usize::from(t)] = state;
    }

    /// Opens a transaction on a volume; the worst cost of a write.
    pub fn begin(&mut self, t: u8, volume: u8) -> Result<u16, LedgerFault>
        ensures { Did self.old self.new (to_begin t volume) (answer_of result) }
    {
        let change = self.change(t, Asked::Begin { volume })?;
        in_transaction(t, self.tree.volume(volume))?;
        self.put(t, change.after);
        Ok(self.worst)
    }

    // The two holds differ in the step alone; one method for any step would have to require that the book stays sound after it, as these two show of theirs.

    /// Holds so many more writes; the estimate.
    pub fn hold_writes(&mut self, t: u8, count: u8) -> Result<u16, LedgerFault>
        ensures { Did self.old self.new (to_hold_writes t count) (answer_of result) }
    {
        let change = self.change(t, Asked::HoldWrites { count })?;
        let units = self.estimate(change.after);
        self.put(t, change.after);
        Ok(units)
    }

    /// Holds so many more frees; the estimate.
    pub fn hold_frees(&mut self, t: u8, count: u8) -> Result<u16, LedgerFault>
        ensures { Did self.old self.new (to_hold_frees t count) (answer_of result) }
    {
        let change = self.change(t, Asked::HoldFrees { count })?;
        let units = self.estimate(change.after);
        self.put(t, change.after);
        Ok(units)
    }

    /// Drops a transaction that is not assigned; the estimate dropped.
    pub fn abort(&mut self, t: u8) -> Result<u16, LedgerFault>
        ensures { Did self.old self.new (to_abort t) (answer_of result) }
    {
        let change = self.change(t, Asked::Abort)?;
        let units = self.estimate(change.before);
        self.put(t, change.after);
        Ok(units)
    }

    /// Grants what the held writes may cost, if all from the volume to the root stay within their limits; the units granted.
    pub fn assign(&mut self, t: u8) -> Result<u16, LedgerFault>
        ensures { Did self.old self.new (to_assign t) (answer_of result) }
    {
        let change = self.change(t, Asked::Assign)?;
        let units = self.estimate(change.after);
        in_transaction(t, self.tree.raise(volume_of(change.after), units))?;
        self.transactions[usize::from(t)] = change.after;
        Ok(units)
    }

    /// Ends an assigned transaction and gives back what it did not spend; the units given back.
    pub fn commit(&mut self, t: u8) -> Result<u16, LedgerFault>
        ensures { Did self.old self.new (to_commit t) (answer_of result) }
    {
        let change = self.change(t, Asked::Commit)?;
        let units = self.estimate(change.before);
        let Ok(()) = self.tree.lower(volume_of(change.before), units) else {
            unreachable()
        };
        self.transactions[usize::from(t)] = change.after;
        Ok(units)
    }
}
