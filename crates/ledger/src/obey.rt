// The one way for an order into the ledger.
ghost use Rattle.std.specs.Prelude.{◌≡◌, List, ◌∷◌};
ghost use Rattle.orders.specs.Meaning.{meaning};
ghost use Rattle.rules.specs.Answers.{answer};
ghost use Rattle.rules.specs.Figures.{Figures};
ghost use Rattle.rules.specs.Journal.{Entry, book_after};
ghost use Rattle.rules.specs.Standing.{entry};
ghost use Rattle.ledger.specs.Parts.{book_of, pool_of, units_of, lent_of, figures, Sound, Stands, Did, Untouched, PoolKept};
ghost use Rattle.ledger.specs.Replies.{answer_of};

use super::Ledger;
use super::reply::Reply;
use costs::policy::CostPolicy;
use orders::order::{Name, Order};
use pool::allocator::Allocator;
use tally::fault::LedgerFault;

// The bytes of a name; of this call's result a proof knows that they are eight.
fn bytes_of(name: Name<'_>) -> [u8; 8]
    ensures { result ≡ name.entry.bytes.now }
{
    *name.bytes
}

impl<A: Allocator, P: CostPolicy> Ledger<A, P> {
    // Each order by its own function: those that move no unit are the tally's.
    fn carry_out(&mut self, order: Order<'_>) -> Result<Reply, LedgerFault>
        ensures { Did self.old self.new (meaning order.entry) (answer_of result) }
    {
        match order {
            Order::Folder { parent, name } => self
                .tally
                .folder(parent, bytes_of(name))
                .map(Reply::Done),
            Order::Volume {
                parent,
                records,
                name,
            } => self
                .tally
                .volume(parent, records, bytes_of(name))
                .map(Reply::Done),
            Order::Quota { dataset, units } => self.tally.quota(dataset, units).map(Reply::Done),
            Order::Reserve { dataset, units } => self
                .tally
                .reserve(dataset, units)
                .map(Reply::Done),
            Order::Resize { volume, records } => self.resize(volume, records).map(Reply::Done),
            Order::Begin {
                transaction,
                volume,
            } => self.tally.begin(transaction, volume).map(Reply::Done),
            Order::HoldWrites { transaction, count } => self
                .tally
                .hold_writes(transaction, count)
                .map(Reply::Done),
            Order::HoldFrees { transaction, count } => self
                .tally
                .hold_frees(transaction, count)
                .map(Reply::Done),
            Order::Assign { transaction } => self.tally.assign(transaction).map(Reply::Done),
            Order::Abort { transaction } => self.tally.abort(transaction).map(Reply::Done),
            Order::Write {
                transaction,
                record,
                size,
            } => self.write(transaction, record, size).map(Reply::Done),
            Order::Free {
                transaction,
                record,
            } => self.free(transaction, record).map(Reply::Done),
            Order::Commit { transaction } => self.tally.commit(transaction).map(Reply::Done),
            Order::Turn => self.turn().map(Reply::Done),
            Order::Tell { dataset } => self.tally.tell(dataset).map(Reply::Told),
        }
    }

    /// Obeys one order. Every journal that stands behind the ledger stands with this order, its answer and the units out before and
    /// after it. A refused order changes nothing, and neither does tell.
    pub fn obey(&mut self, order: Order<'_>) -> Result<Reply, LedgerFault>
        ensures sound { Sound self.old → Sound self.new }
        ensures law { (F : Figures) (j : List Entry) → Stands F self.old j → Stands F self.new (entry (meaning order.entry) (answer_of result) (units_of self.old) (units_of self.new) ∷ j) }
        ensures answered { answer_of result ≡ answer (figures self.old) (book_of self.old) (meaning order.entry) }
        ensures booked { book_of self.new ≡ book_after (figures self.old) (book_of self.old) (meaning order.entry) (answer_of result) }
        ensures figured { figures self.new ≡ figures self.old }
        ensures untouched { Untouched self.old self.new (answer_of result) }
        ensures kept { PoolKept (meaning order.entry) (pool_of self.old) (pool_of self.new) }
        ensures lent { lent_of self.new ≡ lent_of self.old }
    {
        self.carry_out(order)
    }
}
