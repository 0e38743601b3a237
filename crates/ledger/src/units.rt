// Orders that move units.
ghost use Rattle.std.specs.Prelude.{◌≡◌, ◌-◌};
ghost use Rattle.marks.specs.Sound.{pool_of as pool_in, holders_of as holders_in, size_of};
ghost use Rattle.rules.specs.Marks.{defer_from};
ghost use Rattle.orders.specs.Meaning.{free as to_free, resize as to_resize, turn as to_turn, write as to_write};
ghost use Rattle.orders.specs.declared.answer.Answer.TheVariants.{Done as answered_done};
ghost use Rattle.tally.specs.Faults.{answer_of as done_of};
ghost use Rattle.tally.specs.Parts.{Accepts};
ghost use Rattle.ledger.specs.Parts.{Did};

use super::Ledger;
use costs::policy::CostPolicy;
use marks::marks::Marks;
use pool::allocator::Allocator;
use tally::fault::LedgerFault;
use tally::records::{Freed, Resized};

// The units of the records from `start` to before `end` become deferred ones of their volume.
pub(crate) fn defer_from<A: Allocator>(marks: &mut Marks<A>, volume: u8, start: u8, end: u8)
    ensures holders { holders_in marks.new ≡ defer_from volume start (end - start) (holders_in marks.old) }
    ensures kept { pool_in marks.new ≡ pool_in marks.old }
    ensures sized { size_of marks.new ≡ size_of marks.old }
{
    for number in start..end {
        let _ = marks.defer(volume, number);
    }
}

impl<A: Allocator, P: CostPolicy> Ledger<A, P> {
    pub(crate) fn free(&mut self, t: u8, number: u8) -> Result<u16, LedgerFault>
        ensures { Did self.old self.new (to_free t number) (done_of result) }
    {
        let Freed { volume, units } = self.tally.free(t, number)?;
        let _ = self.marks.defer(volume, number);
        Ok(units)
    }

    pub(crate) fn write(&mut self, t: u8, number: u8, size: u8) -> Result<u16, LedgerFault>
        ensures { Did self.old self.new (to_write t number size) (done_of result) }
    {
        let volume = self.tally.to_write(t, number, size)?;
        Ok(self.spend(t, volume, number, size))
    }

    // A write that is accepted: its cost in units is taken for the record, and what the record had is deferred.
    fn spend(&mut self, t: u8, volume: u8, number: u8, size: u8) -> u16
        requires { Accepts self.old.tally t number size volume }
        ensures { Did self.old self.new (to_write t number size) (answered_done result) }
    {
        let Ok(cost) = self.policy.cost(size) else {
            unreachable()
        };
        let _ = self.marks.defer(volume, number);
        let Ok(()) = self.marks.take(volume, number, cost) else {
            unreachable()
        };
        self.tally.wrote(t, number, cost);
        cost
    }

    pub(crate) fn resize(&mut self, volume: u8, records: u8) -> Result<u16, LedgerFault>
        ensures { Did self.old self.new (to_resize volume records) (done_of result) }
    {
        let Resized { old, units } = self.tally.resize(volume, records)?;
        defer_from(&mut self.marks, volume, records, old);
        Ok(units)
    }

    pub(crate) fn turn(&mut self) -> Result<u16, LedgerFault>
        ensures { Did self.old self.new to_turn (done_of result) }
    {
        let units = self.tally.turn()?;
        let _ = self.marks.give_back();
        Ok(units)
    }
}
