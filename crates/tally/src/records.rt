// The book's part of the orders on records, which move units.
ghost use Rattle.std.specs.Prelude.{◌≡◌, ◌+◌, ◌^◌, ◌<◌, ◌≤◌, length, drop, sum, slice_index};
ghost use Rattle.orders.specs.Meaning.{free as to_free, resize as to_resize};
ghost use Rattle.rules.specs.Effects.{emptied, resized as resized_contents, with_units};
ghost use Rattle.rules.specs.Invariant.{ShapedContents};
ghost use Rattle.tally.specs.Parts.{Checked, Did, HadRecords, OnVolume, Writable, Wrote, freed_of, resized_of};
ghost use Rattle.tally.specs.Steps.{record_or};

use super::Tally;
use super::fault::LedgerFault;
use super::figures::total;
use super::step::{Asked, volume_of};
use rules::state::Contents;
use std::mem;
use tree::{Tree, check_records};

// The sectors of a record.
pub(crate) const LARGEST: u8 = 16;

/// A record that was emptied.
#[derive(Clone, Copy, Debug, PartialEq, Eq)]
pub struct Freed {
    pub volume: u8,
    /// The record's units, which are deferred.
    pub units: u16,
}

/// A volume whose number of records was set.
#[derive(Clone, Copy, Debug, PartialEq, Eq)]
pub struct Resized {
    /// How many records there were.
    pub old: u8,
    /// The units of those past the new end, which are deferred.
    pub units: u16,
}

// Empties a record; its units, which are deferred.
fn empty_record(contents: &mut Contents, number: u8) -> u16
    requires inside { number < length contents.old.units }
    requires fits { contents.old.deferred + slice_index contents.old.units number < 2 ^ 16 }
    ensures units { result ≡ slice_index contents.old.units number }
    ensures after { contents.new ≡ emptied contents.old number }
{
    let units = mem::take(&mut contents.units[usize::from(number)]);
    contents.deferred += units;
    units
}

// The record's units are deferred, and it has so many others.
fn write_record(contents: &mut Contents, number: u8, cost: u16)
    requires inside { number < length contents.old.units }
    requires fits { contents.old.deferred + slice_index contents.old.units number < 2 ^ 16 }
    ensures { contents.new ≡ with_units (emptied contents.old number) number cost }
{
    empty_record(contents, number);
    contents.units[usize::from(number)] = cost;
}

// So many records, those past the new end emptied; their units, which are deferred.
fn cut(contents: &mut Contents, records: u8) -> u16
    requires shaped { ShapedContents contents.old }
    requires few { records ≤ 64 }
    requires fits { sum contents.old.units + contents.old.deferred < 2 ^ 16 }
    ensures units { result ≡ sum (drop records contents.old.units) }
    ensures after { contents.new ≡ resized_contents contents.old records }
{
    let end = contents.records.max(records);
    let past_end = &mut contents.units[usize::from(records)..usize::from(end)];
    let units = total(past_end);
    past_end.fill(0);
    contents.records = records;
    contents.deferred += units;
    units
}

// A transaction and a record's number come as two fields of an order: a struct of both would be made at each call only to be read here.
impl Tally {
    // There is such a record.
    fn check_record(&self, t: u8, volume: u8, number: u8) -> Result<(), LedgerFault>
        requires { volume < 64 }
        ensures { result ≡ record_or self.now.contents t volume number }
    {
        let records = self.contents[usize::from(volume)].records;
        if number >= records {
            return Err(LedgerFault::NoSuchRecord {
                transaction: t,
                number,
                records,
            });
        }
        Ok(())
    }

    /// Empties a record and defers its units.
    pub fn free(&mut self, t: u8, number: u8) -> Result<Freed, LedgerFault>
        ensures did { Did self.old self.new (to_free t number) (freed_of result) }
        ensures volume { OnVolume self.old t result }
    {
        let change = self.change(t, Asked::Free)?;
        let volume = volume_of(change.after);
        self.check_record(t, volume, number)?;
        let units = empty_record(&mut self.contents[usize::from(volume)], number);
        self.transactions[usize::from(t)] = change.after;
        Ok(Freed { volume, units })
    }

    /// Sets the number of a volume's records and empties those past the new end.
    pub fn resize(&mut self, volume: u8, records: u8) -> Result<Resized, LedgerFault>
        ensures did { Did self.old self.new (to_resize volume records) (resized_of result) }
        ensures old { HadRecords self.old volume result }
    {
        self.tree.volume(volume)?;
        check_records(records)?;
        let contents = &mut self.contents[usize::from(volume)];
        let old = contents.records;
        let units = cut(contents, records);
        Ok(Resized { old, units })
    }

    /// Whether a transaction may write a record of so many sectors; its volume.
    pub fn to_write(&self, t: u8, number: u8, size: u8) -> Result<u8, LedgerFault>
        ensures { Checked self.now t number size result }
    {
        let change = self.change(t, Asked::Write)?;
        let volume = volume_of(change.after);
        self.check_record(t, volume, number)?;
        if size > LARGEST {
            return Err(LedgerFault::SizeTooLarge {
                transaction: t,
                size,
            });
        }
        Ok(volume)
    }

    /// A write that was checked: it has cost so much, and what the record had is deferred.
    pub fn wrote(&mut self, t: u8, number: u8, cost: u16)
        requires ready { Writable self.old t number }
        requires cheap { cost ≤ self.old.worst }
        ensures { Wrote self.old self.new t number cost }
    {
        let Ok(change) = self.change(t, Asked::Write) else {
            unreachable()
        };
        let volume = volume_of(change.after);
        let unspent = self.worst - cost;
        let Ok(()) = self.tree.lower(volume, unspent) else {
            unreachable()
        };
        write_record(&mut self.contents[usize::from(volume)], number, cost);
        self.transactions[usize::from(t)] = change.after;
    }
}
