// The table of holders, with the units of one holder linked one to the next.
ghost use Rattle.std.specs.Prelude.{◌≡◌, ◌<◌, ◌≤◌, map, replicate, take, slice_index_or, slice_set};
ghost use Rattle.rules.specs.Holders.{count, defer as defer_of};
ghost use Rattle.rules.specs.declared.state.Holder.TheVariants.{Nobody, Record};
ghost use Rattle.marks.specs.Linked.{Linked};
ghost use Rattle.marks.specs.Once.{linked_once};
ghost use Rattle.marks.specs.Units.{holders_in, nexts_in};

use super::place::Place;
use super::unit::Unit;
use rules::state::Holder;

/// As many entries as a pool can have units, and as there are records: 64 of 64 volumes.
const ENTRIES: usize = 4096;

/// Units below the size. From a record's head, and from the head of the deferred units, each unit's `next` goes on
/// through the units of that holder.
#[derive(Drop)]
pub struct Table {
    // Also the end of a list, as in a chain's lent entries: one definition, `Threads`, says what both lists are. An
    // `Option<u16>` for each head and each `next` would need a second, and 48 KiB for the table in place of 32.
    size: u16,
    units: [Unit; ENTRIES],
    // the head of each record's units, at its place's index
    first: [u16; ENTRIES],
    // the head of the deferred units
    deferred: u16,
    ghost small: { size ≤ 4096 },
    ghost linked: { Linked size (take size (holders_in units)) (nexts_in units) first deferred } by { linked_once size (take size (holders_in units)) (nexts_in units) first deferred },
}

impl Table {
    ghost use Rattle.marks.specs.Tabled.{rows_of, Shifted, Released};

    /// A table of units that nobody has.
    pub fn make(size: u16) -> Self
        requires { size ≤ 4096 }
        ensures sized { result.size ≡ size }
        ensures rows { rows_of result ≡ replicate size Nobody }
    {
        Table {
            size,
            // Nobody has a unit yet, so no list goes through it: `next` says nothing. All zero bytes, it is filled in place.
            units: [Unit {
                holder: Holder::Nobody,
                next: 0,
            }; ENTRIES],
            first: [size; ENTRIES],
            deferred: size,
        }
    }

    /// How many units there are.
    pub fn size(&self) -> u16
        ensures { result ≡ self.now.size }
    {
        self.size
    }

    /// Who has the unit; nobody has one past the size.
    pub fn holder(&self, unit: u16) -> Holder
        ensures { result ≡ slice_index_or (rows_of self.now) unit Nobody }
    {
        if unit < self.size {
            self.units[usize::from(unit)].holder
        } else {
            Holder::Nobody
        }
    }

    /// Gives a unit that nobody has to a record.
    pub fn mark(&mut self, unit: u16, place: Place)
        requires { (unit < self.old.size) × (slice_index_or (rows_of self.old) unit Nobody ≡ Nobody) }
        ensures rows { rows_of self.new ≡ slice_set (rows_of self.old) unit (Record place.volume place.number) }
        ensures sized { self.new.size ≡ self.old.size }
    {
        let i = place.index();
        let Place { volume, number, .. } = place;
        self.units[usize::from(unit)] = Unit {
            holder: Holder::Record { volume, number },
            next: self.first[i],
        };
        self.first[i] = unit;
    }

    // takes the unit at the head of a record's list to the head of the deferred
    fn shift(&mut self, place: Place) -> Option<u16>
        ensures shifted { Shifted place.volume place.number self.old self.new result }
        ensures sized { self.new.size ≡ self.old.size }
    {
        let i = place.index();
        let unit = self.first[i];
        if unit == self.size {
            return None;
        }
        let at = usize::from(unit);
        self.first[i] = self.units[at].next;
        self.units[at] = Unit {
            holder: Holder::Deferred {
                volume: place.volume,
            },
            next: self.deferred,
        };
        self.deferred = unit;
        Some(unit)
    }

    /// The units of a record become deferred ones of its volume. Answers how many.
    pub fn defer(&mut self, place: Place) -> u16
        ensures rows { rows_of self.new ≡ map (defer_of place.volume place.number) (rows_of self.old) }
        ensures many { result ≡ count (Record place.volume place.number) (rows_of self.old) }
        ensures sized { self.new.size ≡ self.old.size }
    {
        // Counted by hand: `count` asks for a finite iterator, and `from_fn` says that of no closure.
        let mut moved = 0;
        while let Some(_) = self.shift(place) {
            moved += 1;
        }
        moved
    }

    /// Takes one of the deferred units, so that nobody has it.
    pub fn release(&mut self) -> Option<u16>
        ensures released { Released self.old self.new result }
        ensures sized { self.new.size ≡ self.old.size }
    {
        let unit = self.deferred;
        if unit == self.size {
            return None;
        }
        let at = usize::from(unit);
        self.deferred = self.units[at].next;
        self.units[at].holder = Holder::Nobody;
        Some(unit)
    }
}
