// Who has each unit, over any allocator: units are taken for a record, deferred, and given back.
ghost use Rattle.std.specs.Prelude.{◌≡◌, ◌+◌, ◌<◌, false, map, length, replicate, Ok, count_by, slice_index_or, slice_set};
ghost use Rattle.marks.specs.Held.{Held};
ghost use Rattle.marks.specs.Tabled.{rows_of};
ghost use Rattle.pool.specs.Units.{outs, Took};
ghost use Rattle.rules.specs.declared.state.Holder.TheVariants.{Nobody, Record};
ghost use Rattle.rules.specs.Holders.{count, is_deferred, defer as defer_of, release as release_of};

use super::fault::MarksFault;
use super::place::Place;
use super::table::Table;
use pool::allocator::Allocator;
use rules::state::Holder;

/// The holder of each unit of a pool.
#[derive(Drop)]
pub struct Marks<A: Allocator> {
    pool: A,
    // how many units are out
    out: u16,
    table: Table,
    ghost sized: { length (A.Allocator.units pool) ≡ table.size },
    // a unit is out exactly where it has a holder
    ghost held: { Held (A.Allocator.units pool) (rows_of table) },
    ghost counted: { out ≡ outs (A.Allocator.units pool) },
}

impl<A: Allocator> Marks<A> {
    ghost use Rattle.marks.specs.Sound.{pool_of, holders_of, size_of, Sound, returned, take_answer, TakeEffect, GaveOne};

    /// The marks of a pool that has every unit in: nobody has a unit.
    pub fn make(pool: A) -> Self
        requires { A.Allocator.units pool ≡ replicate (length (A.Allocator.units pool)) false }
        ensures holders { holders_of result ≡ replicate (length (A.Allocator.units pool)) Nobody }
        ensures kept { pool_of result ≡ pool }
    {
        let size = pool.size();
        Marks {
            pool,
            out: 0,
            table: Table::make(size),
        }
    }

    /// A unit is out exactly where it has a holder.
    pub fn sound(&self)
        ensures { Sound A.Allocator.units self.now }
    {}

    /// How many units there are.
    pub fn size(&self) -> u16
        ensures { result ≡ size_of self.now }
    {
        self.table.size()
    }

    /// Gives the pool back.
    pub fn close(self) -> A
        ensures { result ≡ pool_of self }
    {
        let Marks { pool, .. } = self;
        pool
    }

    /// Who has the unit; nobody has one past the size.
    pub fn holder(&self, unit: u16) -> Holder
        ensures { result ≡ slice_index_or (holders_of self.now) unit Nobody }
    {
        self.table.holder(unit)
    }

    // takes a unit for a record, where one is in
    fn take_one(&mut self, place: Place) -> u16
        requires { outs (A.Allocator.units (pool_of self.old)) < length (A.Allocator.units (pool_of self.old)) }
        ensures took { Took (A.Allocator.units (pool_of self.old)) (A.Allocator.units (pool_of self.new)) (Ok result) }
        ensures marked { holders_of self.new ≡ slice_set (holders_of self.old) result (Record place.volume place.number) }
        ensures sized { size_of self.new ≡ size_of self.old }
        ensures lent { A.Allocator.lent (pool_of self.new) ≡ A.Allocator.lent (pool_of self.old) }
    {
        let Ok(unit) = self.pool.take() else {
            unreachable()
        };
        self.table.mark(unit, place);
        self.out += 1;
        unit
    }

    /// Takes so many units for a record. Refuses where fewer are in, or there is no such record; then nothing changes.
    pub fn take(&mut self, volume: u8, number: u8, units: u16) -> Result<(), MarksFault>
        ensures answered { result ≡ take_answer volume number units (A.Allocator.units (pool_of self.old)) }
        ensures took { TakeEffect A.Allocator.units volume number units self.old self.new result }
        ensures sized { size_of self.new ≡ size_of self.old }
        ensures lent { A.Allocator.lent (pool_of self.new) ≡ A.Allocator.lent (pool_of self.old) }
    {
        let Some(place) = Place::find(volume, number) else {
            return Err(MarksFault::NoSuchRecord { volume, number });
        };
        if units > self.size() - self.out {
            return Err(MarksFault::AllOut);
        }
        for _ in 0..units {
            let _ = self.take_one(place);
        }
        Ok(())
    }

    /// The units of a record become deferred ones of its volume. Answers how many.
    pub fn defer(&mut self, volume: u8, number: u8) -> u16
        ensures holders { holders_of self.new ≡ map (defer_of volume number) (holders_of self.old) }
        ensures kept { pool_of self.new ≡ pool_of self.old }
        ensures many { result ≡ count (Record volume number) (holders_of self.old) }
        ensures sized { size_of self.new ≡ size_of self.old }
    {
        let Some(place) = Place::find(volume, number) else {
            return 0;
        };
        self.table.defer(place)
    }

    // gives one of the deferred units back
    fn give_one(&mut self) -> Option<u16>
        ensures gave { GaveOne A.Allocator.units self.old self.new result }
        ensures sized { size_of self.new ≡ size_of self.old }
        ensures lent { A.Allocator.lent (pool_of self.new) ≡ A.Allocator.lent (pool_of self.old) }
    {
        let unit = self.table.release()?;
        let Ok(()) = self.pool.give(unit) else {
            unreachable()
        };
        self.out -= 1;
        Some(unit)
    }

    /// All deferred units go back to the allocator. Answers how many.
    pub fn give_back(&mut self) -> u16
        ensures holders { holders_of self.new ≡ map release_of (holders_of self.old) }
        ensures units { A.Allocator.units (pool_of self.new) ≡ returned (A.Allocator.units (pool_of self.old)) (holders_of self.old) }
        ensures many { result ≡ count_by is_deferred (holders_of self.old) }
        ensures fewer { outs (A.Allocator.units (pool_of self.new)) + result ≡ outs (A.Allocator.units (pool_of self.old)) }
        ensures sized { size_of self.new ≡ size_of self.old }
        ensures lent { A.Allocator.lent (pool_of self.new) ≡ A.Allocator.lent (pool_of self.old) }
    {
        // Counted by hand: `count` asks for a finite iterator, and `from_fn` says that of no closure.
        let mut given = 0;
        while let Some(_) = self.give_one() {
            given += 1;
        }
        given
    }
}
