// Quotas, reservations and own units set anew.
ghost use Rattle.std.specs.Prelude.{◌≡◌, ◌-◌, ◌<◌, ◌≤◌, ◌≢◌, length, pos, ◌-ℤ◌, None, Ok};
ghost use Rattle.charges.specs.Walk.{walk as walk_in};
ghost use Rattle.charges.specs.Tree.{WithinLimits, charge as charge_in, raised, row as row_in, with_own, with_quota, with_reservation};
ghost use Rattle.tree.specs.Parts.{After, Becomes, kinds_of, room_of, rows_of};
ghost use Rattle.tree.specs.Answers.{as_dataset, if_quota, if_reservation, quota_answer, raise_answer, reservation_answer, reservation_walk};

use super::Tree;
use super::fault::TreeFault;
use super::node::settle;
use super::step::Arrival;
use charges::numbers::weight;

// A quota that is not 0 is below neither the charge nor the reservation.
fn check_quota(d: u8, units: u16, charge: u16, reservation: u16) -> Result<(), TreeFault>
    ensures { result ≡ if_quota d units charge reservation (Ok tt) }
{
    let least = weight(charge, reservation);
    if units != 0 && units < least {
        return Err(TreeFault::QuotaTooSmall {
            dataset: d,
            short: least - units,
        });
    }
    Ok(())
}

// A reservation does not pass a quota that is not 0.
fn check_reservation(d: u8, units: u16, quota: u16) -> Result<(), TreeFault>
    ensures { result ≡ if_reservation d units quota (Ok tt) }
{
    if quota != 0 && quota < units {
        return Err(TreeFault::ReservationTooLarge {
            dataset: d,
            excess: units - quota,
        });
    }
    Ok(())
}

// The change from `old` units to `new`.
fn moved(old: u16, new: u16) -> i32
    ensures { result ≡ pos new -ℤ pos old }
{
    i32::from(new) - i32::from(old)
}

impl Tree {
    /// Sets the quota of a dataset, 0 for none; its charge.
    pub fn set_quota(&mut self, d: u8, units: u16) -> Result<u16, TreeFault>
        ensures answer { result ≡ quota_answer (rows_of self.old) d units }
        ensures after { After self.old self.new (with_quota (rows_of self.old) d units) (kinds_of self.old) result }
    {
        let node = self.below_root(d)?;
        check_quota(d, units, node.charge, node.row.reservation)?;
        self.put_quota(d, units);
        Ok(node.charge)
    }

    /// Sets the reservation of a dataset, if all above it stay within their limits; its new weight.
    pub fn set_reservation(&mut self, d: u8, units: u16) -> Result<u16, TreeFault>
        ensures answer { result ≡ reservation_answer (room_of self.old) (rows_of self.old) d units }
        ensures after { After self.old self.new (with_reservation (rows_of self.old) d units) (kinds_of self.old) result }
    {
        let node = self.below_root(d)?;
        check_reservation(d, units, node.row.quota)?;
        self.judge_reservation(d, units)?;
        self.put_reservation(d, units);
        Ok(weight(node.charge, units))
    }

    /// More own units for a dataset, if all from it to the root stay within their limits.
    pub fn raise(&mut self, d: u8, units: u16) -> Result<(), TreeFault>
        ensures answer { result ≡ raise_answer (room_of self.old) (rows_of self.old) d units }
        ensures after { After self.old self.new (raised (rows_of self.old) d units) (kinds_of self.old) result }
    {
        self.dataset(d)?;
        self.judge_rise(d, units)?;
        self.put_rise(d, units);
        Ok(())
    }

    /// Fewer own units for a dataset, none below 0.
    pub fn lower(&mut self, d: u8, units: u16) -> Result<(), TreeFault>
        ensures answer { result ≡ as_dataset (rows_of self.old) d }
        ensures after { After self.old self.new (with_own (rows_of self.old) d ((row_in (rows_of self.old) d).own - units)) (kinds_of self.old) result }
    {
        let node = self.find(d)?;
        let own = node.row.own.saturating_sub(units);
        self.put_own(d, own);
        Ok(())
    }

    // A quota that is 0, or enough for the charge and the reservation. That a dataset is below the root is a fact of the order's checks, said where
    // it is used: a type for it would be no plainer, since it would borrow the tree, which each write ends.
    fn put_quota(&mut self, d: u8, units: u16)
        requires inside { d < length (rows_of self.old) }
        requires below { 0 < d }
        requires enough { units ≢ 0 → (charge_in (rows_of self.old) d ≤ units) × ((row_in (rows_of self.old) d).reservation ≤ units) }
        ensures { Becomes self.old self.new (with_quota (rows_of self.old) d units) (kinds_of self.old) }
    {
        self.nodes[usize::from(d)].row.quota = units;
    }

    // The parent's charge changes by the change of the weight.
    fn put_reservation(&mut self, d: u8, units: u16)
        requires inside { d < length (rows_of self.old) }
        requires below { 0 < d }
        requires allowed { (row_in (rows_of self.old) d).quota ≢ 0 → units ≤ (row_in (rows_of self.old) d).quota }
        requires granted { reservation_walk (room_of self.old) (rows_of self.old) d units ≡ None }
        ensures { Becomes self.old self.new (with_reservation (rows_of self.old) d units) (kinds_of self.old) }
    {
        let arrival = self.reweighing(d, units);
        let nodes = self.nodes.as_mut_slice();
        settle(nodes, arrival);
        nodes[usize::from(d)].row.reservation = units;
    }

    // More own units, which the walk grants.
    fn put_rise(&mut self, d: u8, units: u16)
        requires inside { d < length (rows_of self.old) }
        requires granted { walk_in (room_of self.old) (rows_of self.old) d (pos units) ≡ None }
        ensures { Becomes self.old self.new (raised (rows_of self.old) d units) (kinds_of self.old) }
    {
        let own = self.node(d).row.own + units;
        self.put_own(d, own);
    }

    // Other own units, with which all charges are within their limits.
    fn put_own(&mut self, d: u8, own: u16)
        requires inside { d < length (rows_of self.old) }
        requires within { WithinLimits (room_of self.old) (with_own (rows_of self.old) d own) }
        ensures { Becomes self.old self.new (with_own (rows_of self.old) d own) (kinds_of self.old) }
    {
        let arrival = Arrival {
            dataset: d,
            change: moved(self.node(d).row.own, own),
        };
        let nodes = self.nodes.as_mut_slice();
        settle(nodes, arrival);
        nodes[usize::from(d)].row.own = own;
    }
}
