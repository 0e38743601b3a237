// The arithmetic of one dataset, over plain numbers.
ghost use Rattle.std.specs.Prelude.{◌≡◌};
ghost use Rattle.charges.specs.Amounts.{changed as with_change, excess as excess_of, limit_of, passed as passed_on, reweighed as reweighed_by, room_of, unspent_of, weight_of};

/// The units of a pool that may be charged: its size less the slop, the units kept back.
pub fn room(size: u16, slop: u16) -> u16
    ensures { result ≡ room_of size slop }
{
    size.saturating_sub(slop)
}

/// What a dataset adds to its parent's charge: the larger of its charge and its reservation.
pub fn weight(charge: u16, reservation: u16) -> u16
    ensures { result ≡ weight_of charge reservation }
{
    charge.max(reservation)
}

/// The reservation less the charge, and 0 where the charge is larger.
pub fn unspent_reservation(charge: u16, reservation: u16) -> u16
    ensures { result ≡ unspent_of charge reservation }
{
    reservation.saturating_sub(charge)
}

/// The limit of a dataset: the root's is the room, any other's its quota, and a quota of 0 is none.
pub fn limit(room: u16, dataset: u8, quota: u16) -> Option<u16>
    ensures { result ≡ limit_of room dataset quota }
{
    if dataset == 0 {
        return Some(room);
    }
    (quota != 0).then_some(quota)
}

/// By how much a charge passes a limit, 0 where it does not.
pub fn excess(limit: Option<u16>, charge: u32) -> u32
    ensures { result ≡ excess_of limit charge }
{
    limit.map_or(0, |units| charge.saturating_sub(u32::from(units)))
}

/// The change of the parent's charge when a dataset's charge changes, a rise and a fall by one rule.
pub fn passed(charge: u16, reservation: u16, change: i32) -> i32
    ensures { result ≡ passed_on charge reservation change }
{
    let after = changed(charge, change).max(u32::from(reservation));
    let before = weight(charge, reservation);
    (i64::from(after) - i64::from(before)) as i32
}

/// The change of the parent's charge when a dataset's reservation goes from `old` to `new`.
pub fn reweighed(charge: u16, old: u16, new: u16) -> i32
    ensures { result ≡ reweighed_by charge old new }
{
    i32::from(weight(charge, new)) - i32::from(weight(charge, old))
}

/// A charge with its change, and 0 where that would be less.
pub fn changed(charge: u16, change: i32) -> u32
    ensures { result ≡ with_change charge change }
{
    u32::from(charge).saturating_add_signed(change)
}
