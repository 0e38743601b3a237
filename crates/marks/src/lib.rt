// Who has each unit of a pool: nobody, a record of a volume, or the volume that deferred it.
#![tactic(auto)]

pub mod fault;
pub mod marks;
mod place;
mod table;
mod unit;
