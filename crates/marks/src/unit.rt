// What a table says of each unit.
use rules::state::Holder;

/// Who has a unit, and the unit that is next in the list of its holder.
#[derive(Clone, Copy)]
pub struct Unit {
    pub holder: Holder,
    pub next: u16,
}
