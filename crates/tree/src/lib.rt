// The datasets of a pool in a list of fixed room, with the charge of each kept beside its row.
#![tactic(auto)]

ghost use Rattle.std.specs.Prelude.{length};
ghost use Rattle.charges.specs.Tree.{Rooted, WithinLimits};
ghost use Rattle.tree.specs.Fields.{FreeRoot, InQuotas, Kept, Sized};
ghost use Rattle.tree.specs.Nodes.{charges_in, kinds_in, rows_in};

use arrayvec::ArrayVec;
pub use grow::check_records;
use node::Node;

mod edit;
pub mod fault;
mod grow;
mod lookup;
mod node;
mod step;
#[cfg(test)]
mod tests;

/// The tree of datasets. A dataset's number is the place of its row; dataset 0 is the root, and at most 64 can be made.
#[derive(Drop)]
pub struct Tree {
    // the most units that the root may be charged
    room: u16,
    // A parent is named by its number, with no heap: orders name datasets so.
    nodes: ArrayVec<Node, 64>,
    ghost sized: { Sized room (length nodes.items) },
    ghost rooted: { Rooted (rows_in nodes.items) },
    ghost kept: { Kept (rows_in nodes.items) (charges_in nodes.items) },
    ghost within: { WithinLimits room (rows_in nodes.items) },
    ghost reserved: { InQuotas (rows_in nodes.items) },
    ghost root: { FreeRoot (rows_in nodes.items) (kinds_in nodes.items) },
}
