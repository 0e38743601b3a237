// One step of a change on its way up the tree.
ghost use Rattle.std.specs.Prelude.{◌≡◌};
ghost use Rattle.charges.specs.Amounts.{changed as changed_to};
ghost use Rattle.tree.specs.Steps.{onward_from, short_of};

use super::node::Node;
use charges::numbers::{changed, excess, limit, passed};

// A change on its way up: the dataset where it arrives, and by how much the charge there changes.
#[derive(Clone, Copy)]
pub(crate) struct Arrival {
    pub(crate) dataset: u8,
    pub(crate) change: i32,
}

impl Arrival {
    // The dataset's charge with the change.
    pub(crate) fn charge(self, node: Node) -> u32
        ensures { result ≡ changed_to node.charge self.change }
    {
        changed(node.charge, self.change)
    }

    // By how much the charge with the change passes the dataset's limit, 0 where it does not.
    pub(crate) fn shortfall(self, room: u16, node: Node) -> u32
        ensures { result ≡ short_of room self node }
    {
        let limit = limit(room, self.dataset, node.row.quota);
        excess(limit, self.charge(node))
    }

    // Where the change goes on to: the dataset above, and the change of its charge; nowhere from the root.
    pub(crate) fn onward(self, node: Node) -> Option<Arrival>
        ensures { result ≡ onward_from self node }
    {
        if self.dataset == 0 {
            return None;
        }
        Some(Arrival {
            dataset: node.row.parent,
            change: passed(node.charge, node.row.reservation, self.change),
        })
    }
}
