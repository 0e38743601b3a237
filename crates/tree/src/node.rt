// What is kept of each dataset, and how a change is put into the charges that are kept.
ghost use Rattle.std.specs.Prelude.{◌≡◌, ℕ, ◌^◌, ◌<◌, length, slice_index};
ghost use Rattle.charges.specs.Keep.{spread};
ghost use Rattle.charges.specs.Tree.{Rooted, path};
ghost use Rattle.tree.specs.Nodes.{Settled, charges_in, rows_in};

use super::step::Arrival;
use charges::Row;
use rules::state::Kind;

/// A dataset's row, the charge that is kept beside it, and its kind.
#[derive(Clone, Copy, PartialEq, Eq, Debug, Default)]
pub(crate) struct Node {
    pub(crate) row: Row,
    pub(crate) charge: u16,
    pub(crate) kind: Kind,
}

// Puts a change into the charges that are kept, from the dataset where it arrives up to the root.
pub(crate) fn settle(nodes: &mut [Node], first: Arrival)
    requires rooted { Rooted (rows_in nodes.old) }
    requires inside { first.dataset < length nodes.old }
    requires fits { (k : ℕ) → slice_index (spread (rows_in nodes.old) (path (rows_in nodes.old) first.dataset) first.change (charges_in nodes.old)) k < 2 ^ 16 }
    ensures { Settled nodes.old nodes.new first }
{
    let mut arrival = first;
    'up: loop {
        let at = usize::from(arrival.dataset);
        let node = nodes[at];
        nodes[at].charge = arrival.charge(node) as u16;
        match arrival.onward(node) {
            Some(next) => arrival = next,
            None => return,
        }
    }
}
