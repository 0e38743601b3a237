// What can be asked of a tree.
ghost use Rattle.std.specs.Prelude.{◌≡◌, ℕ, ◌^◌, ◌<◌, length, pos, Some, Ok, nat_lt};
ghost use Rattle.charges.specs.Tree.{charge as charge_in, row as row_in};
ghost use Rattle.charges.specs.Walk.{walk as walk_in};
ghost use Rattle.tree.specs.Parts.{Sound, kinds_of, room_of, rows_of};
ghost use Rattle.tree.specs.Answers.{as_child, as_dataset, as_folder, as_node, as_volume, charge_answer, if_exists, if_granted, if_kind, kind_in, reservation_arrival, reservation_walk, walk_answer};

use super::Tree;
use super::fault::TreeFault;
use super::node::Node;
use super::step::Arrival;
use charges::numbers::reweighed;
use rules::state::Kind;

impl Tree {
    /// What holds of every tree: each charge that is kept is the one computed from nothing, and none passes its limit. Nothing is done.
    pub fn sound(&self)
        ensures { Sound self.now }
    {}

    /// Whether there is such a dataset.
    pub fn dataset(&self, d: u8) -> Result<(), TreeFault>
        ensures { result ≡ as_dataset (rows_of self.now) d }
    {
        self.find(d)?;
        Ok(())
    }

    /// Whether there is such a dataset, and it is a volume.
    pub fn volume(&self, d: u8) -> Result<(), TreeFault>
        ensures { result ≡ as_volume (rows_of self.now) (kinds_of self.now) d }
    {
        self.of_kind(d, Kind::Volume)
    }

    /// The charge of a dataset: its own units and the weights of its children.
    pub fn charge(&self, d: u8) -> Result<u16, TreeFault>
        ensures { result ≡ charge_answer (rows_of self.now) d }
    {
        Ok(self.find(d)?.charge)
    }

    /// The first dataset on the way from `d` to the root whose charge would pass its limit if the charge of `d` changed by `change`, and by how
    /// much. A rise and a fall go up by one rule. Nothing is changed.
    // A pair: a struct would be no plainer, since the theorems' walk gives this pair, and would be told apart from it at each use.
    pub fn walk(&self, d: u8, change: i32) -> Option<(u8, u32)>
        ensures { result ≡ walk_answer (room_of self.now) (rows_of self.now) d change }
    {
        if !self.has(d) {
            return None;
        }
        self.climb(Arrival { dataset: d, change })
    }

    // The same of a dataset that exists. That a number is in the tree is a fact of both: a type for it would borrow the tree, which each write ends.
    fn climb(&self, first: Arrival) -> Option<(u8, u32)>
        requires { first.dataset < length (rows_of self.now) }
        ensures { result ≡ walk_in (room_of self.now) (rows_of self.now) first.dataset first.change }
    {
        let mut arrival = first;
        // A loop: `successors(..).find_map(..)` is no plainer, since its closures would have to show that each dataset on the way is in the tree.
        'up: loop {
            let node = self.node(arrival.dataset);
            let short = arrival.shortfall(self.room, node);
            if short > 0 {
                return Some((arrival.dataset, short));
            }
            match arrival.onward(node) {
                Some(next) => arrival = next,
                None => return None,
            }
        }
    }

    // What a walk for more own units says.
    pub(crate) fn judge_rise(&self, d: u8, units: u16) -> Result<(), TreeFault>
        requires { d < length (rows_of self.now) }
        ensures { result ≡ if_granted (walk_in (room_of self.now) (rows_of self.now) d (pos units)) (Ok tt) }
    {
        self.judge(Arrival {
            dataset: d,
            change: i32::from(units),
        })
    }

    // What a walk from the parent says for another reservation, by the change of the weight.
    pub(crate) fn judge_reservation(&self, d: u8, units: u16) -> Result<(), TreeFault>
        requires inside { d < length (rows_of self.now) }
        requires below { 0 < d }
        ensures { result ≡ if_granted (reservation_walk (room_of self.now) (rows_of self.now) d units) (Ok tt) }
    {
        self.judge(self.reweighing(d, units))
    }

    // What another reservation does to the parent: the change of the weight.
    pub(crate) fn reweighing(&self, d: u8, units: u16) -> Arrival
        requires { d < length (rows_of self.now) }
        ensures { result ≡ reservation_arrival (rows_of self.now) d units }
    {
        let node = self.node(d);
        Arrival {
            dataset: node.row.parent,
            change: reweighed(node.charge, node.row.reservation, units),
        }
    }

    // The walk from a dataset that exists, whose shortfall has two bytes.
    fn judge(&self, first: Arrival) -> Result<(), TreeFault>
        requires inside { first.dataset < length (rows_of self.now) }
        requires fits { (e s : ℕ) → walk_in (room_of self.now) (rows_of self.now) first.dataset first.change ≡ Some (e, s) → s < 2 ^ 16 }
        ensures { result ≡ if_granted (walk_in (room_of self.now) (rows_of self.now) first.dataset first.change) (Ok tt) }
    {
        match self.climb(first) {
            Some((dataset, shortfall)) => Err(TreeFault::from((dataset, shortfall as u16))),
            None => Ok(()),
        }
    }

    pub(crate) fn has(&self, d: u8) -> bool
        ensures { result ≡ nat_lt d (length (rows_of self.now)) }
    {
        usize::from(d) < self.nodes.len()
    }

    // There is such a dataset, and it is a folder.
    pub(crate) fn folder(&self, d: u8) -> Result<(), TreeFault>
        ensures { result ≡ as_folder (rows_of self.now) (kinds_of self.now) d }
    {
        self.of_kind(d, Kind::Folder)
    }

    // There is such a dataset, and it is of the kind that is wanted.
    fn of_kind(&self, d: u8, wanted: Kind) -> Result<(), TreeFault>
        ensures { result ≡ if_exists (rows_of self.now) d (if_kind wanted (kind_in (kinds_of self.now) d) d (Ok tt)) }
    {
        match (wanted, self.find(d)?.kind) {
            (Kind::Folder, Kind::Volume) => Err(TreeFault::NotFolder { dataset: d }),
            (Kind::Volume, Kind::Folder) => Err(TreeFault::NotVolume { dataset: d }),
            _ => Ok(()),
        }
    }

    // What is kept of a dataset, if there is such a dataset and it is not the root.
    pub(crate) fn below_root(&self, d: u8) -> Result<Node, TreeFault>
        ensures { result ≡ as_child (rows_of self.now) (kinds_of self.now) d }
    {
        let node = self.find(d)?;
        if d == 0 {
            return Err(TreeFault::IsRoot { dataset: d });
        }
        Ok(node)
    }

    // What is kept of a dataset, if there is such a dataset.
    pub(crate) fn find(&self, d: u8) -> Result<Node, TreeFault>
        ensures { result ≡ as_node (rows_of self.now) (kinds_of self.now) d }
    {
        self.nodes
            .get(usize::from(d))
            .copied()
            .ok_or(TreeFault::Missing { dataset: d })
    }

    // What is kept of a dataset.
    pub(crate) fn node(&self, d: u8) -> Node
        requires { d < length (rows_of self.now) }
        ensures row { result.row ≡ row_in (rows_of self.now) d }
        ensures charge { result.charge ≡ charge_in (rows_of self.now) d }
        ensures kind { result.kind ≡ kind_in (kinds_of self.now) d }
    {
        self.nodes[usize::from(d)]
    }
}
