// The theory of the dataset tree: rows, what each dataset is charged, limits and walks, with the theorems about them.
#![tactic(auto)]

pub mod numbers;
pub mod theorems;

/// A dataset of the tree. A dataset's number is the place of its row; dataset 0 is the root, and every other stands after its parent.
#[derive(Clone, Copy, PartialEq, Eq, Debug, Default)]
pub struct Row {
    /// The dataset that this one is in; the root's is not used.
    // A plain number: an option would be no plainer, since in the theorems each row has a number for its parent, and the root's place tells it apart.
    pub parent: u8,
    /// The most units that the dataset may be charged, 0 for no limit.
    // A plain number: an option would be no plainer, since the orders and the theorems' rows have 0 for no limit.
    pub quota: u16,
    /// The units kept for the dataset whether it uses them or not.
    pub reservation: u16,
    /// The units that the dataset itself uses, apart from the datasets in it.
    pub own: u16,
}
