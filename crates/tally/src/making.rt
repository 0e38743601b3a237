// Making a tally.
ghost use Rattle.std.specs.Prelude.{◌≡◌};
ghost use Rattle.rules.specs.Book.{empty as empty_contents};
ghost use Rattle.tally.specs.Parts.{Fresh};
ghost use Rattle.tally.specs.Sound.{Sized};

use super::Tally;
use charges::numbers::room;
use rules::state::{Contents, Transaction};
use tree::Tree;

// The name of the root.
const ROOT: [u8; 8] = *b"POOL----";

// So many records, all empty.
pub(crate) fn empty(name: [u8; 8], records: u8) -> Contents
    ensures { result ≡ empty_contents name records }
{
    Contents {
        name,
        records,
        units: [0; 64],
        deferred: 0,
    }
}

impl Tally {
    /// The root alone, and every transaction idle.
    pub fn make(size: u16, slop: u16, worst: u16) -> Tally
        requires { Sized size slop worst }
        ensures { Fresh size slop worst result }
    {
        Tally {
            size,
            slop,
            worst,
            tree: Tree::make(room(size, slop)),
            contents: [empty(ROOT, 0); 64],
            transactions: [Transaction::Idle; 32],
        }
    }
}
