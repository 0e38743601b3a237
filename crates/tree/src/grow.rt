// Making a tree, and new datasets in it.
ghost use Rattle.std.specs.Prelude.{◌≡◌, ◌<◌, [], ◌∷◌, ◌++◌, length, Ok};
ghost use Rattle.rules.specs.declared.state.Kind.TheVariants.{Folder as folder_kind, Volume as volume_kind};
ghost use Rattle.tree.specs.Parts.{After, Becomes, Fresh, kinds_of, rows_of};
ghost use Rattle.tree.specs.Answers.{child, folder_answer, if_records, if_room, volume_answer};

use super::Tree;
use super::fault::TreeFault;
use super::node::Node;
use arrayvec::ArrayVec;
use charges::Row;
use rules::state::Kind;

/// Refuses a number of records that is not 1 to 64.
pub fn check_records(records: u8) -> Result<(), TreeFault>
    ensures { result ≡ if_records records (Ok tt) }
{
    if !(1..=64).contains(&records) {
        return Err(TreeFault::RecordCount { records });
    }
    Ok(())
}

impl Tree {
    /// The root alone, which may be charged `room` units.
    pub fn make(room: u16) -> Tree
        ensures { Fresh room result }
    {
        let mut nodes = ArrayVec::new();
        nodes.push(Node::default());
        Tree { room, nodes }
    }

    /// A new folder in `parent`; its number.
    pub fn add_folder(&mut self, parent: u8) -> Result<u8, TreeFault>
        ensures answer { result ≡ folder_answer (rows_of self.old) (kinds_of self.old) parent }
        ensures after { After self.old self.new (rows_of self.old ++ child parent ∷ []) (kinds_of self.old ++ folder_kind ∷ []) result }
    {
        self.folder(parent)?;
        self.vacancy()?;
        Ok(self.push(parent, Kind::Folder))
    }

    /// A new volume in `parent`, with so many records; its number.
    pub fn add_volume(&mut self, parent: u8, records: u8) -> Result<u8, TreeFault>
        ensures answer { result ≡ volume_answer (rows_of self.old) (kinds_of self.old) parent records }
        ensures after { After self.old self.new (rows_of self.old ++ child parent ∷ []) (kinds_of self.old ++ volume_kind ∷ []) result }
    {
        self.folder(parent)?;
        self.vacancy()?;
        check_records(records)?;
        Ok(self.push(parent, Kind::Volume))
    }

    // There is room for one more.
    fn vacancy(&self) -> Result<(), TreeFault>
        ensures { result ≡ if_room (rows_of self.now) (Ok tt) }
    {
        if self.nodes.is_full() {
            return Err(TreeFault::Full);
        }
        Ok(())
    }

    fn push(&mut self, parent: u8, kind: Kind) -> u8
        requires inside { parent < length (rows_of self.old) }
        requires vacant { length (rows_of self.old) < 64 }
        ensures number { result ≡ length (rows_of self.old) }
        ensures became { Becomes self.old self.new (rows_of self.old ++ child parent ∷ []) (kinds_of self.old ++ kind ∷ []) }
    {
        let number = self.nodes.len() as u8;
        let row = Row {
            parent,
            ..Row::default()
        };
        self.nodes.push(Node {
            row,
            charge: 0,
            kind,
        });
        number
    }
}
