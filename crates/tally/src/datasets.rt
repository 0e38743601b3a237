// Orders on datasets.
ghost use Rattle.orders.specs.Meaning.{folder as to_folder, quota as to_quota, reserve as to_reserve, volume as to_volume};
ghost use Rattle.tally.specs.Faults.{answer_of};
ghost use Rattle.tally.specs.Parts.{Did};

use super::Tally;
use super::fault::LedgerFault;
use super::making::empty;

// Each order calls its own of the tree, and that is nearly all: one function for a folder and a volume, or for a quota and a reservation, would have to tell them apart again.
impl Tally {
    /// A new folder in `parent`; its number.
    pub fn folder(&mut self, parent: u8, name: [u8; 8]) -> Result<u16, LedgerFault>
        ensures { Did self.old self.new (to_folder parent name) (answer_of result) }
    {
        let d = self.tree.add_folder(parent)?;
        self.contents[usize::from(d)] = empty(name, 0);
        Ok(u16::from(d))
    }

    /// A new volume in `parent`, with so many empty records; its number.
    pub fn volume(&mut self, parent: u8, records: u8, name: [u8; 8]) -> Result<u16, LedgerFault>
        ensures { Did self.old self.new (to_volume parent records name) (answer_of result) }
    {
        let d = self.tree.add_volume(parent, records)?;
        self.contents[usize::from(d)] = empty(name, records);
        Ok(u16::from(d))
    }

    /// Sets the quota of a dataset, 0 for none; its charge.
    pub fn quota(&mut self, d: u8, units: u16) -> Result<u16, LedgerFault>
        ensures { Did self.old self.new (to_quota d units) (answer_of result) }
    {
        Ok(self.tree.set_quota(d, units)?)
    }

    /// Sets the reservation of a dataset, if all above it stay within their limits; its new weight.
    pub fn reserve(&mut self, d: u8, units: u16) -> Result<u16, LedgerFault>
        ensures { Did self.old self.new (to_reserve d units) (answer_of result) }
    {
        Ok(self.tree.set_reservation(d, units)?)
    }
}
