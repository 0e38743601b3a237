// An allocator over lent two-byte entries, one a unit, that links the units that are in.
ghost use Rattle.std.specs.Prelude.{◌≡◌, ◌<◌, ◌≤◌, false, length, replicate, slice_index};
ghost use Rattle.pool.specs.Links.{taken, chained, beside_links, Space, Linked, TookHead, GaveHead, taken-sized};
ghost use Rattle.pool.specs.Once.{linked_once};
ghost use Rattle.pool.specs.Units.{Took, Gave, Checked, Kept};

use super::allocator::{Allocator, AllocatorFault, MOST_UNITS};

// the entry of a unit that is out: the lent memory's format has it so
const OUT: u16 = u16::MAX;

// links the first `size` entries one to the next
fn link(links: &mut [u16], size: u16)
    requires { size ≤ length links.old }
    ensures { links.new ≡ chained links.old size }
{
    for (i, entry) in links[..usize::from(size)].iter_mut().enumerate() {
        *entry = i as u16 + 1;
    }
}

/// Units as lent entries: that of a unit that is out is 65535, and that of any other has the next unit that is in.
#[derive(Drop)]
pub struct Chain<'a> {
    size: u16,
    // The unit that goes out next, or the size where every unit is out: the chain's end is its size, as the lent
    // entries have it.
    head: u16,
    links: &'a mut [u16],
    ghost linked: { Linked links.now size head } by { linked_once links.now size head },
}

impl<'a> Chain<'a> {
    /// Refuses a size that is not 1 to 4,096, or that the memory is too small for.
    pub fn check(size: usize, links: &[u16]) -> Result<(), AllocatorFault>
        ensures { Checked (Space links.now size) result }
    {
        if size == 0 || size > MOST_UNITS || size > links.len() {
            return Err(AllocatorFault::BadSize);
        }
        Ok(())
    }

    /// A chain with every unit in. It writes the first `size` entries, and keeps the others.
    pub fn make(size: usize, links: &'a mut [u16]) -> Self
        requires { Space links.old size }
        ensures fields { (result.size ≡ size) × (result.head ≡ 0) }
        ensures units { taken result.links.now result.size ≡ replicate size false }
        ensures holds { result.links.now ≡ chained links.old size }
        ensures named { result.links.ghost_name ≡ links.entry.ghost_name }
    {
        let size = size as u16;
        link(links, size);
        Chain {
            size,
            head: 0,
            links,
        }
    }
}

impl Allocator for Chain<'_> {
    ghost units = { λ s. taken s.links.now s.size };

    ghost lent = { λ s. beside_links s.links.ghost_name s.links.now s.size };

    ghost sized = { λ s. taken-sized s.links.now s.size s.linked.space };

    fn size(&self) -> u16 {
        self.size
    }

    fn is_out(&self, unit: u16) -> bool {
        unit < self.size && self.links[usize::from(unit)] == OUT
    }

    /// Takes the unit at the head of the chain. Refuses where every unit is out.
    /// It writes that unit's entry, and keeps the rest of the memory.
    fn take(&mut self) -> Result<u16, AllocatorFault>
        ensures took { Took (taken self.old.links.now self.old.size) (taken self.new.links.now self.new.size) result }
        ensures kept { Kept self.old self.new result }
        ensures holds { TookHead self.old.links.now self.new.links.now self.old.head self.new.head result }
        ensures lent { beside_links self.new.links.ghost_name self.new.links.now self.new.size ≡ beside_links self.old.links.ghost_name self.old.links.now self.old.size }
        ensures named { self.new.links.ghost_name ≡ self.old.links.ghost_name }
    {
        let unit = self.head;
        if unit == self.size {
            return Err(AllocatorFault::AllOut);
        }
        let at = usize::from(unit);
        let next = self.links[at];
        self.links[at] = OUT;
        self.head = next;
        Ok(unit)
    }

    /// Brings a unit back that is out, to the head of the chain. Refuses where it is not out.
    /// It writes that unit's entry, and keeps the rest of the memory.
    fn give(&mut self, unit: u16) -> Result<(), AllocatorFault>
        ensures gave { Gave (taken self.old.links.now self.old.size) (taken self.new.links.now self.new.size) unit result }
        ensures kept { Kept self.old self.new result }
        ensures holds { GaveHead self.old.links.now self.new.links.now self.old.head self.new.head unit result }
        ensures lent { beside_links self.new.links.ghost_name self.new.links.now self.new.size ≡ beside_links self.old.links.ghost_name self.old.links.now self.old.size }
        ensures named { self.new.links.ghost_name ≡ self.old.links.ghost_name }
    {
        if !self.is_out(unit) {
            return Err(AllocatorFault::NotOut { unit });
        }
        self.links[usize::from(unit)] = self.head;
        self.head = unit;
        Ok(())
    }
}
