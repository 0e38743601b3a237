// An allocator over lent bytes, one bit a unit.
ghost use Rattle.std.specs.Prelude.{◌≡◌, ℕ, ◌*◌, ◌/◌, ◌<◌, ◌≤◌, min, true, false, length, replicate, MatchOption, ◌≢◌, slice_index};
ghost use Rattle.pool.specs.Marks.{bit_of, bit_at, marks, turned, low_cleared, cleared, beside_bits, Room, Mapped, TookLowest, GaveBit, marks-sized};
ghost use Rattle.pool.specs.Once.{mapped_once};
ghost use Rattle.pool.specs.Units.{Took, Gave, Checked, Kept};

use super::allocator::{Allocator, AllocatorFault, MOST_UNITS};

// whether bit `i` of the memory is set
fn bit(memory: &[u8], i: usize) -> bool
    requires { i / 8 < length memory.now }
    ensures { result ≡ bit_at memory.now i }
{
    (memory[i / 8] >> (i % 8)) % 2 == 1
}

// turns bit `i` of the memory over, and no other
fn turn(memory: &mut [u8], i: usize)
    requires { i / 8 < length memory.old }
    ensures { memory.new ≡ turned memory.old i }
{
    memory[i / 8] ^= 1 << (i % 8);
}

// the first of the bytes that is not full
fn first_not_full(bytes: &[u8]) -> Option<usize>
    ensures { MatchOption result
        ((k : ℕ) → k < length bytes.now → slice_index bytes.now k ≡ 255)
        (λ i. (i < length bytes.now) × (slice_index bytes.now i ≢ 255) × ((k : ℕ) → k < i → slice_index bytes.now k ≡ 255)) }
{
    bytes.iter().position(|byte| *byte != u8::MAX)
}

// the byte with its lowest `n` bits cleared
fn low_cleared(byte: u8, n: usize) -> u8
    ensures { result ≡ low_cleared byte n }
{
    if n < 8 { byte >> n << n } else { 0 }
}

// clears the first `size` bits of the memory, and no other
fn clear(memory: &mut [u8], size: usize)
    requires { size ≤ 8 * length memory.old }
    ensures { memory.new ≡ cleared memory.old size }
{
    let i = size / 8;
    memory[..i].fill(0);
    if 8 * i < size {
        memory[i] = low_cleared(memory[i], size - 8 * i);
    }
}

/// Units as bits of lent bytes: bit k % 8 of byte k / 8 is set where unit k is out.
#[derive(Drop)]
pub struct Bitmap<'a> {
    size: u16,
    // every unit below it is out
    hint: u16,
    memory: &'a mut [u8],
    ghost mapped: { Mapped memory.now size hint } by { mapped_once memory.now size hint },
}

impl<'a> Bitmap<'a> {
    /// Refuses a size that is not 1 to 4,096, or that the memory is too small for.
    pub fn check(size: usize, memory: &[u8]) -> Result<(), AllocatorFault>
        ensures { Checked (Room memory.now size) result }
    {
        if size == 0 || size > MOST_UNITS || size.div_ceil(8) > memory.len() {
            return Err(AllocatorFault::BadSize);
        }
        Ok(())
    }

    /// A bitmap with every unit in. It clears the first `size` bits of the memory, and keeps the others.
    pub fn make(size: usize, memory: &'a mut [u8]) -> Self
        requires { Room memory.old size }
        ensures fields { (result.size ≡ size) × (result.hint ≡ 0) }
        ensures units { marks result.memory.now result.size ≡ replicate size false }
        ensures holds { result.memory.now ≡ cleared memory.old size }
        ensures spare { (k : ℕ) → size ≤ k → bit_at result.memory.now k ≡ bit_at memory.old k }
        ensures named { result.memory.ghost_name ≡ memory.entry.ghost_name }
    {
        clear(memory, size);
        Bitmap {
            size: size as u16,
            hint: 0,
            memory,
        }
    }

    // the lowest unit that is in
    fn first_in(&self) -> Option<u16>
        ensures { MatchOption result ((k : ℕ) → k < self.now.size → bit_at self.now.memory.now k ≡ true) (λ u. (u < self.now.size) × (bit_at self.now.memory.now u ≡ false) × ((k : ℕ) → k < u → bit_at self.now.memory.now k ≡ true)) }
    {
        // where it is in, the unit at the hint is the lowest
        if self.hint < self.size && !bit(self.memory, usize::from(self.hint)) {
            return Some(self.hint);
        }
        let from = usize::from(self.hint / 8);
        let end = usize::from(self.size).div_ceil(8);
        let i = from + first_not_full(&self.memory[from..end])?;
        let byte = self.memory[i];
        let unit = 8 * i as u16 + byte.trailing_ones() as u16;
        (unit < self.size).then_some(unit)
    }
}

impl Allocator for Bitmap<'_> {
    ghost units = { λ s. marks s.memory.now s.size };

    ghost lent = { λ s. beside_bits s.memory.ghost_name s.memory.now s.size };

    ghost sized = { λ s. marks-sized s.memory.now s.size s.mapped.room };

    fn size(&self) -> u16 {
        self.size
    }

    fn is_out(&self, unit: u16) -> bool {
        unit < self.size && bit(self.memory, usize::from(unit))
    }

    /// Takes the lowest unit that is in. Refuses where every unit is out.
    /// It turns that unit's bit, and keeps the rest of the memory.
    fn take(&mut self) -> Result<u16, AllocatorFault>
        ensures took { Took (marks self.old.memory.now self.old.size) (marks self.new.memory.now self.new.size) result }
        ensures kept { Kept self.old self.new result }
        ensures holds { TookLowest self.old.memory.now self.new.memory.now result }
        ensures lent { beside_bits self.new.memory.ghost_name self.new.memory.now self.new.size ≡ beside_bits self.old.memory.ghost_name self.old.memory.now self.old.size }
        ensures named { self.new.memory.ghost_name ≡ self.old.memory.ghost_name }
    {
        let Some(unit) = self.first_in() else {
            return Err(AllocatorFault::AllOut);
        };
        turn(self.memory, usize::from(unit));
        self.hint = unit + 1;
        Ok(unit)
    }

    /// Brings a unit back that is out. Refuses where it is not out.
    /// It turns that unit's bit, and keeps the rest of the memory.
    fn give(&mut self, unit: u16) -> Result<(), AllocatorFault>
        ensures gave { Gave (marks self.old.memory.now self.old.size) (marks self.new.memory.now self.new.size) unit result }
        ensures kept { Kept self.old self.new result }
        ensures holds { GaveBit self.old.memory.now self.new.memory.now unit result }
        ensures lent { beside_bits self.new.memory.ghost_name self.new.memory.now self.new.size ≡ beside_bits self.old.memory.ghost_name self.old.memory.now self.old.size }
        ensures named { self.new.memory.ghost_name ≡ self.old.memory.ghost_name }
    {
        if !self.is_out(unit) {
            return Err(AllocatorFault::NotOut { unit });
        }
        self.hint = self.hint.min(unit);
        turn(self.memory, usize::from(unit));
        Ok(())
    }
}
