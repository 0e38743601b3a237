// Answers written into lent memory.
ghost use Rattle.std.specs.Prelude.{◌≡◌, ◌+◌, ◌≤◌, ◌++◌, length};
ghost use Rattle.orders.specs.Layout.{answer_bytes, two, Written};
ghost use Rattle.orders.specs.declared.answer.Answer.TheVariants.{Refused, Told};

use super::answer::{Answer, Figures, Refusal};

/// The answer needs more bytes than there are behind the place.
#[derive(Clone, Copy, PartialEq, Eq, Debug)]
pub struct NoRoom {
    pub needed: usize,
}

// The four counts of a dataset, two bytes each.
fn counts(figures: Figures) -> [u8; 8]
    ensures { result ≡ two figures.charge ++ (two figures.record_units ++ (two figures.deferred_units ++ two figures.unspent_grants)) }
{
    let [charge_high, charge_low] = figures.charge.to_be_bytes();
    let [records_high, records_low] = figures.record_units.to_be_bytes();
    let [deferred_high, deferred_low] = figures.deferred_units.to_be_bytes();
    let [grants_high, grants_low] = figures.unspent_grants.to_be_bytes();
    [
        charge_high,
        charge_low,
        records_high,
        records_low,
        deferred_high,
        deferred_low,
        grants_high,
        grants_low,
    ]
}

// Writes a refusal over all of the bytes.
fn fill_refused(room: &mut [u8], refusal: Refusal)
    requires { length room.old ≡ 6 }
    ensures { room.new ≡ answer_bytes (Refused refusal) }
{
    let [high, low] = refusal.amount.to_be_bytes();
    room.copy_from_slice(&[
        0x81,
        refusal.number,
        u8::from(refusal.layer),
        refusal.item,
        high,
        low,
    ]);
}

// Writes the figures of a dataset over all of the bytes.
fn fill_told(room: &mut [u8], figures: Figures)
    requires { length room.old ≡ length (answer_bytes (Told figures)) }
    ensures { room.new ≡ answer_bytes (Told figures) }
{
    room[0] = 0x82;
    room[1..9].copy_from_slice(&figures.name);
    room[9..].copy_from_slice(&counts(figures));
}

impl Answer {
    /// How many bytes the answer has.
    pub fn byte_len(&self) -> usize
        ensures { result ≡ length (answer_bytes self.now) }
    {
        match *self {
            Answer::Done { .. } => 3,
            Answer::Refused(_) => 6,
            Answer::Told(figures) => 9 + figures.name.as_slice().len(),
            Answer::Stopped { .. } => 4,
        }
    }

    // Writes the answer over all of the bytes.
    #[tactic(auto, using(crate::proofs::Laid::first_then))]
    fn fill(&self, room: &mut [u8])
        requires { length room.old ≡ length (answer_bytes self.now) }
        ensures { room.new ≡ answer_bytes self.now }
    {
        match *self {
            Answer::Done { value } => {
                let [high, low] = value.to_be_bytes();
                room.copy_from_slice(&[0x80, high, low]);
            }
            Answer::Refused(refusal) => fill_refused(room, refusal),
            Answer::Told(figures) => fill_told(room, figures),
            Answer::Stopped { number, place } => {
                let [high, low] = place.to_be_bytes();
                // The kind is written apart: a copy of four bytes becomes one number, and that costs more.
                room[0] = 0x83;
                room[1..].copy_from_slice(&[number, high, low]);
            }
        }
    }

    /// Writes the answer's bytes into `out` from the place `at` on, and answers how many they are.
    /// Every other byte keeps its contents. With too little room nothing is written.
    pub fn write_to(&self, out: &mut [u8], at: usize) -> Result<usize, NoRoom>
        ensures { Written out.old out.new at (answer_bytes self.now) result }
    {
        let needed = self.byte_len();
        if at > out.len() || out.len() - at < needed {
            return Err(NoRoom { needed });
        }
        self.fill(&mut out[at..at + needed]);
        Ok(needed)
    }
}
