// What goes wrong with a script, and with an order of it.
ghost use Rattle.std.specs.Prelude.{◌≡◌, None};
ghost use Rattle.runner.specs.Faults.{fault_answer, fault_ground, placed, refused_at};
ghost use Rattle.runner.specs.declared.fault.ScriptFault.TheVariants.{Refused as refused_order, Unreadable as unreadable};

use orders::answer::{Answer, Refusal};
use reader::fault::ReadFault;
use tally::fault::LedgerFault;

/// Why a run stops, or an order of a script is refused.
#[derive(Clone, Copy, PartialEq, Eq, Debug)]
pub enum ScriptFault {
    /// The script is longer than 4,096 bytes.
    TooLong,
    /// No order can be read where one should begin.
    Unreadable(ReadFault),
    /// Fewer than 17 answer bytes are left for the order that begins at the place.
    NoRoom {
        place: usize,
    },
    /// The ledger refuses the order, which begins at the place.
    Refused {
        fault: LedgerFault,
        place: Option<usize>,
    },
}

// A place as a two-byte field shows it.
pub(crate) fn short_place(place: usize) -> u16
    ensures { result ≡ placed place }
{
    u16::try_from(place).unwrap_or(u16::MAX)
}

impl ScriptFault {
    /// The number of the refusal.
    pub fn number(self) -> u8
        ensures { result ≡ (fault_ground self).0 }
    {
        match self {
            ScriptFault::TooLong => 1,
            ScriptFault::Unreadable(fault) => fault.number(),
            ScriptFault::NoRoom { place: _ } => 4,
            ScriptFault::Refused { fault, place: _ } => Refusal::from(fault).number,
        }
    }

    /// The place of the order's first byte, 0 where none is known.
    pub fn place(self) -> usize
        ensures { result ≡ (fault_ground self).1 }
    {
        match self {
            ScriptFault::TooLong => 0,
            ScriptFault::Unreadable(fault) => fault.place(),
            ScriptFault::NoRoom { place } => place,
            // 0, as the definition has it: no place is known yet.
            ScriptFault::Refused { fault: _, place } => place.unwrap_or(0),
        }
    }

    // Fills in the place of the order that was refused.
    pub(crate) fn at(self, place: usize) -> ScriptFault
        ensures { result ≡ refused_at self place }
    {
        match self {
            ScriptFault::Refused { fault, place: _ } => ScriptFault::Refused {
                fault,
                place: Some(place),
            },
            other => other,
        }
    }
}

/// The answer that says it: a refused order's, or the end of the run.
impl From<ScriptFault> for Answer {
    ghost from_gives = { λ fault answer. answer ≡ fault_answer fault };

    fn from(fault: ScriptFault) -> Answer {
        match fault {
            ScriptFault::Refused { fault, place: _ } => Answer::Refused(Refusal::from(fault)),
            other => Answer::Stopped {
                number: other.number(),
                place: short_place(other.place()),
            },
        }
    }
}

/// A script that cannot be read on.
impl From<ReadFault> for ScriptFault {
    ghost from_gives = { λ fault lifted. lifted ≡ unreadable fault };

    fn from(fault: ReadFault) -> ScriptFault {
        ScriptFault::Unreadable(fault)
    }
}

/// A refusal of the ledger as one of the script's, with no place yet.
impl From<LedgerFault> for ScriptFault {
    ghost from_gives = { λ fault lifted. lifted ≡ refused_order fault None };

    fn from(fault: LedgerFault) -> ScriptFault {
        ScriptFault::Refused { fault, place: None }
    }
}
