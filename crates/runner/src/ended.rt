// How a run ended.
ghost use Rattle.std.specs.Prelude.{◌≡◌};
ghost use Rattle.runner.specs.Stops.{stop_answer, stop_ground};

use super::fault::{ScriptFault, short_place};
use orders::answer::Answer;

/// What came of a run: why it stopped, how many orders it answered, and how many bytes the answers have.
#[derive(Clone, Copy, PartialEq, Eq, Debug)]
pub struct Ended {
    /// The place of the script's end, or why no further order could be read or answered.
    pub stop: Result<usize, ScriptFault>,
    pub answered: usize,
    pub written: usize,
}

impl Ended {
    /// The number that stopped the run, 0 at the script's end.
    pub fn number(self) -> u8
        ensures { result ≡ (stop_ground self.stop).0 }
    {
        self.stop.map_or_else(|fault| fault.number(), |_| 0)
    }

    /// The script's length at its end, 0 for a script that is too long, and else the place of the order that stopped the run.
    pub fn place(self) -> usize
        ensures { result ≡ (stop_ground self.stop).1 }
    {
        self.stop.unwrap_or_else(|fault| fault.place())
    }

    /// The answer that says how the run ended.
    pub fn answer(self) -> Answer
        ensures { result ≡ stop_answer self.stop }
    {
        self.stop.map_or_else(
            Answer::from,
            |place| Answer::Stopped {
                number: 0,
                place: short_place(place),
            },
        )
    }
}
