// What an accepted order is answered.
ghost use Rattle.std.specs.Prelude.{◌≡◌};
ghost use Rattle.ledger.specs.Replies.{answer_of, replied};

use orders::answer::{Answer, Figures, Refusal};
use tally::fault::LedgerFault;

/// The answer to an accepted order.
#[derive(Clone, Copy, PartialEq, Eq, Debug)]
pub enum Reply {
    /// The order is done, with its value.
    Done(u16),
    /// The figures that were asked for.
    Told(Figures),
}

impl From<Reply> for Answer {
    ghost from_gives = { λ reply told. told ≡ replied reply };

    fn from(reply: Reply) -> Answer {
        match reply {
            Reply::Done(value) => Answer::Done { value },
            Reply::Told(figures) => Answer::Told(figures),
        }
    }
}

/// The answer that a result of `obey` means.
pub fn answer(res: Result<Reply, LedgerFault>) -> Answer
    ensures { result ≡ answer_of res }
{
    match res {
        Ok(reply) => Answer::from(reply),
        Err(fault) => Answer::Refused(Refusal::from(fault)),
    }
}
