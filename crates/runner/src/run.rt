// A run over a script.
ghost use Rattle.std.specs.Prelude.{◌≡◌, ◌+◌, ◌≤◌, length, Some};
ghost use Rattle.orders.specs.Layout.{answer_bytes, laid};
ghost use Rattle.orders.specs.Meaning.{meaning};
ghost use Rattle.rules.specs.Served.{bytes_of};
ghost use Rattle.ledger.specs.Parts.{book_of, figures, Sound};
ghost use Rattle.ledger.specs.Serves.{Through};
ghost use Rattle.runner.specs.Faults.{answer_at, AtPlace};
ghost use Rattle.runner.specs.Runs.{end_of, ended_with, exchanges_in, ran};
ghost use Rattle.runner.specs.Steps.{One};

use super::ended::Ended;
use super::fault::ScriptFault;
use costs::policy::CostPolicy;
use ledger::Ledger;
use ledger::reply::Reply;
use orders::answer::Answer;
use orders::order::Order;
use pool::allocator::Allocator;
use reader::reader::Reader;

/// The most bytes that a script may have.
pub const LONGEST_SCRIPT: usize = 4096;

/// The bytes of the longest answer. An order is obeyed only where as many are left.
pub const LONGEST_ANSWER: usize = 17;

// Obeys the order that begins at the place. A refusal of the ledger becomes one of the script, with that place.
fn obey_at<A: Allocator, P: CostPolicy>(
    ledger: &mut Ledger<A, P>,
    order: Order<'_>,
    place: usize,
) -> Result<Reply, ScriptFault>
    ensures one { One ledger.old ledger.new (meaning order.entry) (answer_at result) }
    ensures place { AtPlace (Some place) result }
{
    ledger
        .obey(order)
        .map_err(|fault| ScriptFault::from(fault).at(place))
}

// The answer that the result of an order means: `81` is read off the fault. One function with the ledger's `answer`, over any error,
// is no plainer: a refusal of the ledger becomes an answer as a `Refusal`, one of a script by itself.
fn answer(res: Result<Reply, ScriptFault>) -> Answer
    ensures { result ≡ answer_at res }
{
    match res {
        Ok(reply) => Answer::from(reply),
        Err(fault) => Answer::from(fault),
    }
}

// The answers so far: the bytes that they may have, how many of those are written, and how many orders are answered.
#[derive(Drop)]
struct Output<'a> {
    bytes: &'a mut [u8],
    written: usize,
    answered: usize,
    ghost within: { written ≤ length bytes.now },
}

impl Output<'_> {
    // How many bytes are left.
    fn room(&self) -> usize
        ensures { result + self.now.written ≡ length self.now.bytes.now }
    {
        self.bytes.len() - self.written
    }

    // Writes an answer behind those written.
    fn push(&mut self, answer: Answer)
        requires { self.old.written + length (answer_bytes answer) ≤ length self.old.bytes.now }
        ensures bytes { self.new.bytes.now ≡ laid self.old.bytes.now self.old.written (answer_bytes answer) }
        ensures written { self.new.written ≡ self.old.written + length (answer_bytes answer) }
        ensures answered { self.new.answered ≡ self.old.answered }
        ensures same_reference { self.new.bytes.ghost_name ≡ self.old.bytes.ghost_name }
    {
        let Ok(count) = answer.write_to(self.bytes, self.written) else {
            unreachable()
        };
        self.written += count;
    }
}

// Obeys the orders of a script one by one, and writes each answer behind the last, until no further one can be read or answered.
fn run_orders<A: Allocator, P: CostPolicy>(
    ledger: &mut Ledger<A, P>,
    script: &[u8],
    out: &mut Output<'_>,
) -> Result<usize, ScriptFault>
    requires few { length script.now ≤ 4096 }
    requires none { (out.old.written ≡ 0) × (out.old.answered ≡ 0) }
    ensures ended { ended_with result out.new.answered out.new.written ≡ end_of (ran (figures ledger.old) script.now (length out.old.bytes.now) (book_of ledger.old)) }
    ensures bytes { out.new.bytes.now ≡ laid out.old.bytes.now 0 (bytes_of (exchanges_in (ran (figures ledger.old) script.now (length out.old.bytes.now) (book_of ledger.old)))) }
    ensures through { Through ledger.old ledger.new (exchanges_in (ran (figures ledger.old) script.now (length out.old.bytes.now) (book_of ledger.old))) }
    ensures same_reference { out.new.bytes.ghost_name ≡ out.old.bytes.ghost_name }
{
    let mut reader = Reader::new(script);
    'orders: loop {
        let place = reader.place();
        let Some(order) = reader.next_order()? else {
            return Ok(place);
        };
        if out.room() < LONGEST_ANSWER {
            return Err(ScriptFault::NoRoom { place });
        }
        let said = answer(obey_at(ledger, order, place));
        out.push(said);
        out.answered += 1;
    }
}

/// Runs a script: reads order after order, obeys each, and writes each answer behind the last, also after a refusal. It stops
/// at the script's end, at an order that cannot be read, and where fewer than 17 answer bytes are left; a script that is too long
/// is not begun. Answer bytes past those written keep their contents.
pub fn run<A: Allocator, P: CostPolicy>(
    ledger: &mut Ledger<A, P>,
    script: &[u8],
    answers: &mut [u8],
) -> Ended
    ensures sound { Sound ledger.old → Sound ledger.new }
    ensures ended { result ≡ end_of (ran (figures ledger.old) script.now (length answers.old) (book_of ledger.old)) }
    ensures bytes { answers.new ≡ laid answers.old 0 (bytes_of (exchanges_in (ran (figures ledger.old) script.now (length answers.old) (book_of ledger.old)))) }
    ensures within { result.written ≤ length answers.old }
    ensures through { Through ledger.old ledger.new (exchanges_in (ran (figures ledger.old) script.now (length answers.old) (book_of ledger.old))) }
{
    if script.len() > LONGEST_SCRIPT {
        return Ended {
            stop: Err(ScriptFault::TooLong),
            answered: 0,
            written: 0,
        };
    }
    let mut out = Output {
        bytes: answers,
        written: 0,
        answered: 0,
    };
    let stop = run_orders(ledger, script, &mut out);
    Ended {
        stop,
        answered: out.answered,
        written: out.written,
    }
}
