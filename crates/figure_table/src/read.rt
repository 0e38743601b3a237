// Reading a figure from a line: of every figure's text its parts are found, and then its text is compared with the line.
ghost use Rattle.std.specs.Prelude.{IfOk};
ghost use Rattle.figure_table.specs.Readings.{ReadsByte, ReadsNumber, ReadsPolicy, ReadsQuestion, ReadsRefusal, ReadsOutcome, ReadsFigure, Read};

use super::figure::{Figure, Outcome, Policy, Question};
use orders::answer::{Layer, Refusal};
use std::alloc::{AllocError, Global};

// A number that a space follows, and what is after it.
fn byte(text: &str) -> Option<(u8, &str)>
    ensures { ReadsByte text.now result }
{
    let (word, rest) = text.split_once(' ')?;
    Some((word.parse().ok()?, rest))
}

// A number that is the whole text.
fn last_number(text: &str) -> Option<u16>
    ensures { ReadsNumber text.now result }
{
    text.parse().ok()
}

// The policy that the first words name, and what is after the space that follows them.
fn policy(text: &str) -> Option<(Policy, &str)>
    ensures { ReadsPolicy text.now result }
{
    let (kind, rest) = text.split_once(' ')?;
    match kind {
        "copies" => {
            let (n, rest) = byte(rest)?;
            Some((Policy::Copies(n), rest))
        }
        "parity" => {
            let (p, rest) = byte(rest)?;
            let (w, rest) = byte(rest)?;
            Some((Policy::Parity(p, w), rest))
        }
        _ => None,
    }
}

// The question that the next words ask; with no such words it is whether the policy may be made.
fn question(text: &str) -> Option<(Question, &str)>
    ensures { ReadsQuestion text.now result }
{
    match text.split_once(' ') {
        Some(("size", rest)) => {
            let (size, rest) = byte(rest)?;
            Some((Question::Cost(size), rest))
        }
        Some(("worst", rest)) => Some((Question::Worst, rest)),
        _ => Some((Question::Make, text)),
    }
}

// The refusal after the word `refused`.
fn refusal(text: &str) -> Option<Refusal>
    ensures { ReadsRefusal text.now result }
{
    let (number, rest) = byte(text)?;
    let (layer, rest) = byte(rest.strip_prefix("layer ")?)?;
    let (item, rest) = byte(rest.strip_prefix("item ")?)?;
    let amount = last_number(rest.strip_prefix("amount ")?)?;
    Some(Refusal {
        number,
        layer: Layer::try_from(layer).ok()?,
        item,
        amount,
    })
}

// The outcome that the last words expect.
fn outcome(text: &str) -> Option<Outcome>
    ensures { ReadsOutcome text.now result }
{
    if text == "accepted" {
        return Some(Outcome::Accepted);
    }
    let (kind, rest) = text.split_once(' ')?;
    match kind {
        "cost" => Some(Outcome::Units(last_number(rest)?)),
        "refused" => Some(Outcome::Refused(refusal(rest)?)),
        _ => None,
    }
}

// The figure whose parts the line has.
fn figure(line: &str) -> Option<Figure>
    ensures { ReadsFigure line.now result }
{
    let (policy, rest) = policy(line)?;
    let (question, rest) = question(rest)?;
    Some(Figure {
        policy,
        question,
        expected: outcome(rest)?,
    })
}

/// The figure whose text the line is, byte for byte.
pub fn read_figure(heap: Global, line: &str) -> Result<Option<Figure>, AllocError>
    ensures { IfOk result (λ o. Read line.now o) }
{
    let Some(figure) = figure(line) else {
        return Ok(None);
    };
    let text = format!(in heap; "{figure}")?;
    Ok((text.as_str() == line).then_some(figure))
}
