// The verdict on a line of a table.
ghost use Rattle.std.specs.Prelude.{◌≡◌, IfOk, Decides};
ghost use Rattle.figure_table.specs.Verdicts.{IsComment, JudgedFigure, Judged};

use super::answer::answer;
use super::figure::{Figure, Outcome};
use super::read::read_figure;
use std::alloc::{AllocError, Global};
use std::str;

/// What a line of a table is found to be.
#[derive(Clone, Copy, PartialEq, Eq, Debug)]
pub enum Verdict {
    /// Blank, or begun by `#`.
    Comment,
    /// The code gives what the line expects.
    Agrees(Figure),
    /// The code gives this other outcome.
    Differs(Figure, Outcome),
    /// The line is no figure's text.
    Unreadable,
}

fn is_comment(line: &[u8]) -> bool
    ensures { Decides result (IsComment line.now) }
{
    matches!(line, [] | [b'#', ..])
}

// Runs the code on a figure.
fn judge(figure: Figure) -> Verdict
    ensures { JudgedFigure figure result }
{
    let got = answer(figure.policy, figure.question);
    if got == figure.expected {
        Verdict::Agrees(figure)
    } else {
        Verdict::Differs(figure, got)
    }
}

/// Judges one line of a table, of any bytes, without its end.
pub fn judge_line(heap: Global, line: &[u8]) -> Result<Verdict, AllocError>
    ensures { IfOk result (λ verdict. Judged line.now verdict) }
{
    if is_comment(line) {
        return Ok(Verdict::Comment);
    }
    let Ok(text) = str::from_utf8(line) else {
        return Ok(Verdict::Unreadable);
    };
    Ok(read_figure(heap, text)?.map_or(Verdict::Unreadable, judge))
}
