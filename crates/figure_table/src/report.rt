// What is printed of a table.
ghost use Rattle.std.specs.Prelude.{◌≡◌, ◌++◌, Some, IfOk, string_bytes};
ghost use Rattle.figure_table.specs.Reports.{verdict_text, summary_text};

use super::judge::Verdict;
use super::tally::Tally;
use std::alloc::{AllocError, Global};
use std::fmt;

/// What is printed after a line.
impl fmt::Display for Verdict {
    ghost output = { λ verdict. Some (verdict_text verdict) };

    fn fmt<W: fmt::Write>(&self, f: &mut fmt::Formatter<W>) -> fmt::Result {
        match self {
            Verdict::Comment => Ok(()),
            Verdict::Agrees(figure) => write!(f, ": got{}, agrees", figure.expected),
            Verdict::Differs(_, got) => write!(f, ": got{got}, differs"),
            Verdict::Unreadable => write!(f, ": unreadable"),
        }
    }
}

/// The counts.
impl fmt::Display for Tally {
    ghost output = { λ tally. Some (summary_text tally) };

    fn fmt<W: fmt::Write>(&self, f: &mut fmt::Formatter<W>) -> fmt::Result {
        let Tally {
            agree,
            differ,
            unreadable,
        } = self;
        write!(f, "{agree} agree, {differ} differ, {unreadable} unreadable")
    }
}

/// What is printed of a line: the line, and but for a comment what the code gave and whether that agrees.
pub fn report(heap: Global, line: &str, verdict: Verdict) -> Result<String, AllocError>
    ensures { IfOk result (λ s. string_bytes s ≡ line.now ++ verdict_text verdict) }
{
    format!(in heap; "{line}{verdict}")
}

/// The last line: the counts.
pub fn summary(heap: Global, tally: &Tally) -> Result<String, AllocError>
    ensures { IfOk result (λ s. string_bytes s ≡ summary_text tally.now) }
{
    format!(in heap; "{tally}")
}
