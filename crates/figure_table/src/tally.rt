// How many lines agreed, differed or could not be read.
ghost use Rattle.std.specs.Prelude.{◌≡◌};
ghost use Rattle.figure_table.specs.Verdicts.{tallied};

use super::judge::Verdict;

/// The counts of a table's lines.
#[derive(Clone, Copy, PartialEq, Eq, Debug, Default)]
pub struct Tally {
    pub agree: u64,
    pub differ: u64,
    pub unreadable: u64,
}

impl Tally {
    /// Nothing counted yet.
    pub fn new() -> Tally
        ensures { (result.agree ≡ 0) × (result.differ ≡ 0) × (result.unreadable ≡ 0) }
    {
        Tally::default()
    }

    /// Counts one verdict; a comment is not counted.
    pub fn count(&mut self, verdict: &Verdict)
        ensures { self.new ≡ tallied self.old verdict.now }
    {
        match verdict {
            Verdict::Comment => {}
            Verdict::Agrees(_) => self.agree = self.agree.saturating_add(1),
            Verdict::Differs(_, _) => self.differ = self.differ.saturating_add(1),
            Verdict::Unreadable => self.unreadable = self.unreadable.saturating_add(1),
        }
    }
}
