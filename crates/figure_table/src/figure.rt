// The figures of a table: what is asked, and what is expected.
use orders::answer::Refusal;

/// The policy that a figure is of, with any numbers.
// Beside the scheme of a setup: one enum for both is no plainer, since the words of this one are the table's text, and the costs know no text.
#[derive(Clone, Copy, PartialEq, Eq, Debug)]
pub enum Policy {
    Copies(u8),
    /// Parity and width.
    Parity(u8, u8),
}

/// What is asked of a policy.
#[derive(Clone, Copy, PartialEq, Eq, Debug)]
pub enum Question {
    /// May it be made?
    Make,
    /// The cost of a size.
    Cost(u8),
    /// The worst cost.
    Worst,
}

/// What comes of a question.
#[derive(Clone, Copy, PartialEq, Eq, Debug)]
pub enum Outcome {
    /// The policy may be made.
    Accepted,
    Units(u16),
    Refused(Refusal),
}

/// One line of a table.
#[derive(Clone, Copy, PartialEq, Eq, Debug)]
pub struct Figure {
    pub policy: Policy,
    pub question: Question,
    pub expected: Outcome,
}
