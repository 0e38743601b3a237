// Figures as text.
ghost use Rattle.std.specs.Prelude.{Some};
ghost use Rattle.figure_table.specs.Texts.{policy_text, question_text, outcome_text, figure_text};

use super::figure::{Figure, Outcome, Policy, Question};
use std::fmt;

/// The policy as a line of a table begins with it.
impl fmt::Display for Policy {
    ghost output = { λ policy. Some (policy_text policy) };

    fn fmt<W: fmt::Write>(&self, f: &mut fmt::Formatter<W>) -> fmt::Result {
        match *self {
            Policy::Copies(n) => write!(f, "copies {n}"),
            Policy::Parity(p, w) => write!(f, "parity {p} {w}"),
        }
    }
}

/// The question as it follows the policy, with the space before it.
impl fmt::Display for Question {
    ghost output = { λ question. Some (question_text question) };

    fn fmt<W: fmt::Write>(&self, f: &mut fmt::Formatter<W>) -> fmt::Result {
        match *self {
            Question::Make => Ok(()),
            Question::Cost(size) => write!(f, " size {size}"),
            Question::Worst => write!(f, " worst"),
        }
    }
}

/// The outcome as a line of a table ends with it, with the space before it.
impl fmt::Display for Outcome {
    ghost output = { λ outcome. Some (outcome_text outcome) };

    fn fmt<W: fmt::Write>(&self, f: &mut fmt::Formatter<W>) -> fmt::Result {
        match *self {
            Outcome::Accepted => write!(f, " accepted"),
            Outcome::Units(n) => write!(f, " cost {n}"),
            Outcome::Refused(refusal) => write!(
                f,
                " refused {} layer {} item {} amount {}",
                refusal.number,
                u8::from(refusal.layer),
                refusal.item,
                refusal.amount
            ),
        }
    }
}

/// The line of a table that has this figure.
impl fmt::Display for Figure {
    ghost output = { λ figure. Some (figure_text figure) };

    fn fmt<W: fmt::Write>(&self, f: &mut fmt::Formatter<W>) -> fmt::Result {
        let Figure {
            policy,
            question,
            expected,
        } = self;
        write!(f, "{policy}{question}{expected}")
    }
}
