// What the code gives for a question.
ghost use Rattle.std.specs.Prelude.{◌≡◌};
ghost use Rattle.costs.specs.Costs.{CopiesFit, ParityFit};
ghost use Rattle.figure_table.specs.Outcomes.{Asked, Answered, outcome_of};

use super::figure::{Outcome, Policy, Question};
use costs::copies::Copies;
use costs::fault::CostFault;
use costs::parity::Parity;
use costs::policy::CostPolicy;
use orders::answer::Refusal;

// Asks any policy.
fn ask<P: CostPolicy>(policy: &P, question: Question) -> Result<Outcome, CostFault>
    ensures { Asked (P.CostPolicy.cost policy.now) (P.CostPolicy.worst policy.now) question (outcome_of result) }
{
    match question {
        Question::Make => Ok(Outcome::Accepted),
        Question::Cost(size) => policy.cost(size).map(Outcome::Units),
        Question::Worst => Ok(Outcome::Units(policy.worst())),
    }
}

// Checks the figures of a policy, makes it and asks it.
fn make_and_ask(policy: Policy, question: Question) -> Result<Outcome, CostFault>
    ensures { Answered policy question (outcome_of result) }
{
    match policy {
        Policy::Copies(n) => {
            Copies::check(n)?;
            ask(&Copies::make(n), question)
        }
        Policy::Parity(p, w) => {
            Parity::check(p, w)?;
            ask(&Parity::make(p, w), question)
        }
    }
}

/// What comes of asking a policy with these figures: the figures are checked first.
pub fn answer(policy: Policy, question: Question) -> Outcome
    ensures { Answered policy question result }
{
    make_and_ask(policy, question).unwrap_or_else(|fault| Outcome::Refused(Refusal::from(fault)))
}
