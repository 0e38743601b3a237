// The definitions of the rules, computed on worked examples.
ghost use Rattle.rules.specs.Worked.{WorkedFigures, WorkedJournals};

/// The worked figures: costs, weights, changes passed on and shortfalls.
pub fn worked_figures()
    ensures { WorkedFigures }
{}

/// Worked journals: every order, and every refusal of an order.
pub fn worked_journals()
    ensures { WorkedJournals }
{}
