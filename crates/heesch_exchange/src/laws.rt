//! What holds of inputs, each the contract of a function that does nothing.
ghost use Rattle.heesch_exchange.specs.Statements.{FormulasHaveNoFault, AnswersHaveNoFault};
ghost use Rattle.heesch_exchange.specs.Statements.{FormulasHaveOneFault, AnswersHaveOneFault};

/// No input to `formula` both has a formula and is at fault: so it is answered a fault exactly where it has one.
pub fn formulas_have_no_fault()
    ensures { FormulasHaveNoFault }
{}

/// No input to `answer` both has an answer and is at fault: so it is answered a fault exactly where it has one.
pub fn answers_have_no_fault()
    ensures { AnswersHaveNoFault }
{}

/// An input to `formula` has one first fault at most: its line and its number.
pub fn formulas_have_one_fault()
    ensures { FormulasHaveOneFault }
{}

/// An input to `answer` has one first fault at most: its line and its number.
pub fn answers_have_one_fault()
    ensures { AnswersHaveOneFault }
{}
