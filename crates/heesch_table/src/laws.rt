//! What the counts are, as the contract of a function that does nothing.
ghost use Rattle.heesch_table.specs.Statements.{NumbersAreThoseThatOccur};
ghost use Rattle.heesch_table.specs.Tabulating.{OneFault, OneTally, TalliesHaveNoFault};

/// The Heesch numbers that a tally lists are just those that occur, each once and rising.
pub fn numbers_are_those_that_occur()
    ensures { NumbersAreThoseThatOccur }
{}

/// An input that has a tally has no fault, so an input has one of the two at most.
pub fn tallies_have_no_fault()
    ensures { TalliesHaveNoFault }
{}

/// An input has one first fault at most.
pub fn one_fault()
    ensures { OneFault }
{}

/// An input has one tally at most.
pub fn one_tally()
    ensures { OneTally }
{}
