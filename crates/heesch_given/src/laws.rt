//! What holds of list texts, each the contract of a function that does nothing.
ghost use Rattle.heesch_given.specs.Given.{ListsHaveNoFault, OneFault};

/// No text is both a list of shapes and at fault. So `classify GRID given` ends Done exactly over lists of shapes, and
/// BadInput exactly over the others, where nothing fails.
pub fn lists_have_no_fault()
    ensures { ListsHaveNoFault }
{}

/// A text has one first fault at most: its line and its number.
pub fn one_fault()
    ensures { OneFault }
{}
