//! What holds of catalogues and their answers, each the contract of a function that does nothing.
ghost use Rattle.heesch_check.specs.Statements.{CataloguesAreValid, OneAnswer};

/// The text of a catalogue whose entries are good and all is valid.
pub fn catalogues_are_valid()
    ensures { CataloguesAreValid }
{}

/// An input has at most one answer.
pub fn one_answer()
    ensures { OneAnswer }
{}
