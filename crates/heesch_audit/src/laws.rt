//! What holds of portions of audits, the contract of a function that does nothing.
ghost use Rattle.heesch_audit.specs.Statements.{PortionsMakeTheEntry};

/// Into however many portions the audit of an entry is split, the entry is true exactly where each of them holds.
pub fn portions_make_the_entry()
    ensures { PortionsMakeTheEntry }
{}
