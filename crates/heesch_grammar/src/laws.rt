//! What holds of the lines of entries, each the contract of a function that does nothing.
ghost use Rattle.heesch_grammar.specs.Statements.{LinesDetermineEntries, TrueEntriesMayStand, TrueCataloguesAreWhole};
ghost use Rattle.heesch_grammar.specs.Statements.{EntriesEndAnywhere};

/// Two entries that hold nothing beyond their lines, and have the same lines, are the same.
pub fn lines_determine_entries()
    ensures { LinesDetermineEntries }
{}

/// A true entry holds nothing beyond its lines, and its lines may stand wherever an entry may end.
pub fn true_entries_may_stand()
    ensures { TrueEntriesMayStand }
{}

/// The lines of true entries, with the last line, are those of a whole catalogue, in full and in brief.
pub fn true_catalogues_are_whole()
    ensures { TrueCataloguesAreWhole }
{}

/// Where an entry may end, `shape` and `end` lines are judged as between two entries.
pub fn entries_end_anywhere()
    ensures { EntriesEndAnywhere }
{}
