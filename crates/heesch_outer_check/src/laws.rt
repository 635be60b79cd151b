//! What holds of outer texts and of answers, each the contract of a function that does nothing.
ghost use Rattle.heesch_outer_check.specs.Statements.{OneAnswer, OuterTextsAreValid};
ghost use Rattle.heesch_outer_check.specs.RecordStatements.{TextsDetermineRecords, TrueRecordsAreReadable};

/// An input has at most one answer.
pub fn one_answer()
    ensures { OneAnswer }
{}

/// The outer text of good records that are all is valid.
pub fn outer_texts_are_valid()
    ensures { OuterTextsAreValid }
{}

/// Two records that can be read, and have one text, are the same.
pub fn texts_determine_records()
    ensures { TextsDetermineRecords }
{}

/// A record of a true entry can be read where its lines have the forms of a catalogue's.
pub fn true_records_are_readable()
    ensures { TrueRecordsAreReadable }
{}
