//! What holds of the lines of catalogues, each the contract of a function that does nothing.
ghost use Rattle.heesch_reader.specs.Faults.{StandingTextsHaveNoFault};
ghost use Rattle.heesch_reader.specs.Feeding.{PiecesLeaveRoom, WholeTextsFallNotShort};
ghost use Rattle.heesch_reader.specs.Parts.{PartsAreTheFormats};

/// A text whose lines may all stand one behind the other, with bytes behind them that have no newline, has no line at
/// fault. So `feed` answers a fault only where the lines that were fed begin no catalogue.
pub fn standing_texts_have_no_fault()
    ensures { StandingTextsHaveNoFault }
{}

/// The part that a fault names is that of the format.
pub fn parts_are_the_formats()
    ensures { PartsAreTheFormats }
{}

/// A piece that was taken leaves no more lines and bytes than there were, so that a caller who counts the bytes that
/// were fed meets the condition of `feed`.
pub fn pieces_leave_room()
    ensures { PiecesLeaveRoom }
{}

/// The two answers of `finish` exclude each other: bytes that are a whole catalogue don't fall short of one. So Ok
/// comes exactly where they are one.
pub fn whole_texts_fall_not_short()
    ensures { WholeTextsFallNotShort }
{}
