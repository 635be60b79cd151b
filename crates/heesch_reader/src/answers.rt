//! What one step of reading answers.
ghost use Rattle.std.specs.Prelude.{◌≡◌};
ghost use Rattle.heesch_reader.specs.declared.answers.StreamStop.TheVariants as stops;
ghost use Rattle.heesch_reader.specs.Answers.{stop_of};

use crate::Part;
use heesch_io::Failed;
use heesch_line::LineStop;
use thiserror::Error;

/// What was read.
#[derive(Clone, Copy, Debug, PartialEq, Eq)]
pub enum Taken {
    /// A piece with at least one byte, whose whole items were appended.
    Piece,
    /// The end of the input, which is a whole catalogue.
    End,
}

/// Why reading stopped before the end of a whole catalogue.
#[derive(Clone, Copy, Debug, PartialEq, Eq, Error)]
pub enum StreamStop {
    /// This line, counted from 1, is the first that can't stand in a catalogue.
    #[error("line {line} can't stand in a catalogue")]
    NotText { line: u64, part: Part },
    /// The input has more bytes than are read. The first byte too many is on this line.
    #[error("the input is too long from line {line} on")]
    TooLong { line: u64 },
    /// The source failed.
    #[error("the input failed")]
    Failed,
    /// Memory was refused.
    #[error("out of memory")]
    NoMemory,
}

impl From<LineStop<Part>> for StreamStop {
    ghost from_gives = { λ s e. e ≡ stop_of s };

    fn from(stop: LineStop<Part>) -> StreamStop {
        match stop {
            LineStop::Fault { line, fault: part } => StreamStop::NotText { line, part },
            LineStop::NoMemory => StreamStop::NoMemory,
        }
    }
}

impl From<Failed> for StreamStop {
    ghost from_gives = { λ _ e. e ≡ stops.Failed };

    fn from(_failed: Failed) -> StreamStop {
        StreamStop::Failed
    }
}
