//! What tabulating a catalogue answers.

use heesch_io::{IoStop, NoMemory};
use heesch_reader::{StreamStop, Taken};

/// What a catalogue's entries tell.
#[derive(Debug, PartialEq, Eq, Drop)]
pub enum Tabulated {
    /// The input is a whole catalogue of shapes, and this is the text of their tally.
    Tally { text: Vec<u8> },
    /// The first fault: its line, from 1, and its number. 1 to 5: the cells of the entry that begins on this line are
    /// no shape, as `ShapeFault::number` says. 6: this line can't stand in a catalogue. 8: the input is too long, and
    /// the first byte too many is on this line.
    Fault { line: u64, number: u32 },
}

/// Why the cells of an entry are no shape: the line that it begins on, and the number of the fault.
#[derive(Clone, Copy, Debug, PartialEq, Eq)]
pub struct EntryFault {
    pub line: u64,
    pub number: u32,
}

/// What counting entries answers: that all were counted, or the first whose cells are no shape.
pub type Counted = Result<Option<EntryFault>, NoMemory>;

/// How the input goes on behind the items that were read.
#[derive(Clone, Copy, Debug, PartialEq, Eq)]
pub enum Onward {
    /// There is more to read.
    More,
    /// The input ended, and is a whole catalogue.
    End,
    /// It has this fault.
    Fault { line: u64, number: u32 },
}

impl Onward {
    ghost use Rattle.heesch_table.specs.TableSteps.{IsOnward};

    /// How it goes on by what a stream answered.
    pub fn by(taken: Result<Taken, StreamStop>) -> Result<Onward, IoStop>
        ensures { IsOnward taken result }
    {
        match taken {
            Ok(Taken::Piece) => Ok(Onward::More),
            Ok(Taken::End) => Ok(Onward::End),
            Err(StreamStop::NotText { line, part: _ }) => Ok(Onward::Fault { line, number: 6 }),
            Err(StreamStop::TooLong { line }) => Ok(Onward::Fault { line, number: 8 }),
            Err(StreamStop::Failed) => Err(IoStop::Failed),
            Err(StreamStop::NoMemory) => Err(IoStop::NoMemory),
        }
    }
}
