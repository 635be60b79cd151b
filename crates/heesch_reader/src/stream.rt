//! A stream of the items of a catalogue.
ghost use Rattle.std.specs.Prelude.{◌≡◌, ℕ, ◌+◌, ◌≤◌, List, [], length, None, Option, Ok};
ghost use Rattle.std.specs.Io.KnownBytes.{IsAtEnd};
ghost use Rattle.heesch_reader.specs.Endings.{TellsEnding};
ghost use Rattle.heesch_reader.specs.Taking.{HasRead, TakeResult, TakesOnePiece, KeepsRefusal, StaysRefused};
ghost use Rattle.heesch_reader.specs.Taking.{FeedsPiece, FinishesAll};

use crate::answers::{StreamStop, Taken};
use crate::newlines::newlines;
use crate::{AtHand, Item, Part, Reader};
use heesch_io::{Seq, Source};
use heesch_line::LineStop;
use std::alloc::Global;
use std::marker::Model;

/// The most bytes that are read.
pub const INPUT_MAX: u64 = 1_099_511_627_776;

/// The most bytes of a piece.
const PIECE_MAX: usize = 4096;

/// Reads a catalogue from a source piece by piece. Contracts see what its reader keeps, the number of bytes that were
/// read, and the number of the line that the next byte is on.
#[derive(Drop)]
pub struct Stream {
    reader: Reader,
    refusal: Option<LineStop<Part>>,
    count: u64,
    line: u64,
}

impl Model for Stream {
    ghost use Rattle.heesch_reader.specs.Taking.{Streamed, IsStream};

    ghost Value = { Streamed };

    ghost view = { λ s. record { kept = s.reader; count = s.count; line = s.line } };

    ghost invariant = { λ s. IsStream s.refusal s.reader s.count s.line };
}

impl Stream {
    /// Nothing was read. It takes no memory.
    pub fn new(alloc: Global) -> Stream
        ensures { (left : Option (List ℕ)) → HasRead left left [] result }
    {
        Stream {
            reader: Reader::new(alloc),
            refusal: None,
            count: 0,
            line: 1,
        }
    }

    /// Reads one piece, at most 4,096 bytes and none beyond the first `INPUT_MAX` of the input, and appends the items
    /// that are whole by now.
    ///
    /// `End` comes where the bytes ended and are a whole catalogue. Errors: `NotText` with the first line that can't
    /// stand in a catalogue; the items that are whole before it are appended. `TooLong` where the first `INPUT_MAX`
    /// bytes begin a catalogue and one more byte follows; nothing is appended, and the stream keeps what it did.
    /// `Failed` only where the source's count of faults rose; no byte is read, nothing is appended, and the stream
    /// keeps what it did, so that reading may go on. `NoMemory` where memory was refused; the first of the items that
    /// are whole by now may be appended. After `NotText` and `NoMemory` the stream answers the same for good, and
    /// reads nothing. Each byte is looked at twice.
    pub fn take<R: Source>(
        &mut self,
        source: &mut R,
        items: &mut Seq<Item>,
    ) -> Result<Taken, StreamStop>
        ensures taken { TakeResult (R.left source.old) (R.left source.new) (R.faults source.old)
            (R.faults source.new) self.old self.new items.old items.new result }
        ensures keeps { KeepsRefusal result self.new }
        ensures stays { StaysRefused (R.left source.old)
            (R.left source.new) self.old self.new items.old items.new result }
        ensures consumed { TakesOnePiece (R.left source.old) (R.left source.new) }
        ensures ended { result ≡ Ok Taken.End → IsAtEnd (R.left source.new) }
        ensures later { R.faults source.old ≤ R.faults source.new }
    {
        if let Some(stop) = self.refusal {
            return Err(stop.into());
        }
        if self.count == INPUT_MAX {
            return self.take_last(source, items);
        }
        let room = (INPUT_MAX - self.count).min(PIECE_MAX as u64) as usize;
        let mut piece = [0; PIECE_MAX];
        let count = source.read(&mut piece[..room])?;
        if count == 0 {
            return self.finish(items);
        }
        self.feed(&piece[..count], items)?;
        Ok(Taken::Piece)
    }

    /// Whether the line that the next byte is on begins as the last line of a catalogue does. It takes no memory.
    pub fn at_hand(&self) -> AtHand
        ensures { TellsEnding self.now.kept result }
    {
        self.reader.at_hand()
    }

    /// The end of the input where as many bytes as may be were read.
    fn take_last<R: Source>(
        &mut self,
        source: &mut R,
        items: &mut Seq<Item>,
    ) -> Result<Taken, StreamStop>
        requires going { self.old.kept.refusal ≡ None }
        requires all { self.old.count ≡ INPUT_MAX }
        ensures taken { TakeResult (R.left source.old) (R.left source.new) (R.faults source.old)
            (R.faults source.new) self.old self.new items.old items.new result }
        ensures keeps { KeepsRefusal result self.new }
        ensures consumed { TakesOnePiece (R.left source.old) (R.left source.new) }
        ensures ended { result ≡ Ok Taken.End → IsAtEnd (R.left source.new) }
        ensures later { R.faults source.old ≤ R.faults source.new }
    {
        let mut byte = [0; 1];
        if source.read(&mut byte)? > 0 {
            return Err(StreamStop::TooLong { line: self.line });
        }
        self.finish(items)
    }

    /// Feeds a piece to the reader.
    fn feed(&mut self, piece: &[u8], items: &mut Seq<Item>) -> Result<(), StreamStop>
        requires going { self.old.kept.refusal ≡ None }
        requires room { self.old.count + length piece.now ≤ INPUT_MAX }
        ensures fed { FeedsPiece self.old self.new items.old items.new piece.now result }
        ensures keeps { KeepsRefusal result self.new }
    {
        let fed = self.reader.feed(piece, items);
        self.refusal = fed.err();
        fed?;
        self.count += piece.len() as u64;
        self.line += newlines(piece);
        Ok(())
    }

    /// Tells the reader that the bytes ended.
    fn finish(&mut self, items: &mut Seq<Item>) -> Result<Taken, StreamStop>
        requires going { self.old.kept.refusal ≡ None }
        ensures finished { FinishesAll self.old items.old items.new result }
        ensures keeps { KeepsRefusal result self.new }
    {
        let finished = self.reader.finish(items);
        self.refusal = finished.err();
        finished?;
        Ok(Taken::End)
    }
}
