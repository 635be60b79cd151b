//! A reader that takes a catalogue in pieces.
ghost use Rattle.std.specs.Prelude.{◌≡◌, ◌+◌, ◌<◌, ◌^◌, [], length, None};
ghost use Rattle.heesch_reader.specs.Items.{none_appended};
ghost use Rattle.heesch_reader.specs.Endings.{TellsEnding};
ghost use Rattle.heesch_reader.specs.Feeding.{FeedResult, FinishResult};

use crate::item::{Item, Part};
use crate::progress::{AtHand, Progress};
use crate::scan::{Appended, Scan};
use crate::scanning::{at_hand, take_bytes, take_end};
use heesch_io::Seq;
use heesch_line::LineStop;
use std::alloc::Global;
use std::collections::VecDeque;
use std::marker::Model;

/// Reads a catalogue in whatever pieces its bytes come. Contracts see its refusal if it has one, what it appended, and
/// the bytes fed after the last whole item. Once it refused it refuses for good. It keeps the lines of one entry.
#[derive(Drop)]
pub struct Reader {
    refusal: Option<LineStop<Part>>,
    scan: Scan,
}

impl Model for Reader {
    ghost use Rattle.heesch_reader.specs.Items.{Kept};
    ghost use Rattle.heesch_reader.specs.Scanning.{kept_of, IsRefusedOrScan};

    ghost Value = { Kept };

    ghost view = { λ r. kept_of r.refusal r.scan };

    ghost invariant = { λ r. IsRefusedOrScan r.refusal r.scan };
}

impl Reader {
    /// Nothing was read. It takes no memory.
    pub fn new(alloc: Global) -> Reader
        ensures { result ≡ record { refusal = None; appended = none_appended; rest = [] } }
    {
        let appended = Appended {
            header: None,
            entries: 0,
            lines: 0,
            ended: false,
        };
        let scan = Scan {
            alloc,
            appended,
            lines: VecDeque::new(alloc),
            progress: Progress::Start,
            line: Vec::new(alloc),
        };
        Reader {
            refusal: None,
            scan,
        }
    }

    /// Appends the items that are whole by now: a header or an end with its newline, an entry once the bytes show that
    /// the next line begins with `shape ` or `end `, the space included.
    ///
    /// `Fault` comes exactly where the lines whose newline was fed so far begin no catalogue, with the least line up
    /// to which they begin none and its part; the items that are whole before it are appended. `NoMemory` may come
    /// whenever memory is refused; the first of the items that are whole by now may be appended then. After either the
    /// reader answers the same for good. Condition: the number of lines appended, the length of the rest and that of
    /// the piece sum to less than 2^64. Each byte is looked at once.
    pub fn feed(&mut self, piece: &[u8], items: &mut Seq<Item>) -> Result<(), LineStop<Part>>
        requires room { self.old.appended.lines + length self.old.rest + length piece.now < 2 ^ 64 }
        ensures { FeedResult self.old self.new items.old items.new piece.now result }
    {
        if let Some(stop) = self.refusal {
            return Err(stop);
        }
        let result = take_bytes(&mut self.scan, piece, items);
        if let Err(stop) = result {
            self.refusal = Some(stop);
        }
        result
    }

    /// Takes the end of the bytes: Ok exactly where the bytes fed are a whole catalogue, and then the items of all are
    /// appended. Else `Fault` with the first line that can't stand, which is a last line without its newline, or the
    /// line behind the last where no end was read. `NoMemory` may come whenever memory is refused, and then nothing is
    /// appended. After either the reader answers the same for good.
    pub fn finish(&mut self, items: &mut Seq<Item>) -> Result<(), LineStop<Part>>
        ensures { FinishResult self.old self.new items.old items.new result }
    {
        if let Some(stop) = self.refusal {
            return Err(stop);
        }
        let result = take_end(&mut self.scan, items);
        self.refusal = result.err();
        result
    }
    /// Whether the line at hand begins as the last line of a catalogue does. It takes no memory.
    pub fn at_hand(&self) -> AtHand
        ensures { TellsEnding self.now result }
    {
        at_hand(&self.scan)
    }
}
