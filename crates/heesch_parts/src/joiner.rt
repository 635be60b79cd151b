//! A joiner of share texts.
ghost use Rattle.std.specs.Prelude.{◌≡◌, ◌+◌, ◌<◌, ◌^◌, ◌++◌, [], List, ℕ, length, None, Some, OnOk};
ghost use Rattle.heesch_reader.specs.declared.item.Item.{Item};
ghost use Rattle.heesch_line.specs.declared.stops.LineStop.{LineStop};
ghost use Rattle.heesch_parts.specs.Joining.{IsFed, FeedsTo, FinishesWith, IsStopBeyond, StaysRefused, LeavesRoom};
ghost use Rattle.heesch_parts.specs.Joining.{refusal_of};

use crate::scan::Scan;
use heesch_io::Seq;
use heesch_line::LineStop;
use heesch_reader::Item;
use std::alloc::Global;
use std::marker::Model;

/// Reads share texts, one behind the other, in whatever pieces their bytes come. Contracts see its refusal if it has
/// one, and what it keeps: how many shares there are and the number of the last `share` line, the first header, how
/// many entries there are, how far the catalogue at hand has come, the lines of its entry that isn't whole, the bytes
/// of the line that didn't end, and the number of lines that did. Once it refused it refuses for good.
#[derive(Drop)]
pub struct Joiner {
    refusal: Option<LineStop<u32>>,
    scan: Scan,
}

impl Model for Joiner {
    ghost use Rattle.heesch_parts.specs.Joining.{Joining, MayGoOnUnless, kept_of};

    ghost Value = { Joining };

    ghost view = { λ j. record { refusal = j.refusal; kept = kept_of j.scan } };

    ghost invariant = { λ j. MayGoOnUnless j.refusal (kept_of j.scan) };
}

impl Joiner {
    /// Nothing was read. It takes no memory.
    pub fn new(alloc: Global) -> Joiner
        ensures fresh { result.refusal ≡ None }
        ensures fed { IsFed [] [] result.kept }
    {
        Joiner {
            refusal: None,
            scan: Scan::new(alloc),
        }
    }

    /// Appends the first share's header, and each entry that is whole by now: the line behind it ended, which begins
    /// the next entry or ends the share. An item of an entry has the number of the line of its word `shape`.
    ///
    /// `Fault` comes exactly where a line whose newline was fed can't stand, with the first such line, from 1, and the
    /// number of its fault: 6 where it can't stand in a share text, or not there; 9 for a `share` line of another
    /// number; 10 for a header that isn't the first share's, or that no share may have; 12 for the `shape` line of
    /// entry 4,294,967,296 of all. The items that are whole before it are appended. `NoMemory` may come whenever
    /// memory is refused; the first of the items that are whole by now may be appended then. After either the joiner
    /// answers the same for good. Condition: the number of lines so far, the length of the line that didn't end and
    /// that of the piece sum to less than 2^64. Each byte is looked at a bounded number of times.
    pub fn feed(&mut self, piece: &[u8], items: &mut Seq<Item>) -> Result<(), LineStop<u32>>
        requires room { self.old.kept.lines + length self.old.kept.left + length piece.now < 2 ^ 64 }
        ensures fed { self.old.refusal ≡ None → (before : List ℕ) (given : List Item)
            → IsFed before given self.old.kept
            → FeedsTo (before ++ piece.now) given items.old items.new self.new.kept result }
        ensures refusal { self.old.refusal ≡ None → self.new.refusal ≡ refusal_of result }
        ensures refused { (stop : LineStop ℕ) → self.old.refusal ≡ Some stop
            → StaysRefused stop self.old self.new items.old items.new result }
        ensures room { OnOk result (LeavesRoom self.old.kept self.new.kept (length piece.now)) }
    {
        if let Some(stop) = self.refusal {
            return Err(stop);
        }
        let result = self.scan.take_bytes(piece, items);
        self.refusal = result.err();
        result
    }

    /// Takes the end of the bytes: Ok exactly where those that were fed are the texts of K shares, numbered 1 to K in
    /// order, under one header. Then an end with the number of all entries is appended, so that the items are those of
    /// one catalogue, and the joiner may go on as if the bytes hadn't ended. Else the fault of the end of the input:
    /// 11 behind a share that isn't the last, and 6 elsewhere than behind a whole share. `NoMemory` may come where
    /// memory is refused. At an error nothing is appended, and the joiner answers the same for good.
    pub fn finish(&mut self, items: &mut Seq<Item>) -> Result<(), LineStop<u32>>
        ensures finished { self.old.refusal ≡ None → (before : List ℕ) (given : List Item)
            → IsFed before given self.old.kept
            → FinishesWith before given items.old items.new result }
        ensures refusal { self.old.refusal ≡ None → self.new.refusal ≡ refusal_of result }
        ensures kept { self.new.kept ≡ self.old.kept }
        ensures refused { (stop : LineStop ℕ) → self.old.refusal ≡ Some stop
            → StaysRefused stop self.old self.new items.old items.new result }
    {
        if let Some(stop) = self.refusal {
            return Err(stop);
        }
        let result = self.scan.take_end(items);
        self.refusal = result.err();
        result
    }

    /// The fault of a text that goes on behind the bytes that were fed, where no more of it are read.
    pub fn beyond(&self) -> LineStop<u32>
        requires { self.now.refusal ≡ None }
        ensures { (before : List ℕ) (given : List Item) → IsFed before given self.now.kept
            → IsStopBeyond before result }
    {
        self.scan.beyond()
    }
}
