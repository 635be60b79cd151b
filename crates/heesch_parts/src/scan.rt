//! What bytes do to the lines of a joiner.
ghost use Rattle.std.specs.Prelude.{◌≡◌, ◌≢◌, ◌==◌, ◌+◌, ◌-◌, ◌≤◌, ◌<◌, ◌^◌, ◌++◌, ◌∷◌, [], List, ℕ, length, true};
ghost use Rattle.std.specs.Prelude.{false, OnOk, OnErr};
ghost use Rattle.heesch_grammar.specs.Entries.{AreEntryLines};
ghost use Rattle.heesch_reader.specs.declared.item.Item.{Item};
ghost use Rattle.heesch_parts.specs.PartLines.{IsPartLine};
ghost use Rattle.heesch_parts.specs.Joining.{IsFed, MayGoOn, FeedsTo, FinishesWith, IsStopBeyond, Settles, Holds};
ghost use Rattle.heesch_parts.specs.Joining.{Advances, HasRoom, LeavesRoom, ends_entry, kept_of};

use crate::part_line::{PartLine, read_part_line};
use crate::stage::{CANNOT_STAND, Stage};
use heesch_cert::Header;
use heesch_grammar::entry_of;
use heesch_io::{NoMemory, Seq};
use heesch_line::{LineFault, LineStop};
use heesch_reader::Item;
use heesch_text::Line;
use std::alloc::Global;
use std::collections::VecDeque;
use std::mem;

/// The fault of the line on which the input goes on beyond what is read.
const TOO_LONG: u32 = 8;

/// The stage that the lines led to, the lines of the entry that isn't whole, the bytes of the line that didn't end,
/// and the number of lines that ended.
#[derive(Drop)]
pub struct Scan {
    pub alloc: Global,
    pub stage: Stage,
    pub held: VecDeque<Line>,
    pub line: Vec<u8>,
    pub lines: u64,
}

impl Scan {
    /// Nothing was read. It takes no memory.
    pub fn new(alloc: Global) -> Scan
        ensures { IsFed [] [] (kept_of result) }
    {
        Scan {
            alloc,
            stage: Stage::start(),
            held: VecDeque::new(alloc),
            line: Vec::new(alloc),
            lines: 0,
        }
    }

    /// Takes the bytes one after the other.
    pub fn take_bytes(&mut self, piece: &[u8], items: &mut Seq<Item>) -> Result<(), LineStop<u32>>
        requires going { MayGoOn (kept_of self.old) }
        requires room { self.old.lines + length self.old.line.items + length piece.now < 2 ^ 64 }
        ensures fed { (before : List ℕ) (given : List Item) → IsFed before given (kept_of self.old)
            → FeedsTo (before ++ piece.now) given items.old items.new (kept_of self.new) result }
        ensures room { OnOk result (LeavesRoom (kept_of self.old) (kept_of self.new) (length piece.now)
            × HasRoom (kept_of self.new)) }
    {
        for &byte in piece {
            self.take_byte(byte, items)?;
        }
        Ok(())
    }

    /// Takes the end of the bytes.
    pub fn take_end(&self, items: &mut Seq<Item>) -> Result<(), LineStop<u32>>
        requires going { MayGoOn (kept_of self.now) }
        ensures { (before : List ℕ) (given : List Item) → IsFed before given (kept_of self.now)
            → FinishesWith before given items.old items.new result }
    {
        if !self.is_behind_line() {
            return Err(self.fault(CANNOT_STAND));
        }
        match self.stage.end_fault() {
            Some(fault) => Err(self.fault(fault)),
            None => {
                let count = self.stage.entries;
                items.push(Item::End { count })?;
                Ok(())
            }
        }
    }

    /// The fault of a text that goes on behind the most bytes that are read.
    pub fn beyond(&self) -> LineStop<u32>
        requires { HasRoom (kept_of self.now) }
        ensures { (before : List ℕ) (given : List Item) → IsFed before given (kept_of self.now)
            → IsStopBeyond before result }
    {
        self.fault(TOO_LONG)
    }

    /// Takes one byte.
    fn take_byte(&mut self, byte: u8, items: &mut Seq<Item>) -> Result<(), LineStop<u32>>
        requires going { MayGoOn (kept_of self.old) }
        requires room { self.old.lines + length self.old.line.items + 1 < 2 ^ 64 }
        ensures fed { (before : List ℕ) (given : List Item) → IsFed before given (kept_of self.old)
            → FeedsTo (before ++ byte ∷ []) given items.old items.new (kept_of self.new) result }
        ensures room { OnOk result (LeavesRoom (kept_of self.old) (kept_of self.new) 1 × HasRoom (kept_of self.new)) }
    {
        if byte == b'\n' {
            return self.end_line(items);
        }
        self.line.push(byte)?;
        Ok(())
    }

    /// Ends the line at hand.
    fn end_line(&mut self, items: &mut Seq<Item>) -> Result<(), LineStop<u32>>
        requires going { MayGoOn (kept_of self.old) }
        requires room { self.old.lines + length self.old.line.items + 1 < 2 ^ 64 }
        ensures fed { (before : List ℕ) (given : List Item) → IsFed before given (kept_of self.old)
            → FeedsTo (before ++ 10 ∷ []) given items.old items.new (kept_of self.new) result }
        ensures room { OnOk result (LeavesRoom (kept_of self.old) (kept_of self.new) 1 × HasRoom (kept_of self.new)) }
    {
        let line = match read_part_line(self.alloc, self.line.as_slice()) {
            Ok(line) => line,
            Err(LineFault::NotALine) => return Err(self.fault(CANNOT_STAND)),
            Err(LineFault::NoMemory) => return Err(LineStop::NoMemory),
        };
        match self.stage.next(&line) {
            Ok(reached) => self.advance(line, reached, items),
            Err(fault) => Err(self.fault(fault)),
        }
    }

    /// Takes a line that may stand and leads to this stage.
    fn advance(
        &mut self,
        line: PartLine,
        reached: Stage,
        items: &mut Seq<Item>,
    ) -> Result<(), LineStop<u32>>
        requires whole { ends_entry line ≡ true → self.old.held.items ≢ [] → AreEntryLines false self.old.held.items }
        requires held { length self.old.held.items ≤ self.old.lines }
        requires room { self.old.lines < 2 ^ 64 - 1 }
        ensures { Advances (kept_of self.old) (kept_of self.new) line reached items.old items.new result }
    {
        let before = self.lines - self.held.len() as u64;
        settle(self.alloc, &line, &mut self.held, before, items)?;
        hold(line, self.stage.header, &mut self.held, items)?;
        self.stage = reached;
        self.line.clear();
        self.lines += 1;
        Ok(())
    }

    /// Whether no byte of another line was read.
    fn is_behind_line(&self) -> bool
        ensures { result ≡ (length self.now.line.items == 0) }
    {
        self.line.is_empty()
    }

    /// A fault of the line that didn't end.
    fn fault(&self, fault: u32) -> LineStop<u32>
        requires { HasRoom (kept_of self.now) }
        ensures { result ≡ LineStop.Fault (self.now.lines + 1) fault }
    {
        let line = self.lines + 1;
        LineStop::Fault { line, fault }
    }
}

/// Where the line ends the entry at hand, appends it, if there is one. So many lines stand before it.
fn settle(
    alloc: Global,
    line: &PartLine,
    held: &mut VecDeque<Line>,
    before: u64,
    items: &mut Seq<Item>,
) -> Result<(), NoMemory>
    requires whole { ends_entry line.now ≡ true → held.old.items ≢ [] → AreEntryLines false held.old.items }
    requires room { before < 2 ^ 64 - 1 }
    ensures ok { OnOk result (Settles (ends_entry line.now) before held.old.items held.new.items items.old items.new) }
    ensures err { OnErr result (items.new ≡ items.old) }
{
    if !line.ends_entry() || held.is_empty() {
        return Ok(());
    }
    let lines = mem::replace(held, VecDeque::new(alloc));
    let entry = entry_of(alloc, lines)?;
    let line = before + 1;
    items.push(Item::Entry { line, entry })
}

/// Holds a line of an entry, and appends the first header.
fn hold(
    line: PartLine,
    first: Option<Header>,
    held: &mut VecDeque<Line>,
    items: &mut Seq<Item>,
) -> Result<(), NoMemory>
    ensures ok { OnOk result (Holds line first held.old.items held.new.items items.old items.new) }
    ensures err { OnErr result (items.new ≡ items.old) }
{
    let PartLine::Catalogue { line } = line else {
        return Ok(());
    };
    match line {
        Line::Header { header } => {
            if first.is_none() {
                items.push(Item::Header { header })?;
            }
            Ok(())
        }
        Line::End { count: _ } => Ok(()),
        line => {
            held.push_back(line)?;
            Ok(())
        }
    }
}
