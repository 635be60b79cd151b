//! What bytes do to a scan.
ghost use Rattle.std.specs.Prelude.{◌≡◌, ◌≢◌, ℕ, ◌+◌, ◌<◌, ◌^◌, ◌++◌, ◌∷◌, [], length, true, false, IfOk, OnOk, OnErr};
ghost use Rattle.std.specs.Prelude.{MatchOption};
ghost use Rattle.heesch_line.specs.Forms.{IsLine, HasNoNewline};
ghost use Rattle.heesch_text.specs.Lines.{words_of};
ghost use Rattle.heesch_grammar.specs.Entries.{AreEntryLines};
ghost use Rattle.heesch_reader.specs.Progress.{next, may_end};
ghost use Rattle.heesch_reader.specs.Items.{item_lines, IsItemAt};
ghost use Rattle.heesch_reader.specs.Endings.{ending_of};
ghost use Rattle.heesch_reader.specs.Faults.{begins_next};
ghost use Rattle.heesch_reader.specs.Scanning.{
  IsScan,
  MayGoOn,
  GivesEntry,
  Settles,
  Advances,
  EndsOrFaults,
  IsFaultOf,
  IsNumber,
  shows_whole,
  shows_whole_where,
  is_complete,
  Pushes,
  TakesLine,
  ReachesOrRefused,
  CompletesOrFallsShort,
  rest_of,
};

use crate::item::{Item, Part};
use crate::progress::{AtHand, Progress, begins_next};
use crate::scan::Scan;
use heesch_grammar::{brief_of, entry_of};
use heesch_io::{NoMemory, Seq};
use heesch_line::{LineFault, LineStop, read_line};
use heesch_text::Line;
use memchr::memchr;
use std::alloc::Global;
use std::collections::VecDeque;
use std::mem;

/// The item of the lines of an entry, the first of which has this number.
fn item_of(alloc: Global, line: u64, brief: bool, lines: VecDeque<Line>) -> Result<Item, NoMemory>
    requires { AreEntryLines brief lines.items }
    ensures lines { IfOk result (λ item. item_lines item ≡ lines.items) }
    ensures numbered { IfOk result (λ item. (before : ℕ) → line ≡ before + 1 → IsItemAt before item) }
{
    if brief {
        let (cells, verdict) = brief_of(lines);
        return Ok(Item::Brief {
            line,
            cells,
            verdict,
        });
    }
    let entry = entry_of(alloc, lines)?;
    Ok(Item::Entry { line, entry })
}

/// The number of lines.
fn count(lines: &VecDeque<Line>) -> u64
    ensures { result ≡ length lines.now.items }
{
    lines.len() as u64
}

/// The number of the line at hand, from 1.
fn line_number(scan: &Scan) -> u64
    requires { scan.now.appended.lines + length scan.now.lines.items + 1 < 2 ^ 64 }
    ensures { IsNumber scan.now result }
{
    scan.appended.lines + count(&scan.lines) + 1
}

/// Appends the entry at hand, which is whole.
fn give_entry(scan: &mut Scan, items: &mut Seq<Item>) -> Result<(), NoMemory>
    requires is { IsScan scan.old }
    requires some { scan.old.lines.items ≢ [] }
    requires whole { may_end scan.old.progress ≡ true }
    ensures ok { OnOk result (GivesEntry scan.old scan.new items.old items.new) }
    ensures err { OnErr result (items.new ≡ items.old) }
{
    let Progress::Behind { brief, spot } = scan.progress else {
        unreachable!();
    };
    let alloc = scan.alloc;
    let lines = mem::replace(&mut scan.lines, VecDeque::new(alloc));
    let count = count(&lines);
    let item = item_of(alloc, scan.appended.lines + 1, brief, lines)?;
    items.push(item)?;
    scan.appended.lines += count;
    scan.appended.entries = spot.shapes;
    scan.progress = scan.progress.between();
    Ok(())
}

/// Appends the entry at hand where the line at hand shows that it is whole, or the bytes end behind it.
fn settle(scan: &mut Scan, at_end: bool, items: &mut Seq<Item>) -> Result<(), NoMemory>
    requires is { IsScan scan.old }
    ensures ok { OnOk result (Settles (shows_whole_where at_end scan.old) scan.old scan.new items.old items.new) }
    ensures err { OnErr result (items.new ≡ items.old) }
{
    if !shows_whole(scan, at_end) {
        return Ok(());
    }
    give_entry(scan, items)
}

fn shows_whole(scan: &Scan, at_end: bool) -> bool
    ensures { result ≡ shows_whole_where at_end scan.now }
{
    let ends = (at_end && scan.line.is_empty()) || begins_next(scan.line.as_slice());
    !scan.lines.is_empty() && scan.progress.may_end() && ends
}

/// Whether an end was read and no byte behind it.
fn is_complete(scan: &Scan) -> bool
    ensures { result ≡ is_complete scan.now }
{
    scan.appended.ended && scan.line.is_empty()
}

/// The fault of the line at hand, which gets its newline.
fn fault_of(scan: &mut Scan) -> Result<(), LineStop<Part>>
    requires { scan.old.appended.lines + length scan.old.lines.items + 1 < 2 ^ 64 }
    ensures { IsFaultOf scan.old result }
{
    scan.line.push(b'\n')?;
    let part = scan.progress.part_of(scan.line.as_slice());
    let line = line_number(scan);
    Err(LineStop::Fault { line, fault: part })
}

/// Takes a line that may stand.
fn advance(
    scan: &mut Scan,
    line: Line,
    reached: Progress,
    items: &mut Seq<Item>,
) -> Result<(), NoMemory>
    requires { scan.old.appended.lines + length scan.old.lines.items + 1 < 2 ^ 64 }
    ensures ok { OnOk result (Advances scan.old scan.new items.old items.new line reached) }
    ensures err { OnErr result (items.new ≡ items.old) }
{
    scan.progress = reached;
    scan.line.clear();
    match line {
        Line::Header { header } => {
            items.push(Item::Header { header })?;
            scan.appended.header = Some(header);
            scan.appended.lines += 1;
            Ok(())
        }
        Line::End { count } => {
            items.push(Item::End { count })?;
            scan.appended.ended = true;
            scan.appended.lines += 1;
            Ok(())
        }
        line => {
            scan.lines.push_back(line)?;
            Ok(())
        }
    }
}

/// Ends the line at hand.
fn end_line(scan: &mut Scan, items: &mut Seq<Item>) -> Result<(), LineStop<Part>>
    requires is { IsScan scan.old }
    requires settled { shows_whole scan.old ≡ false }
    requires room { scan.old.appended.lines + length scan.old.lines.items + length scan.old.line.items + 1 < 2 ^ 64 }
    ensures { EndsOrFaults scan.old scan.new items.old items.new result }
{
    let line = match read_line(scan.alloc, scan.line.as_slice()) {
        Ok(line) => line,
        Err(LineFault::NoMemory) => return Err(LineStop::NoMemory),
        Err(LineFault::NotALine) => return fault_of(scan),
    };
    let Some(reached) = scan.progress.next(&line) else {
        return fault_of(scan);
    };
    match advance(scan, line, reached, items) {
        Ok(()) => Ok(()),
        Err(NoMemory) => Err(LineStop::NoMemory),
    }
}

/// The first line without its newline, and the bytes behind it; None where there is no newline. Nothing is copied; the
/// cost is the line's length.
fn cut_line(bytes: &[u8]) -> Option<(&[u8], &[u8])>
    ensures { MatchOption result (HasNoNewline bytes.now)
        (λ x. (bytes.now ≡ x.0.now ++ 10 ∷ x.1.now) × HasNoNewline x.0.now) }
{
    let end = memchr(b'\n', bytes)?;
    Some((&bytes[..end], &bytes[end + 1..]))
}

/// The bytes stand last in the line at hand.
fn add_to_line(scan: &mut Scan, bytes: &[u8]) -> Result<(), NoMemory>
    ensures { OnOk result (Pushes scan.old scan.new bytes.now) }
{
    scan.line.extend_from_slice(bytes)?;
    Ok(())
}

/// Takes the last bytes of a line, and the newline behind them.
fn take_line(scan: &mut Scan, bytes: &[u8], items: &mut Seq<Item>) -> Result<(), LineStop<Part>>
    requires is { IsScan scan.old }
    requires one_line { HasNoNewline bytes.now }
    requires room { scan.old.appended.lines + length (rest_of scan.old) + length bytes.now + 1 < 2 ^ 64 }
    ensures { TakesLine scan.old scan.new items.old items.new bytes.now result }
{
    add_to_line(scan, bytes)?;
    settle(scan, false, items)?;
    end_line(scan, items)
}

/// Takes the bytes line by line.
pub fn take_bytes(
    scan: &mut Scan,
    piece: &[u8],
    items: &mut Seq<Item>,
) -> Result<(), LineStop<Part>>
    requires is { MayGoOn scan.old }
    requires room { scan.old.appended.lines + length (rest_of scan.old) + length piece.now < 2 ^ 64 }
    ensures { ReachesOrRefused scan.old scan.new items.old items.new (rest_of scan.old ++ piece.now) result }
{
    let mut rest = piece;
    while let Some((line, behind)) = cut_line(rest) {
        take_line(scan, line, items)?;
        rest = behind;
    }
    add_to_line(scan, rest)?;
    settle(scan, false, items)?;
    Ok(())
}

/// Takes the end of the bytes.
pub fn take_end(scan: &mut Scan, items: &mut Seq<Item>) -> Result<(), LineStop<Part>>
    requires is { MayGoOn scan.old }
    ensures { CompletesOrFallsShort scan.old scan.new items.old items.new result }
{
    settle(scan, true, items)?;
    if is_complete(scan) {
        return Ok(());
    }
    let part = scan.progress.part_of(scan.line.as_slice());
    let line = line_number(scan);
    Err(LineStop::Fault { line, fault: part })
}

/// How the line at hand begins.
pub fn at_hand(scan: &Scan) -> AtHand
    ensures { result ≡ ending_of scan.now.lines.items scan.now.line.items }
{
    if !scan.line.as_slice().starts_with(b"end ") {
        return AtHand::Other;
    }
    if scan.lines.is_empty() {
        return AtHand::Next;
    }
    AtHand::Inside
}
