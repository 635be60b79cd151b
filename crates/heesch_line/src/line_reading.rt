//! The lines of a catalogue, read from their bytes.
ghost use Rattle.std.specs.Prelude.{◌≡◌, ◌≢◌, ℕ, List, IfOk, IfErr, Err};
ghost use Rattle.heesch_text.specs.declared.line.Line.{Line};
ghost use Rattle.heesch_text.specs.Lines.{words_of};
ghost use Rattle.heesch_line.specs.declared.fault.LineFault.TheVariants as faults;
ghost use Rattle.heesch_line.specs.Forms.{IsLine, BeginsAsList};
ghost use Rattle.heesch_line.specs.Reading.{Gives};
ghost use Rattle.heesch_line.specs.LineReading.{header_at, shape_at, tiles_at, heesch_at, stop_at, verdict_at};
ghost use Rattle.heesch_line.specs.LineReading.{verdict_line_at, end_at, lattice_at, tile_at, coronas_at, layer_at};
ghost use Rattle.heesch_line.specs.LineReading.{open_at, wall_at, bare_at, triple_line_at, learn_at, cut_at};
ghost use Rattle.heesch_line.specs.LineReading.{empty_at, search_line_at, cover_line_at, front_line_at, line_at};

use crate::LineFault;
use crate::fields::{after, iso, labelled, limits, literal, number, three_numbers, triple_of};
use crate::names::{bare_outcome, grid, kind, outcome, phase, subject, version};
use crate::words::{cells, more_words, some_words};
use heesch_cert::{Cut, Header, Isos, Member, Phase, Verdict};
use heesch_cnf::{Hints, Lits};
use heesch_io::Seq;
use heesch_text::Line;
use std::alloc::Global;

#[tactic(auto, unfolding(crate::specs::LineReading::header_at))]
fn header(brief: bool, bytes: &[u8]) -> Result<(Line, &[u8]), LineFault>
    ensures gives { Gives (λ x. (x.0, x.1.now)) result (header_at brief bytes.now) }
    ensures err { IfErr result (λ e. e ≡ LineFault.NotALine) }
{
    let (version, rest) = version(bytes)?;
    let (grid, rest) = grid(rest)?;
    let rest = literal(b" ", rest)?;
    let (subject, rest) = subject(version, grid, rest)?;
    let (limits, rest) = limits(version, rest)?;
    let header = Header {
        brief,
        grid,
        subject,
        limits,
    };
    Ok((Line::Header { header }, rest))
}

#[tactic(auto, unfolding(crate::specs::LineReading::shape_at))]
fn shape(alloc: Global, bytes: &[u8]) -> Result<(Line, &[u8]), LineFault>
    ensures { Gives (λ x. (x.0, x.1.now)) result (shape_at bytes.now) }
{
    let (cells, rest) = cells(alloc, bytes)?;
    Ok((Line::Shape { cells }, rest))
}

#[tactic(auto, unfolding(crate::specs::LineReading::tiles_at))]
fn tiles(bytes: &[u8]) -> Result<(Verdict, &[u8]), LineFault>
    ensures gives { Gives (λ x. (x.0, x.1.now)) result (tiles_at bytes.now) }
    ensures err { IfErr result (λ e. e ≡ LineFault.NotALine) }
{
    let (kind, rest) = kind(bytes)?;
    let (domain, rest) = labelled(b" domain ", rest)?;
    let (classes, rest) = labelled(b" classes ", rest)?;
    Ok((
        Verdict::Tiles {
            kind,
            domain,
            classes,
        },
        rest,
    ))
}

#[tactic(auto, unfolding(crate::specs::LineReading::heesch_at))]
fn heesch(bytes: &[u8]) -> Result<(Verdict, &[u8]), LineFault>
    ensures gives { Gives (λ x. (x.0, x.1.now)) result (heesch_at bytes.now) }
    ensures err { IfErr result (λ e. e ≡ LineFault.NotALine) }
{
    let (h, rest) = number(bytes)?;
    let (m, rest) = labelled(b" nontiler ", rest)?;
    Ok((Verdict::Heesch { h, m }, rest))
}

/// Where a search stopped.
#[tactic(auto, unfolding(crate::specs::LineReading::stop_at))]
fn stop(bytes: &[u8]) -> Result<((u32, Phase, u32), &[u8]), LineFault>
    ensures gives { Gives (λ x. (x.0, x.1.now)) result (stop_at bytes.now) }
    ensures err { IfErr result (λ e. e ≡ LineFault.NotALine) }
{
    let (h, rest) = number(bytes)?;
    let rest = literal(b" ", rest)?;
    let (phase, rest) = phase(rest)?;
    let (at, rest) = labelled(b" ", rest)?;
    Ok(((h, phase, at), rest))
}

#[tactic(auto, unfolding(crate::specs::LineReading::verdict_at))]
fn verdict(bytes: &[u8]) -> Result<(Verdict, &[u8]), LineFault>
    ensures gives { Gives (λ x. (x.0, x.1.now)) result (verdict_at bytes.now) }
    ensures err { IfErr result (λ e. e ≡ LineFault.NotALine) }
{
    if let Some(rest) = after(b"tiles ", bytes) {
        return tiles(rest);
    }
    if let Some(rest) = after(b"heesch ", bytes) {
        return heesch(rest);
    }
    if let Some(rest) = after(b"undecided levels ", bytes) {
        let (h, rest) = number(rest)?;
        return Ok((Verdict::Levels { h }, rest));
    }
    if let Some(rest) = after(b"undecided holes ", bytes) {
        let (h, rest) = number(rest)?;
        return Ok((Verdict::Holes { h }, rest));
    }
    if let Some(rest) = after(b"undecided turns ", bytes) {
        let ((h, phase, at), rest) = stop(rest)?;
        return Ok((Verdict::Turns { h, phase, at }, rest));
    }
    let rest = literal(b"undecided size ", bytes)?;
    let ((h, phase, at), rest) = stop(rest)?;
    Ok((Verdict::Size { h, phase, at }, rest))
}

#[tactic(auto, unfolding(crate::specs::LineReading::verdict_line_at))]
fn verdict_line(bytes: &[u8]) -> Result<(Line, &[u8]), LineFault>
    ensures gives { Gives (λ x. (x.0, x.1.now)) result (verdict_line_at bytes.now) }
    ensures err { IfErr result (λ e. e ≡ LineFault.NotALine) }
{
    let (verdict, rest) = verdict(bytes)?;
    Ok((Line::Verdict { verdict }, rest))
}

#[tactic(auto, unfolding(crate::specs::LineReading::end_at))]
fn end(bytes: &[u8]) -> Result<(Line, &[u8]), LineFault>
    ensures gives { Gives (λ x. (x.0, x.1.now)) result (end_at bytes.now) }
    ensures err { IfErr result (λ e. e ≡ LineFault.NotALine) }
{
    let (count, rest) = number(bytes)?;
    Ok((Line::End { count }, rest))
}

#[tactic(auto, unfolding(crate::specs::LineReading::lattice_at))]
fn lattice(bytes: &[u8]) -> Result<(Line, &[u8]), LineFault>
    ensures gives { Gives (λ x. (x.0, x.1.now)) result (lattice_at bytes.now) }
    ensures err { IfErr result (λ e. e ≡ LineFault.NotALine) }
{
    let ((p, q, s), rest) = three_numbers(bytes)?;
    let triple = triple_of(p, q, s)?;
    Ok((Line::Lattice { triple }, rest))
}

#[tactic(auto, unfolding(crate::specs::LineReading::tile_at))]
fn tile(bytes: &[u8]) -> Result<(Line, &[u8]), LineFault>
    ensures gives { Gives (λ x. (x.0, x.1.now)) result (tile_at bytes.now) }
    ensures err { IfErr result (λ e. e ≡ LineFault.NotALine) }
{
    let (place, rest) = iso(b' ', bytes)?;
    let (class, rest) = labelled(b" class ", rest)?;
    let rest = literal(b" by ", rest)?;
    let (by, rest) = iso(b' ', rest)?;
    let member = Member { class, by };
    Ok((Line::Tile { place, member }, rest))
}

#[tactic(auto, unfolding(crate::specs::LineReading::coronas_at))]
fn coronas(bytes: &[u8]) -> Result<(Line, &[u8]), LineFault>
    ensures gives { Gives (λ x. (x.0, x.1.now)) result (coronas_at bytes.now) }
    ensures err { IfErr result (λ e. e ≡ LineFault.NotALine) }
{
    let (count, rest) = number(bytes)?;
    Ok((Line::Coronas { count }, rest))
}

#[tactic(auto, unfolding(crate::specs::LineReading::layer_at))]
fn layer(alloc: Global, bytes: &[u8]) -> Result<(Line, &[u8]), LineFault>
    ensures { Gives (λ x. (x.0, x.1.now)) result (layer_at bytes.now) }
{
    let (places, rest): (Isos, &[u8]) = some_words(alloc, bytes)?;
    Ok((Line::Layer { places }, rest))
}

#[tactic(auto, unfolding(crate::specs::LineReading::open_at))]
fn open(bytes: &[u8]) -> Result<(Line, &[u8]), LineFault>
    ensures gives { Gives (λ x. (x.0, x.1.now)) result (open_at bytes.now) }
    ensures err { IfErr result (λ e. e ≡ LineFault.NotALine) }
{
    let (count, rest) = number(bytes)?;
    Ok((Line::Open { count }, rest))
}

#[tactic(auto, unfolding(crate::specs::LineReading::wall_at))]
fn wall(bytes: &[u8]) -> Result<(Line, &[u8]), LineFault>
    ensures gives { Gives (λ x. (x.0, x.1.now)) result (wall_at bytes.now) }
    ensures err { IfErr result (λ e. e ≡ LineFault.NotALine) }
{
    let (level, rest) = number(bytes)?;
    let rest = literal(b" ", rest)?;
    let (outcome, rest) = outcome(rest)?;
    Ok((Line::Wall { level, outcome }, rest))
}

#[tactic(auto, unfolding(crate::specs::LineReading::bare_at))]
fn bare(bytes: &[u8]) -> Result<(Line, &[u8]), LineFault>
    ensures gives { Gives (λ x. (x.0, x.1.now)) result (bare_at bytes.now) }
    ensures err { IfErr result (λ e. e ≡ LineFault.NotALine) }
{
    let (level, rest) = number(bytes)?;
    let rest = literal(b" ", rest)?;
    let (outcome, rest) = bare_outcome(rest)?;
    Ok((Line::Bare { level, outcome }, rest))
}

#[tactic(auto, unfolding(crate::specs::LineReading::triple_line_at))]
fn triple_line(bytes: &[u8]) -> Result<(Line, &[u8]), LineFault>
    ensures gives { Gives (λ x. (x.0, x.1.now)) result (triple_line_at bytes.now) }
    ensures err { IfErr result (λ e. e ≡ LineFault.NotALine) }
{
    let ((p, q, s), rest) = three_numbers(bytes)?;
    let triple = triple_of(p, q, s)?;
    if let Some(rest) = after(b" refuted", rest) {
        return Ok((
            Line::Triple {
                triple,
                refuted: true,
            },
            rest,
        ));
    }
    let rest = literal(b" spent", rest)?;
    Ok((
        Line::Triple {
            triple,
            refuted: false,
        },
        rest,
    ))
}

#[tactic(auto, unfolding(crate::specs::LineReading::learn_at))]
fn learn(alloc: Global, bytes: &[u8]) -> Result<(Line, &[u8]), LineFault>
    ensures { Gives (λ x. (x.0, x.1.now)) result (learn_at bytes.now) }
{
    let (clause, rest): (Lits, &[u8]) = some_words(alloc, bytes)?;
    let rest = literal(b" :", rest)?;
    let (hints, rest): (Hints, &[u8]) = some_words(alloc, rest)?;
    Ok((Line::Learn { clause, hints }, rest))
}

#[tactic(auto, unfolding(crate::specs::LineReading::cut_at))]
fn cut(alloc: Global, bytes: &[u8]) -> Result<(Line, &[u8]), LineFault>
    ensures { Gives (λ x. (x.0, x.1.now)) result (cut_at bytes.now) }
{
    let (level, rest) = number(bytes)?;
    let rest = literal(b" : ", rest)?;
    let (hole, rest) = cells(alloc, rest)?;
    let rest = literal(b" :", rest)?;
    let (border, rest) = more_words(Seq::new(alloc), rest)?;
    let cut = Cut {
        level,
        hole,
        border,
    };
    Ok((Line::Cut { cut }, rest))
}

#[tactic(auto, unfolding(crate::specs::LineReading::empty_at))]
fn empty(alloc: Global, bytes: &[u8]) -> Result<(Line, &[u8]), LineFault>
    ensures { Gives (λ x. (x.0, x.1.now)) result (empty_at bytes.now) }
{
    let (hints, rest): (Hints, &[u8]) = some_words(alloc, bytes)?;
    Ok((Line::Empty { hints }, rest))
}

#[tactic(auto, unfolding(crate::specs::LineReading::search_line_at))]
fn search_line(alloc: Global, bytes: &[u8]) -> Result<(Line, &[u8]), LineFault>
    ensures gives { Gives (λ x. (x.0, x.1.now)) result (search_line_at bytes.now) }
    ensures memory { result ≡ Err faults.NoMemory → BeginsAsList bytes.now }
{
    if let Some(rest) = after(b"learn", bytes) {
        return learn(alloc, rest);
    }
    if let Some(rest) = after(b"cut ", bytes) {
        return cut(alloc, rest);
    }
    if let Some(rest) = after(b"empty", bytes) {
        return empty(alloc, rest);
    }
    if let Some(rest) = after(b"wall ", bytes) {
        return wall(rest);
    }
    if let Some(rest) = after(b"bare ", bytes) {
        return bare(rest);
    }
    if let Some(rest) = after(b"triple ", bytes) {
        return triple_line(rest);
    }
    let rest = literal(b"spent", bytes)?;
    Ok((Line::Spent, rest))
}

#[tactic(auto, unfolding(crate::specs::LineReading::cover_line_at))]
fn cover_line(alloc: Global, bytes: &[u8]) -> Result<(Line, &[u8]), LineFault>
    ensures gives { Gives (λ x. (x.0, x.1.now)) result (cover_line_at bytes.now) }
    ensures memory { result ≡ Err faults.NoMemory → BeginsAsList bytes.now }
{
    if let Some(rest) = after(b"layer", bytes) {
        return layer(alloc, rest);
    }
    if let Some(rest) = after(b"lattice ", bytes) {
        return lattice(rest);
    }
    if let Some(rest) = after(b"tile ", bytes) {
        return tile(rest);
    }
    if let Some(rest) = after(b"coronas ", bytes) {
        return coronas(rest);
    }
    if let Some(rest) = after(b"open ", bytes) {
        return open(rest);
    }
    search_line(alloc, bytes)
}

#[tactic(auto, unfolding(crate::specs::LineReading::front_line_at))]
fn front_line(alloc: Global, bytes: &[u8]) -> Result<(Line, &[u8]), LineFault>
    ensures gives { Gives (λ x. (x.0, x.1.now)) result (front_line_at bytes.now) }
    ensures memory { result ≡ Err faults.NoMemory → BeginsAsList bytes.now }
{
    if let Some(rest) = after(b"shape ", bytes) {
        return shape(alloc, rest);
    }
    if let Some(rest) = after(b"verdict ", bytes) {
        return verdict_line(rest);
    }
    if let Some(rest) = after(b"end ", bytes) {
        return end(rest);
    }
    if let Some(rest) = after(b"heesch", bytes) {
        return header(false, rest);
    }
    if let Some(rest) = after(b"brief", bytes) {
        return header(true, rest);
    }
    cover_line(alloc, bytes)
}

/// The line that all of the bytes are.
#[tactic(auto, unfolding(crate::specs::LineReading::line_at))]
fn whole_line(alloc: Global, bytes: &[u8]) -> Result<Line, LineFault>
    ensures gives { Gives (λ line. line) result (line_at bytes.now) }
    ensures memory { result ≡ Err faults.NoMemory → BeginsAsList bytes.now }
{
    let (line, rest) = front_line(alloc, bytes)?;
    if !rest.is_empty() {
        return Err(LineFault::NotALine);
    }
    Ok(line)
}

/// The line of a catalogue that these bytes are, which don't have its newline.
///
/// `NotALine` comes exactly where they are no line in any of the forms: a word is missing, unknown or one too many,
/// words aren't separated by single spaces, a number has a leading zero, doesn't fit 32 bits or is out of its range,
/// or a list lacks its first item. `NoMemory` comes only for bytes that begin as a line with a list does. The cost is
/// linear in the number of bytes, and memory is taken for the lists of the line alone.
pub fn read_line(alloc: Global, bytes: &[u8]) -> Result<Line, LineFault>
    ensures ok { IfOk result (λ line. IsLine line × (words_of line ≡ bytes.now)) }
    ensures not_a_line { result ≡ Err faults.NotALine → (line : Line) → IsLine line → words_of line ≢ bytes.now }
    ensures memory { result ≡ Err faults.NoMemory → BeginsAsList bytes.now }
{
    whole_line(alloc, bytes)
}
