//! The lines of a catalogue, each added at the end of a text with its newline.
ghost use Rattle.std.specs.Prelude.{◌≡◌, ◌++◌, length, take, OnOk, codes, decimal};
ghost use Rattle.std.specs.List.{AllByRecursion};
ghost use Rattle.heesch_text.specs.declared.line.Line.TheVariants as lines;
ghost use Rattle.heesch_cert.specs.declared.verdict.Verdict.TheVariants as verdicts;
ghost use Rattle.heesch_text.specs.Names.{version_text, phase_text};
ghost use Rattle.heesch_cert.specs.Sizes.{subject_word};
ghost use Rattle.heesch_text.specs.Lines.{line_text, title_text, limits_text, verdict_text};
ghost use Rattle.heesch_text.specs.Fields.{spaced};
ghost use Rattle.heesch_text.specs.Naturals.{IsNatural, HasNaturals};

use crate::fields::{
    Word, append_byte, append_bytes, append_cells, append_iso, append_labelled, append_number,
    append_spaced, append_triple,
};
use crate::line::{BareOutcome, Outcome};
use crate::names::{kind_word, phase_word};
use heesch_cert::{Cut, Header, Kind, Limits, Member, Phase, Subject, Verdict};
use heesch_cnf::{Lit, Version};
use heesch_grid::{Cell, Iso};
use heesch_io::NoMemory;
use heesch_lattice::Triple;

/// The number of a version, between spaces.
fn append_version(version: Version, out: &mut Vec<u8>) -> Result<(), NoMemory>
    ensures ok { OnOk result (out.new.items ≡ out.old.items ++ version_text version) }
    ensures kept { take (length out.old.items) out.new.items ≡ out.old.items }
{
    match version {
        Version::One => append_bytes(b" 1 ", out),
        Version::Two => append_bytes(b" 2 ", out),
    }
}

fn append_subject(subject: Subject, out: &mut Vec<u8>) -> Result<(), NoMemory>
    ensures ok { OnOk result (out.new.items ≡ out.old.items ++ subject_word subject) }
    ensures kept { take (length out.old.items) out.new.items ≡ out.old.items }
{
    match subject {
        Subject::Size { n } => append_number(n, out),
        Subject::Given => append_bytes(b"given", out),
    }
}

fn append_title(header: &Header, out: &mut Vec<u8>) -> Result<(), NoMemory>
    ensures ok { OnOk result (out.new.items ≡ out.old.items ++ title_text header.now) }
    ensures kept { take (length out.old.items) out.new.items ≡ out.old.items }
{
    let word: &[u8] = if header.brief { b"brief" } else { b"heesch" };
    append_bytes(word, out)?;
    append_version(header.limits.version, out)?;
    append_bytes(header.grid.word().as_bytes(), out)?;
    append_byte(b' ', out)?;
    append_subject(header.subject, out)
}

fn append_limits(limits: &Limits, out: &mut Vec<u8>) -> Result<(), NoMemory>
    ensures ok { OnOk result (out.new.items ≡ out.old.items ++ limits_text limits.now) }
    ensures kept { take (length out.old.items) out.new.items ≡ out.old.items }
{
    append_labelled(b" turns ", limits.turns, out)?;
    append_labelled(b" levels ", limits.levels, out)?;
    append_labelled(b" domain ", limits.domain, out)?;
    append_labelled(b" size ", limits.size, out)
}

/// The first line of a catalogue.
pub fn append_header_line(header: &Header, out: &mut Vec<u8>) -> Result<(), NoMemory>
    ensures ok { OnOk result (out.new.items ≡ out.old.items ++ line_text (lines.Header header.now)) }
    ensures kept { take (length out.old.items) out.new.items ≡ out.old.items }
{
    append_title(header, out)?;
    append_limits(&header.limits, out)?;
    append_byte(b'\n', out)
}

/// The shape of an entry.
pub fn append_shape_line(cells: &[Cell], out: &mut Vec<u8>) -> Result<(), NoMemory>
    ensures ok { OnOk result (out.new.items ≡ out.old.items ++ line_text (lines.Shape cells.now)) }
    ensures kept { take (length out.old.items) out.new.items ≡ out.old.items }
{
    append_bytes(b"shape ", out)?;
    append_cells(cells, out)?;
    append_byte(b'\n', out)
}

fn append_tiles(kind: Kind, domain: u32, classes: u32, out: &mut Vec<u8>) -> Result<(), NoMemory>
    ensures ok { OnOk result (out.new.items ≡ out.old.items ++ verdict_text (verdicts.Tiles kind domain classes)) }
    ensures kept { take (length out.old.items) out.new.items ≡ out.old.items }
{
    append_bytes(b"tiles ", out)?;
    append_bytes(kind_word(kind), out)?;
    append_labelled(b" domain ", domain, out)?;
    append_labelled(b" classes ", classes, out)
}

/// A verdict that met a limit, the bytes before its numbers first.
fn append_stop(
    label: &[u8],
    h: u32,
    phase: Phase,
    at: u32,
    out: &mut Vec<u8>,
) -> Result<(), NoMemory>
    ensures ok { OnOk result (out.new.items
        ≡ out.old.items ++ (label.now ++ decimal h ++ codes " " ++ phase_text phase ++ codes " " ++ decimal at)) }
    ensures kept { take (length out.old.items) out.new.items ≡ out.old.items }
{
    append_labelled(label, h, out)?;
    append_byte(b' ', out)?;
    append_bytes(phase_word(phase), out)?;
    append_labelled(b" ", at, out)
}

fn append_verdict(verdict: Verdict, out: &mut Vec<u8>) -> Result<(), NoMemory>
    ensures ok { OnOk result (out.new.items ≡ out.old.items ++ verdict_text verdict) }
    ensures kept { take (length out.old.items) out.new.items ≡ out.old.items }
{
    match verdict {
        Verdict::Tiles {
            kind,
            domain,
            classes,
        } => append_tiles(kind, domain, classes, out),
        Verdict::Heesch { h, m } => {
            append_labelled(b"heesch ", h, out)?;
            append_labelled(b" nontiler ", m, out)
        }
        Verdict::Levels { h } => append_labelled(b"undecided levels ", h, out),
        Verdict::Holes { h } => append_labelled(b"undecided holes ", h, out),
        Verdict::Turns { h, phase, at } => append_stop(b"undecided turns ", h, phase, at, out),
        Verdict::Size { h, phase, at } => append_stop(b"undecided size ", h, phase, at, out),
    }
}

/// The verdict of an entry.
pub fn append_verdict_line(verdict: Verdict, out: &mut Vec<u8>) -> Result<(), NoMemory>
    ensures ok { OnOk result (out.new.items ≡ out.old.items ++ line_text (lines.Verdict verdict)) }
    ensures kept { take (length out.old.items) out.new.items ≡ out.old.items }
    ensures naturals { HasNaturals (lines.Verdict verdict) }
{
    append_bytes(b"verdict ", out)?;
    append_verdict(verdict, out)?;
    append_byte(b'\n', out)
}

/// The lattice of a cover.
pub fn append_lattice_line(triple: &Triple, out: &mut Vec<u8>) -> Result<(), NoMemory>
    ensures ok { OnOk result (out.new.items ≡ out.old.items ++ line_text (lines.Lattice triple.now)) }
    ensures kept { take (length out.old.items) out.new.items ≡ out.old.items }
{
    append_bytes(b"lattice ", out)?;
    append_triple(triple, out)?;
    append_byte(b'\n', out)
}

/// A tile of a cover, with its class.
pub fn append_tile_line(place: Iso, member: &Member, out: &mut Vec<u8>) -> Result<(), NoMemory>
    ensures ok { OnOk result (out.new.items ≡ out.old.items ++ line_text (lines.Tile place member.now)) }
    ensures kept { take (length out.old.items) out.new.items ≡ out.old.items }
    ensures naturals { OnOk result (HasNaturals (lines.Tile place member.now)) }
{
    append_bytes(b"tile ", out)?;
    append_iso(place, out)?;
    append_labelled(b" class ", member.class, out)?;
    append_bytes(b" by ", out)?;
    append_iso(member.by, out)?;
    append_byte(b'\n', out)
}

/// A line of a number behind its label.
fn append_number_line(label: &[u8], number: u32, out: &mut Vec<u8>) -> Result<(), NoMemory>
    ensures ok { OnOk result (out.new.items ≡ out.old.items ++ ((label.now ++ decimal number) ++ codes "\n")) }
    ensures kept { take (length out.old.items) out.new.items ≡ out.old.items }
    ensures natural { IsNatural number }
{
    append_labelled(label, number, out)?;
    append_byte(b'\n', out)
}

/// A line of words, each behind a space, behind their label.
fn append_words_line<W: Word>(label: &[u8], words: &[W], out: &mut Vec<u8>) -> Result<(), NoMemory>
    ensures ok { OnOk result
        (out.new.items ≡ out.old.items ++ ((label.now ++ spaced W.text words.now) ++ codes "\n")) }
    ensures kept { take (length out.old.items) out.new.items ≡ out.old.items }
    ensures fit { OnOk result (AllByRecursion W.fits words.now) }
{
    append_bytes(label, out)?;
    append_spaced(words, out)?;
    append_byte(b'\n', out)
}

/// A line of the level of a search and the word for its end, behind their label.
fn append_outcome_line(
    label: &[u8],
    level: u32,
    word: &[u8],
    out: &mut Vec<u8>,
) -> Result<(), NoMemory>
    ensures ok { OnOk result (out.new.items
        ≡ out.old.items ++ ((label.now ++ decimal level ++ codes " " ++ word.now) ++ codes "\n")) }
    ensures kept { take (length out.old.items) out.new.items ≡ out.old.items }
    ensures natural { IsNatural level }
{
    append_labelled(label, level, out)?;
    append_byte(b' ', out)?;
    append_bytes(word, out)?;
    append_byte(b'\n', out)
}

/// The number of hole-free coronas.
pub fn append_coronas_line(count: u32, out: &mut Vec<u8>) -> Result<(), NoMemory>
    ensures ok { OnOk result (out.new.items ≡ out.old.items ++ line_text (lines.Coronas count)) }
    ensures kept { take (length out.old.items) out.new.items ≡ out.old.items }
    ensures naturals { HasNaturals (lines.Coronas count) }
{
    append_number_line(b"coronas ", count, out)
}

/// A layer of coronas.
pub fn append_layer_line(places: &[Iso], out: &mut Vec<u8>) -> Result<(), NoMemory>
    ensures ok { OnOk result (out.new.items ≡ out.old.items ++ line_text (lines.Layer places.now)) }
    ensures kept { take (length out.old.items) out.new.items ≡ out.old.items }
{
    append_words_line(b"layer", places, out)
}

/// How the search for one corona more ended.
pub fn append_wall_line(level: u32, outcome: Outcome, out: &mut Vec<u8>) -> Result<(), NoMemory>
    ensures ok { OnOk result (out.new.items ≡ out.old.items ++ line_text (lines.Wall level outcome)) }
    ensures kept { take (length out.old.items) out.new.items ≡ out.old.items }
    ensures naturals { HasNaturals (lines.Wall level outcome) }
{
    append_outcome_line(b"wall ", level, outcome.word(), out)
}

/// How the search with holes allowed ended.
pub fn append_bare_line(level: u32, outcome: BareOutcome, out: &mut Vec<u8>) -> Result<(), NoMemory>
    ensures ok { OnOk result (out.new.items ≡ out.old.items ++ line_text (lines.Bare level outcome)) }
    ensures kept { take (length out.old.items) out.new.items ≡ out.old.items }
    ensures naturals { HasNaturals (lines.Bare level outcome) }
{
    match outcome {
        BareOutcome::Same => append_outcome_line(b"bare ", level, b"same", out),
        BareOutcome::Open => append_outcome_line(b"bare ", level, b"open", out),
        BareOutcome::Searched { outcome } => {
            append_outcome_line(b"bare ", level, outcome.word(), out)
        }
    }
}

/// The number of layers that were found with holes allowed.
pub fn append_open_line(count: u32, out: &mut Vec<u8>) -> Result<(), NoMemory>
    ensures ok { OnOk result (out.new.items ≡ out.old.items ++ line_text (lines.Open count)) }
    ensures kept { take (length out.old.items) out.new.items ≡ out.old.items }
    ensures naturals { HasNaturals (lines.Open count) }
{
    append_number_line(b"open ", count, out)
}

/// A triple, and whether it was refuted.
pub fn append_triple_line(triple: &Triple, refuted: bool, out: &mut Vec<u8>) -> Result<(), NoMemory>
    ensures ok { OnOk result (out.new.items ≡ out.old.items ++ line_text (lines.Triple triple.now refuted)) }
    ensures kept { take (length out.old.items) out.new.items ≡ out.old.items }
{
    let word: &[u8] = if refuted { b" refuted" } else { b" spent" };
    append_bytes(b"triple ", out)?;
    append_triple(triple, out)?;
    append_bytes(word, out)?;
    append_byte(b'\n', out)
}

/// A learnt clause, with its hints.
pub fn append_learn_line(clause: &[Lit], hints: &[u32], out: &mut Vec<u8>) -> Result<(), NoMemory>
    ensures ok { OnOk result (out.new.items ≡ out.old.items ++ line_text (lines.Learn clause.now hints.now)) }
    ensures kept { take (length out.old.items) out.new.items ≡ out.old.items }
    ensures naturals { OnOk result (HasNaturals (lines.Learn clause.now hints.now)) }
{
    append_bytes(b"learn", out)?;
    append_spaced(clause, out)?;
    append_words_line(b" :", hints, out)
}

/// A cut.
pub fn append_cut_line(cut: &Cut, out: &mut Vec<u8>) -> Result<(), NoMemory>
    ensures ok { OnOk result (out.new.items ≡ out.old.items ++ line_text (lines.Cut cut.now)) }
    ensures kept { take (length out.old.items) out.new.items ≡ out.old.items }
    ensures naturals { OnOk result (HasNaturals (lines.Cut cut.now)) }
{
    append_labelled(b"cut ", cut.level, out)?;
    append_bytes(b" : ", out)?;
    append_cells(cut.hole.as_slice(), out)?;
    append_words_line(b" :", cut.border.as_slice(), out)
}

/// The last line of a refutation.
pub fn append_empty_line(hints: &[u32], out: &mut Vec<u8>) -> Result<(), NoMemory>
    ensures ok { OnOk result (out.new.items ≡ out.old.items ++ line_text (lines.Empty hints.now)) }
    ensures kept { take (length out.old.items) out.new.items ≡ out.old.items }
    ensures naturals { OnOk result (HasNaturals (lines.Empty hints.now)) }
{
    append_words_line(b"empty", hints, out)
}

/// The last line of a search that took all its turns.
pub fn append_spent_line(out: &mut Vec<u8>) -> Result<(), NoMemory>
    ensures ok { OnOk result (out.new.items ≡ out.old.items ++ line_text lines.Spent) }
    ensures kept { take (length out.old.items) out.new.items ≡ out.old.items }
{
    append_bytes(b"spent\n", out)
}

/// The last line of a catalogue.
pub fn append_end_line(count: u32, out: &mut Vec<u8>) -> Result<(), NoMemory>
    ensures ok { OnOk result (out.new.items ≡ out.old.items ++ line_text (lines.End count)) }
    ensures kept { take (length out.old.items) out.new.items ≡ out.old.items }
{
    append_number_line(b"end ", count, out)
}
