//! Making an entry of its lines.
ghost use Rattle.std.specs.Prelude.{◌≡◌, ◌∷◌, [], true, false, IfOk};
ghost use Rattle.heesch_text.specs.declared.line.Line.TheVariants as line;
ghost use Rattle.heesch_text.specs.Catalogue.{entry_lines, evidence_lines};
ghost use Rattle.heesch_grammar.specs.Grammar.{judged};
ghost use Rattle.heesch_grammar.specs.Entries.{AreEntryLines, HoldsItsLines, HoldsEvidence, Begin, HasLattice};
ghost use Rattle.heesch_grammar.specs.Entries.{IsCoverAt, Lead};

use crate::parts::{take_lattice, take_tiles};
use crate::searches::take_search;
use heesch_cert::{Cells, Classes, Entry, Evidence, Tiling, Verdict};
use heesch_io::NoMemory;
use heesch_text::Line;
use std::alloc::Global;
use std::collections::VecDeque;

/// The entry of a full text that has these lines and holds nothing beyond them. Condition: they are the lines of one
/// entry. Want of memory alone makes it fail. Cost: each line is looked at once, and moved into the entry.
pub fn entry_of(alloc: Global, lines: VecDeque<Line>) -> Result<Entry, NoMemory>
    requires { AreEntryLines false lines.items }
    ensures lines { IfOk result (λ entry. entry_lines entry ≡ lines.items) }
    ensures holds { IfOk result HoldsItsLines }
{
    let mut lines = lines;
    let (cells, verdict) = take_heading(&mut lines);
    let evidence = take_evidence(alloc, verdict, &mut lines)?;
    Ok(Entry {
        cells,
        verdict,
        evidence,
    })
}

/// The cells and the verdict of an entry of a brief text, which has these lines. Condition: they are the lines of one
/// entry. It takes no memory.
pub fn brief_of(lines: VecDeque<Line>) -> (Cells, Verdict)
    requires { AreEntryLines true lines.items }
    ensures { lines.items ≡ line.Shape result.0 ∷ line.Verdict result.1 ∷ [] }
{
    let mut lines = lines;
    take_heading(&mut lines)
}

/// The cells and the verdict.
fn take_heading(lines: &mut VecDeque<Line>) -> (Cells, Verdict)
    requires { Begin lines.old.items }
    ensures { lines.old.items ≡ line.Shape result.0 ∷ line.Verdict result.1 ∷ lines.new.items }
{
    let Some(Line::Shape { cells }) = lines.pop_front() else {
        unreachable!();
    };
    let Some(Line::Verdict { verdict }) = lines.pop_front() else {
        unreachable!();
    };
    (cells, verdict)
}

/// The evidence behind this verdict.
fn take_evidence(
    alloc: Global,
    verdict: Verdict,
    lines: &mut VecDeque<Line>,
) -> Result<Evidence, NoMemory>
    requires { Lead (judged false verdict) lines.old.items }
    ensures lines { IfOk result (λ evidence. evidence_lines verdict evidence ≡ lines.old.items) }
    ensures holds { IfOk result (HoldsEvidence verdict) }
{
    match verdict {
        Verdict::Tiles {
            kind: _,
            domain: _,
            classes,
        } => take_cover(alloc, classes, lines),
        _ => take_search(alloc, lines),
    }
}

/// A tiling with its classes, of which there are so many.
fn take_cover(alloc: Global, count: u32, lines: &mut VecDeque<Line>) -> Result<Evidence, NoMemory>
    requires { HasLattice lines.old.items }
    ensures { IfOk result (IsCoverAt count lines.old.items) }
{
    let Some(triple) = take_lattice(lines) else {
        unreachable!();
    };
    let (places, members) = take_tiles(alloc, lines)?;
    Ok(Evidence::Cover {
        tiling: Tiling { triple, places },
        classes: Classes { count, members },
    })
}
