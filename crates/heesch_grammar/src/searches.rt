//! Taking the evidence of a search from the lines of an entry.
ghost use Rattle.std.specs.Prelude.{◌≡◌, IfOk, OnOk, Some};
ghost use Rattle.heesch_grammar.specs.Entries.{HasCoronas, IsSearchAt};
ghost use Rattle.heesch_grammar.specs.Parts.{proof_at, behind_proof, wall_end, wall_as, behind_wall_as, bare_end};
ghost use Rattle.heesch_grammar.specs.Parts.{bare_as, behind_bare_as, open_count, wider_at, behind_wider, search_at};

use crate::parts::{take_layers, take_proof, take_triples};
use heesch_cert::{Bare, Evidence, Layers, Wall};
use heesch_io::NoMemory;
use heesch_text::{BareOutcome, Line, Outcome};
use std::alloc::Global;
use std::collections::VecDeque;

/// The evidence of a search. Condition: it is next.
pub fn take_search(alloc: Global, lines: &mut VecDeque<Line>) -> Result<Evidence, NoMemory>
    requires { HasCoronas lines.old.items }
    ensures { IfOk result (IsSearchAt lines.old.items) }
{
    let Some(Line::Coronas { count }) = lines.pop_front() else {
        unreachable!();
    };
    take_searched(alloc, count, lines)
}

/// The evidence of a search, behind a `coronas` line with this number.
fn take_searched(
    alloc: Global,
    count: u32,
    lines: &mut VecDeque<Line>,
) -> Result<Evidence, NoMemory>
    ensures { IfOk result (λ evidence. evidence ≡ search_at count lines.old.items) }
{
    let layers = take_layers(alloc, count, lines)?;
    let wall = match wall_end(lines) {
        None => Wall::Absent,
        Some(outcome) => take_wall(alloc, outcome, lines)?,
    };
    let bare = match bare_end(lines) {
        None => Bare::Absent,
        Some(outcome) => take_bare(alloc, outcome, lines)?,
    };
    let wider = take_wider(alloc, lines)?;
    let triples = take_triples(alloc, lines)?;
    Ok(Evidence::Search {
        free: Layers { layers },
        wall,
        bare,
        wider,
        triples,
    })
}

/// The wall of a search that ended so, its line at the front.
fn take_wall(alloc: Global, outcome: Outcome, lines: &mut VecDeque<Line>) -> Result<Wall, NoMemory>
    ensures wall { IfOk result (λ wall. wall ≡ wall_as (Some outcome) lines.old.items) }
    ensures rest { OnOk result (lines.new.items ≡ behind_wall_as (Some outcome) lines.old.items) }
{
    lines.pop_front();
    match outcome {
        Outcome::Refuted => {
            let proof = take_proof(alloc, lines)?;
            Ok(Wall::Refuted { proof })
        }
        Outcome::Spent => {
            let proof = take_proof(alloc, lines)?;
            Ok(Wall::Spent { proof })
        }
        Outcome::Size => Ok(Wall::Size),
    }
}

/// How the search behind the wall ended, where its line comes next.
fn wall_end(lines: &VecDeque<Line>) -> Option<Outcome>
    ensures { result ≡ wall_end lines.now.items }
{
    match lines.front() {
        Some(Line::Wall { level: _, outcome }) => Some(*outcome),
        _ => None,
    }
}

/// The end of a search with holes allowed that ended so, its line at the front.
fn take_bare(
    alloc: Global,
    outcome: BareOutcome,
    lines: &mut VecDeque<Line>,
) -> Result<Bare, NoMemory>
    ensures bare { IfOk result (λ bare. bare ≡ bare_as (Some outcome) lines.old.items) }
    ensures rest { OnOk result (lines.new.items ≡ behind_bare_as (Some outcome) lines.old.items) }
{
    lines.pop_front();
    match outcome {
        BareOutcome::Same => Ok(Bare::Same),
        BareOutcome::Open => Ok(Bare::Open),
        BareOutcome::Searched {
            outcome: Outcome::Refuted,
        } => {
            let proof = take_proof(alloc, lines)?;
            Ok(Bare::Refuted { proof })
        }
        BareOutcome::Searched {
            outcome: Outcome::Spent,
        } => {
            let proof = take_proof(alloc, lines)?;
            Ok(Bare::Spent { proof })
        }
        BareOutcome::Searched {
            outcome: Outcome::Size,
        } => Ok(Bare::Size),
    }
}

/// How the search with holes allowed ended, where its line comes next.
fn bare_end(lines: &VecDeque<Line>) -> Option<BareOutcome>
    ensures { result ≡ bare_end lines.now.items }
{
    match lines.front() {
        Some(Line::Bare { level: _, outcome }) => Some(*outcome),
        _ => None,
    }
}

/// The layers found with holes allowed, where they are written.
fn take_wider(alloc: Global, lines: &mut VecDeque<Line>) -> Result<Option<Layers>, NoMemory>
    ensures wider { IfOk result (λ wider. wider ≡ wider_at lines.old.items) }
    ensures rest { OnOk result (lines.new.items ≡ behind_wider lines.old.items) }
{
    let Some(count) = open_count(lines) else {
        return Ok(None);
    };
    lines.pop_front();
    let layers = take_layers(alloc, count, lines)?;
    Ok(Some(Layers { layers }))
}

/// Their number, where its line comes next.
fn open_count(lines: &VecDeque<Line>) -> Option<u32>
    ensures { result ≡ open_count lines.now.items }
{
    match lines.front() {
        Some(Line::Open { count }) => Some(*count),
        _ => None,
    }
}
