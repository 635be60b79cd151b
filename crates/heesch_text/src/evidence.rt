//! The lines of an entry's evidence, added at the end of a text.
ghost use Rattle.std.specs.Prelude.{◌≡◌, ◌+◌, ◌^◌, ◌≤◌, ◌++◌, ◌∷◌, [], length, map, take, OnOk, OnErr, IfOk};
ghost use Rattle.std.specs.List.{flat_map, AllByRecursion};
ghost use Rattle.heesch_text.specs.declared.line.Line.TheVariants as lines;
ghost use Rattle.heesch_text.specs.declared.line.BareOutcome.TheVariants as bare_outcomes;
ghost use Rattle.heesch_text.specs.Lines.{line_text, text_of};
ghost use Rattle.heesch_text.specs.Naturals.{HasNaturals};
ghost use Rattle.heesch_text.specs.Catalogue.{
  layer_lines,
  coronas_lines,
  proof_lines,
  step_line,
  last_line,
  wall_lines,
  bare_lines,
  wider_lines,
  wider_count,
  triple_lines,
  tile_lines,
  cover_lines,
  after_layers,
  evidence_lines,
};

use crate::line::{BareOutcome, Outcome};
use crate::lines::{
    append_bare_line, append_coronas_line, append_cut_line, append_empty_line, append_lattice_line,
    append_layer_line, append_learn_line, append_open_line, append_spent_line, append_tile_line,
    append_triple_line, append_wall_line,
};
use heesch_cert::{
    Bare, Classes, Evidence, Isos, Layers, Member, Proof, Step, Tiling, TripleProof, Verdict, Wall,
};
use heesch_cnf::Hints;
use heesch_grid::Iso;
use heesch_io::NoMemory;

/// The evidence of an entry with this verdict.
pub fn append_evidence(
    verdict: Verdict,
    evidence: &Evidence,
    out: &mut Vec<u8>,
) -> Result<(), NoMemory>
    ensures ok { OnOk result (out.new.items ≡ out.old.items ++ text_of (evidence_lines verdict evidence.now)) }
    ensures kept { take (length out.old.items) out.new.items ≡ out.old.items }
    ensures naturals { OnOk result (AllByRecursion HasNaturals (evidence_lines verdict evidence.now)) }
{
    match evidence {
        Evidence::Cover { tiling, classes } => append_cover(tiling, classes, out),
        Evidence::Search {
            free,
            wall,
            bare,
            wider,
            triples,
        } => {
            append_coronas(free, out)?;
            append_after_layers(
                number_of(free.layers.len() + 1)?,
                verdict.last_number(),
                wall,
                bare,
                wider,
                triples.as_slice(),
                out,
            )
        }
    }
}

/// The number of coronas, and their layers.
pub fn append_coronas(coronas: &Layers, out: &mut Vec<u8>) -> Result<(), NoMemory>
    ensures ok { OnOk result (out.new.items ≡ out.old.items ++ text_of (coronas_lines coronas.now.layers)) }
    ensures kept { take (length out.old.items) out.new.items ≡ out.old.items }
    ensures naturals { OnOk result (AllByRecursion HasNaturals (coronas_lines coronas.now.layers)) }
{
    let layers = coronas.layers.as_slice();
    append_coronas_line(number_of(layers.len())?, out)?;
    append_layers(layers, out)
}

/// A count as a number of a line. The numbers of lines fit 32 bits, and a count that doesn't is answered as want of
/// memory.
fn number_of(count: usize) -> Result<u32, NoMemory>
    ensures ok { IfOk result (λ number. number ≡ count) }
    ensures err { OnErr result (2 ^ 32 ≤ count) }
{
    let Ok(number) = u32::try_from(count) else {
        return Err(NoMemory);
    };
    Ok(number)
}

/// What follows the hole-free coronas, with the level of the wall and the last number of the verdict.
fn append_after_layers(
    level: u32,
    last: u32,
    wall: &Wall,
    bare: &Bare,
    wider: &Option<Layers>,
    triples: &[TripleProof],
    out: &mut Vec<u8>,
) -> Result<(), NoMemory>
    ensures ok { OnOk result (out.new.items
        ≡ out.old.items ++ text_of (after_layers level last wall.now bare.now wider.now triples.now)) }
    ensures kept { take (length out.old.items) out.new.items ≡ out.old.items }
    ensures naturals { OnOk result
        (AllByRecursion HasNaturals (after_layers level last wall.now bare.now wider.now triples.now)) }
{
    append_wall(level, wall, out)?;
    append_bare(level, count_wider(wider)?, last, bare, out)?;
    append_wider(wider, out)?;
    append_triples(triples, out)
}

fn append_cover(tiling: &Tiling, classes: &Classes, out: &mut Vec<u8>) -> Result<(), NoMemory>
    ensures ok { OnOk result (out.new.items ≡ out.old.items ++ text_of (cover_lines tiling.now classes.now)) }
    ensures kept { take (length out.old.items) out.new.items ≡ out.old.items }
    ensures naturals { OnOk result (AllByRecursion HasNaturals (cover_lines tiling.now classes.now)) }
{
    append_lattice_line(&tiling.triple, out)?;
    append_tiles(tiling.places.as_slice(), classes.members.as_slice(), out)
}

fn append_tiles(places: &[Iso], members: &[Member], out: &mut Vec<u8>) -> Result<(), NoMemory>
    ensures ok { OnOk result (out.new.items ≡ out.old.items ++ text_of (tile_lines places.now members.now)) }
    ensures kept { take (length out.old.items) out.new.items ≡ out.old.items }
    ensures naturals { OnOk result (AllByRecursion HasNaturals (tile_lines places.now members.now)) }
{
    let count = places.len().min(members.len());
    for i in 0..count {
        append_tile_line(places[i], &members[i], out)?;
    }
    Ok(())
}

/// A line for each layer.
pub fn append_layers(layers: &[Isos], out: &mut Vec<u8>) -> Result<(), NoMemory>
    ensures ok { OnOk result (out.new.items ≡ out.old.items ++ text_of (layer_lines layers.now)) }
    ensures kept { take (length out.old.items) out.new.items ≡ out.old.items }
    ensures naturals { OnOk result (AllByRecursion HasNaturals (layer_lines layers.now)) }
{
    for places in layers {
        append_layer_line(places.as_slice(), out)?;
    }
    Ok(())
}

fn append_wall(level: u32, wall: &Wall, out: &mut Vec<u8>) -> Result<(), NoMemory>
    ensures ok { OnOk result (out.new.items ≡ out.old.items ++ text_of (wall_lines level wall.now)) }
    ensures kept { take (length out.old.items) out.new.items ≡ out.old.items }
    ensures naturals { OnOk result (AllByRecursion HasNaturals (wall_lines level wall.now)) }
{
    match wall {
        Wall::Absent => Ok(()),
        Wall::Refuted { proof } => {
            append_wall_line(level, Outcome::Refuted, out)?;
            append_proof(proof, out)
        }
        Wall::Spent { proof } => {
            append_wall_line(level, Outcome::Spent, out)?;
            append_proof(proof, out)
        }
        Wall::Size => append_wall_line(level, Outcome::Size, out),
    }
}

fn append_bare(
    level: u32,
    found: u32,
    last: u32,
    bare: &Bare,
    out: &mut Vec<u8>,
) -> Result<(), NoMemory>
    ensures ok { OnOk result (out.new.items ≡ out.old.items ++ text_of (bare_lines level found last bare.now)) }
    ensures kept { take (length out.old.items) out.new.items ≡ out.old.items }
    ensures naturals { OnOk result (AllByRecursion HasNaturals (bare_lines level found last bare.now)) }
{
    match bare {
        Bare::Absent => Ok(()),
        Bare::Same => append_bare_line(level, BareOutcome::Same, out),
        Bare::Refuted { proof } => append_searched(last, Outcome::Refuted, proof, out),
        Bare::Spent { proof } => append_searched(last, Outcome::Spent, proof, out),
        Bare::Size => {
            let outcome = BareOutcome::Searched {
                outcome: Outcome::Size,
            };
            append_bare_line(last, outcome, out)
        }
        Bare::Open => append_bare_line(found, BareOutcome::Open, out),
    }
}

/// A search with holes allowed, and its proof.
fn append_searched(
    level: u32,
    outcome: Outcome,
    proof: &Proof,
    out: &mut Vec<u8>,
) -> Result<(), NoMemory>
    ensures ok { OnOk result
        (out.new.items ≡ out.old.items ++ text_of
        (lines.Bare level (bare_outcomes.Searched outcome) ∷ proof_lines proof.now)) }
    ensures kept { take (length out.old.items) out.new.items ≡ out.old.items }
    ensures naturals { OnOk result
        (AllByRecursion HasNaturals (lines.Bare level (bare_outcomes.Searched outcome) ∷ proof_lines proof.now)) }
{
    append_bare_line(level, BareOutcome::Searched { outcome }, out)?;
    append_proof(proof, out)
}

/// The number of layers that were found with holes allowed, or 0.
fn count_wider(wider: &Option<Layers>) -> Result<u32, NoMemory>
    ensures ok { IfOk result (λ count. count ≡ wider_count wider.now) }
    ensures err { OnErr result (2 ^ 32 ≤ wider_count wider.now) }
{
    match wider {
        None => Ok(0),
        Some(wider) => number_of(wider.layers.len()),
    }
}

fn append_wider(wider: &Option<Layers>, out: &mut Vec<u8>) -> Result<(), NoMemory>
    ensures ok { OnOk result (out.new.items ≡ out.old.items ++ text_of (wider_lines wider.now)) }
    ensures kept { take (length out.old.items) out.new.items ≡ out.old.items }
    ensures naturals { OnOk result (AllByRecursion HasNaturals (wider_lines wider.now)) }
{
    match wider {
        None => Ok(()),
        Some(wider) => {
            append_open_line(number_of(wider.layers.len())?, out)?;
            append_layers(wider.layers.as_slice(), out)
        }
    }
}

fn append_triples(triples: &[TripleProof], out: &mut Vec<u8>) -> Result<(), NoMemory>
    ensures ok { OnOk result (out.new.items ≡ out.old.items ++ text_of (flat_map triple_lines triples.now)) }
    ensures kept { take (length out.old.items) out.new.items ≡ out.old.items }
    ensures naturals { OnOk result (AllByRecursion HasNaturals (flat_map triple_lines triples.now)) }
{
    for triple in triples {
        append_triple_line(&triple.triple, triple.proof.last.is_some(), out)?;
        append_proof(&triple.proof, out)?;
    }
    Ok(())
}

/// The steps and the last line of a proof.
pub fn append_proof(proof: &Proof, out: &mut Vec<u8>) -> Result<(), NoMemory>
    ensures ok { OnOk result (out.new.items ≡ out.old.items ++ text_of (proof_lines proof.now)) }
    ensures kept { take (length out.old.items) out.new.items ≡ out.old.items }
    ensures naturals { OnOk result (AllByRecursion HasNaturals (proof_lines proof.now)) }
{
    append_steps(proof.steps.as_slice(), out)?;
    append_last(&proof.last, out)
}

fn append_steps(steps: &[Step], out: &mut Vec<u8>) -> Result<(), NoMemory>
    ensures ok { OnOk result (out.new.items ≡ out.old.items ++ text_of (map step_line steps.now)) }
    ensures kept { take (length out.old.items) out.new.items ≡ out.old.items }
    ensures naturals { OnOk result (AllByRecursion HasNaturals (map step_line steps.now)) }
{
    for step in steps {
        append_step(step, out)?;
    }
    Ok(())
}

fn append_step(step: &Step, out: &mut Vec<u8>) -> Result<(), NoMemory>
    ensures ok { OnOk result (out.new.items ≡ out.old.items ++ line_text (step_line step.now)) }
    ensures kept { take (length out.old.items) out.new.items ≡ out.old.items }
    ensures naturals { OnOk result (HasNaturals (step_line step.now)) }
{
    match step {
        Step::Learn { clause, hints } => {
            append_learn_line(clause.as_slice(), hints.as_slice(), out)
        }
        Step::Cut { cut } => append_cut_line(cut, out),
    }
}

fn append_last(last: &Option<Hints>, out: &mut Vec<u8>) -> Result<(), NoMemory>
    ensures ok { OnOk result (out.new.items ≡ out.old.items ++ line_text (last_line last.now)) }
    ensures kept { take (length out.old.items) out.new.items ≡ out.old.items }
    ensures naturals { OnOk result (HasNaturals (last_line last.now)) }
{
    match last {
        None => append_spent_line(out),
        Some(hints) => append_empty_line(hints.as_slice(), out),
    }
}
