//! Taking the parts of an entry from the front of its lines.
ghost use Rattle.std.specs.Prelude.{◌≡◌, drop, IfOk, OnOk};
ghost use Rattle.heesch_grammar.specs.Parts.{proof_at, behind_proof, layers_at, behind_layers, places_at, members_at};
ghost use Rattle.heesch_grammar.specs.Parts.{triples_at, tile_of, lattice_at, triple_of};

use heesch_cert::{Isos, Member, Proof, Step, TripleProof};
use heesch_grid::Iso;
use heesch_io::{NoMemory, Seq};
use heesch_lattice::Triple;
use heesch_text::Line;
use std::alloc::Global;
use std::collections::VecDeque;

/// The steps of a proof and its last line: `empty`, or any other, which holds nothing more.
pub fn take_proof(alloc: Global, lines: &mut VecDeque<Line>) -> Result<Proof, NoMemory>
    ensures proof { IfOk result (λ proof. proof ≡ proof_at lines.old.items) }
    ensures rest { OnOk result (lines.new.items ≡ behind_proof lines.old.items) }
{
    let mut steps = Seq::new(alloc);
    while let Some(line) = lines.pop_front() {
        match line {
            Line::Learn { clause, hints } => steps.push(Step::Learn { clause, hints })?,
            Line::Cut { cut } => steps.push(Step::Cut { cut })?,
            Line::Empty { hints } => {
                let last = Some(hints);
                return Ok(Proof { steps, last });
            }
            _ => return Ok(Proof { steps, last: None }),
        }
    }
    Ok(Proof { steps, last: None })
}

/// This many layers, or as many as there are.
pub fn take_layers(
    alloc: Global,
    count: u32,
    lines: &mut VecDeque<Line>,
) -> Result<Seq<Isos>, NoMemory>
    ensures layers { IfOk result (λ layers. layers ≡ layers_at count lines.old.items) }
    ensures rest { OnOk result (lines.new.items ≡ behind_layers count lines.old.items) }
{
    let mut layers = Seq::new(alloc);
    for _i in 0..count {
        let Some(line) = lines.pop_front() else {
            return Ok(layers);
        };
        let Line::Layer { places } = line else {
            return Ok(layers);
        };
        layers.push(places)?;
    }
    Ok(layers)
}

/// The tiles, each with its member.
pub fn take_tiles(
    alloc: Global,
    lines: &mut VecDeque<Line>,
) -> Result<(Isos, Seq<Member>), NoMemory>
    ensures places { IfOk result (λ tiles. tiles.0 ≡ places_at lines.old.items) }
    ensures members { IfOk result (λ tiles. tiles.1 ≡ members_at lines.old.items) }
{
    let mut places = Seq::new(alloc);
    let mut members = Seq::new(alloc);
    while let Some(line) = lines.pop_front() {
        let Some((place, member)) = tile_of(&line) else {
            return Ok((places, members));
        };
        places.push(place)?;
        members.push(member)?;
    }
    Ok((places, members))
}

/// The place and the member of a tile line.
fn tile_of(line: &Line) -> Option<(Iso, Member)>
    ensures { result ≡ tile_of line.now }
{
    match line {
        Line::Tile { place, member } => Some((*place, *member)),
        _ => None,
    }
}

/// The lattice, where its line comes next.
pub fn take_lattice(lines: &mut VecDeque<Line>) -> Option<Triple>
    ensures triple { result ≡ lattice_at lines.old.items }
    ensures rest { lines.new.items ≡ drop 1 lines.old.items }
{
    let line = lines.pop_front()?;
    match &line {
        Line::Lattice { triple } => Some(*triple),
        _ => None,
    }
}

/// The triples, each with its proof.
pub fn take_triples(alloc: Global, lines: &mut VecDeque<Line>) -> Result<Seq<TripleProof>, NoMemory>
    ensures { IfOk result (λ triples. triples ≡ triples_at lines.old.items) }
{
    let mut triples = Seq::new(alloc);
    while let Some(line) = lines.pop_front() {
        let Some(triple) = triple_of(&line) else {
            return Ok(triples);
        };
        let proof = take_proof(alloc, lines)?;
        triples.push(TripleProof { triple, proof })?;
    }
    Ok(triples)
}

/// The triple of a triple line.
fn triple_of(line: &Line) -> Option<Triple>
    ensures { result ≡ triple_of line.now }
{
    match line {
        Line::Triple { triple, refuted: _ } => Some(*triple),
        _ => None,
    }
}
