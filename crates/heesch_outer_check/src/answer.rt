//! The answer on an outer number that bytes are.
ghost use Rattle.std.specs.Prelude.{◌≡◌, ◌++◌, ℕ, ◌<◌, ◌^◌, List, codes, IfOk, MatchOption};
ghost use Rattle.heesch_cert.specs.declared.entry.Layers.{Layers as LayersOf};
ghost use Rattle.heesch_cert.specs.declared.proof.Proof.{Proof as ProofOf};
ghost use Rattle.heesch_text.specs.Catalogue.{layer_lines, proof_lines};
ghost use Rattle.heesch_outer.specs.Record.{number_line};
ghost use Rattle.heesch_outer.specs.declared.answer.OuterAnswer.{OuterAnswer as AnswerOf};
ghost use Rattle.heesch_outer_check.specs.Lines.{AreLinesOf};
ghost use Rattle.heesch_outer_check.specs.ReadableRecords.{IsAnswerOf};

use crate::front::{after, after_number};
use crate::lines::all_lines;
use crate::parts::{layers_of, proof_of};
use heesch_cert::{Layers, Proof};
use heesch_io::NoMemory;
use heesch_outer::OuterAnswer;
use std::alloc::Global;

/// The layers whose lines the bytes are, if they are.
fn read_layers(alloc: Global, bytes: &[u8]) -> Result<Option<Layers>, NoMemory>
    ensures { IfOk result
        (λ r. MatchOption r ((layers : LayersOf) → AreLinesOf bytes.now (layer_lines layers.layers) → ⊥)
        (λ layers. AreLinesOf bytes.now (layer_lines layers.layers))) }
{
    let Some(lines) = all_lines(alloc, bytes)? else {
        return Ok(None);
    };
    let Some(layers) = layers_of(alloc, lines)? else {
        return Ok(None);
    };
    Ok(Some(Layers { layers }))
}

/// The proof whose lines the bytes are, if they are.
fn read_proof(alloc: Global, bytes: &[u8]) -> Result<Option<Proof>, NoMemory>
    ensures { IfOk result
        (λ r. MatchOption r ((proof : ProofOf) → AreLinesOf bytes.now (proof_lines proof) → ⊥)
        (λ proof. AreLinesOf bytes.now (proof_lines proof))) }
{
    let Some(lines) = all_lines(alloc, bytes)? else {
        return Ok(None);
    };
    proof_of(alloc, lines)
}

/// The answer by layers or by a proof that the bytes are, behind the line `hc` of the entry's number.
fn read_searched(alloc: Global, h: u64, bytes: &[u8]) -> Result<Option<OuterAnswer>, NoMemory>
    requires { h < 2 ^ 32 }
    ensures { IfOk result
        (λ r. MatchOption r ((answer : AnswerOf) → IsAnswerOf h (number_line (codes "hc ") h ++ bytes.now) answer → ⊥)
        (IsAnswerOf h (number_line (codes "hc ") h ++ bytes.now))) }
{
    if let Some(rest) = after_number(b"hh ", h + 1, bytes) {
        let Some(layers) = read_layers(alloc, rest)? else {
            return Ok(None);
        };
        return Ok(Some(OuterAnswer::More { layers }));
    }
    if let Some(rest) = after_number(b"hh ", h, bytes) {
        let Some(proof) = read_proof(alloc, rest)? else {
            return Ok(None);
        };
        return Ok(Some(OuterAnswer::Same { proof }));
    }
    let Some(rest) = after(b"hh spent\n", bytes) else {
        return Ok(None);
    };
    let Some(proof) = read_proof(alloc, rest)? else {
        return Ok(None);
    };
    Ok(Some(OuterAnswer::Spent { proof }))
}

/// The answer that all of the bytes are, behind an entry with the number h. None where they are no answer's text with
/// lines that have the forms of a catalogue's.
pub fn read_answer(alloc: Global, h: u32, bytes: &[u8]) -> Result<Option<OuterAnswer>, NoMemory>
    ensures { IfOk result
        (λ r. MatchOption r ((answer : AnswerOf) → IsAnswerOf h bytes.now answer → ⊥) (IsAnswerOf h bytes.now)) }
{
    if bytes == b"hh tiles\n".as_slice() {
        return Ok(Some(OuterAnswer::Tiles));
    }
    if bytes == b"hh undecided\n".as_slice() {
        return Ok(Some(OuterAnswer::Unknown));
    }
    let h = u64::from(h);
    match after_number(b"hc ", h, bytes) {
        Some(rest) => read_searched(alloc, h, rest),
        None => Ok(None),
    }
}
