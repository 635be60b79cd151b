//! The check of an answer.
ghost use Rattle.std.specs.Prelude.{◌≡◌, ◌≤◌, ◌↔◌, ◌+◌, IfOk, IsTrue};
ghost use Rattle.heesch_audit.specs.Shapes.{IsCanonicalShape};
ghost use Rattle.heesch_cert.specs.Limits.{AreLimits};
ghost use Rattle.heesch_cert.specs.TrueEntry.{IsTrueEntry};
ghost use Rattle.heesch_levels.specs.UpTo.{HasCutsUpTo};
ghost use Rattle.heesch_logs.specs.Near.{AreNearLayers, IsNearProof};
ghost use Rattle.heesch_outer.specs.Answer.{IsOuterAnswer, IsSearched, SpellsOuterCoronas};
ghost use Rattle.heesch_outer.specs.Found.{IsNearAnswer};
ghost use Rattle.heesch_outer.specs.Proofs.{EndsOuter};

use crate::OuterAnswer;
use crate::same::is_same_proof;
use crate::shaped::shape_of;
use heesch_audit::{ProofEnd, ends_coronas, spell_coronas};
use heesch_cert::{Bare, Entry, Evidence, Layers, Limits, Proof, Step, Verdict, Wall};
use heesch_grid::Grid;
use heesch_io::NoMemory;
use heesch_shape::Shape;
use std::alloc::Global;
use std::thread::Threads;

/// Whether each cut of the proof has level at most h.
fn has_cuts_up_to(proof: &Proof, h: u32) -> bool
    ensures { IsTrue result ↔ HasCutsUpTo h proof.now }
{
    for step in proof.steps.as_slice() {
        if let Step::Cut { cut } = step {
            if cut.level > h {
                return false;
            }
        }
    }
    true
}

/// Whether the answer is the number h by this proof.
fn is_same_by(answer: &OuterAnswer, wall: &Proof) -> bool
    ensures { IsTrue result ↔ (answer.now ≡ OuterAnswer.Same wall.now) }
{
    match answer {
        OuterAnswer::Same { proof } => is_same_proof(proof, wall),
        _ => false,
    }
}

/// Whether the layers are h + 1 outer coronas.
fn are_outer<G: Grid>(
    alloc: Global,
    shape: &Shape<G>,
    h: u32,
    layers: &Layers,
) -> Result<bool, NoMemory>
    requires shape { IsCanonicalShape G.geometry shape.now }
    requires level { h ≤ 5 }
    requires near { AreNearLayers layers.now.layers }
    ensures { IfOk result (λ yes. IsTrue yes ↔ SpellsOuterCoronas G.geometry shape.now (h + 1) layers.now) }
{
    if layers.layers.len() != h as usize + 1 {
        return Ok(false);
    }
    spell_coronas(alloc, shape, layers, h)
}

/// Whether the proof is outer for h, and refutes or is spent, as asked.
fn is_ended_outer<G: Grid>(
    alloc: Global,
    shape: &Shape<G>,
    h: u32,
    limits: Limits,
    end: ProofEnd,
    proof: &Proof,
) -> Result<bool, NoMemory>
    requires shape { IsCanonicalShape G.geometry shape.now }
    requires level { h ≤ 5 }
    requires limits { AreLimits limits }
    requires near { IsNearProof proof.now }
    ensures { IfOk result (λ yes. IsTrue yes ↔ EndsOuter end G.geometry limits shape.now h proof.now) }
{
    if !has_cuts_up_to(proof, h) {
        return Ok(false);
    }
    ends_coronas(alloc, shape, limits, h + 1, end, proof)
}

/// Whether a search for h + 1 outer coronas may end with the answer.
fn is_searched<G: Grid>(
    alloc: Global,
    shape: &Shape<G>,
    h: u32,
    limits: Limits,
    answer: &OuterAnswer,
) -> Result<bool, NoMemory>
    requires shape { IsCanonicalShape G.geometry shape.now }
    requires level { h ≤ 5 }
    requires limits { AreLimits limits }
    requires near { IsNearAnswer answer.now }
    ensures { IfOk result (λ yes. IsTrue yes ↔ IsSearched G.geometry limits shape.now h answer.now) }
{
    match answer {
        OuterAnswer::Tiles | OuterAnswer::Unknown => Ok(false),
        OuterAnswer::More { layers } => are_outer(alloc, shape, h, layers),
        OuterAnswer::Same { proof } => {
            is_ended_outer(alloc, shape, h, limits, ProofEnd::Refuted, proof)
        }
        OuterAnswer::Spent { proof } => {
            is_ended_outer(alloc, shape, h, limits, ProofEnd::Spent, proof)
        }
    }
}

/// Whether the answer is one that is allowed for the entry: Tiles exactly for a tiling, Unknown exactly where the
/// Heesch number isn't known; the wall's own proof where that has no cut; else h + 1 outer coronas, spelled as the
/// layers of a true entry, or a proof with lawful cuts of the levels 1 to h that refutes the corona formula of level
/// h + 1, or is spent for the limit on turns over it, where h is the entry's number.
///
/// Condition: the limits lie in their ranges, the entry is true under them, and the answer's translations and the
/// cells of its cuts' holes lie within 100,000 of 0. Its turns and numbers may be any.
///
/// The layers and the proofs of the entry aren't looked at again, and none is copied. The cost is that of
/// `spell_coronas` or of `ends_coronas` of `heesch_audit`, at level h + 1.
pub fn check_outer<G: Grid, T: Threads + Sync>(
    _rt: &T,
    alloc: Global,
    entry: &Entry,
    answer: &OuterAnswer,
    limits: Limits,
) -> Result<bool, NoMemory>
    requires limits { AreLimits limits }
    requires entry { IsTrueEntry G.geometry limits entry.now }
    requires near { IsNearAnswer answer.now }
    ensures { IfOk result (λ yes. IsTrue yes ↔ IsOuterAnswer G.geometry limits entry.now answer.now) }
{
    if let Verdict::Tiles { .. } = entry.verdict {
        return Ok(matches!(answer, OuterAnswer::Tiles));
    }
    let Evidence::Search { wall, bare, .. } = &entry.evidence else {
        return Ok(false);
    };
    let Wall::Refuted { proof } = wall else {
        return Ok(matches!(answer, OuterAnswer::Unknown));
    };
    if let Bare::Same = bare {
        return Ok(is_same_by(answer, proof));
    }
    let shape = shape_of::<G>(entry.cells.as_slice());
    is_searched(alloc, &shape, entry.verdict.first_number(), limits, answer)
}
