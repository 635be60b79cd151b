//! Whether coordinates lie near 0.
ghost use Rattle.std.specs.Prelude.{◌↔◌, All, IsTrue};
ghost use Rattle.heesch_grid.specs.Vectors.{IsWithin};
ghost use Rattle.heesch_grid.specs.Cells.{cell};
ghost use Rattle.heesch_logs.specs.Near.{IsNearIso, AreNearLayers, IsNearStep, IsNearProof};

use heesch_cert::{Isos, Proof, Step};
use heesch_grid::{Cell, Iso};

/// How far from 0 coordinates may lie.
const REACH: i32 = 100_000;

/// Whether both numbers lie within 100,000 of 0.
fn is_near_pair(a: i32, b: i32) -> bool
    ensures { IsTrue result ↔ IsWithin 100000 (cell a b) }
{
    -REACH <= a && a <= REACH && -REACH <= b && b <= REACH
}

/// Whether the cells lie within 100,000 of 0. It looks at each once.
pub fn are_near_cells(cells: &[Cell]) -> bool
    ensures { IsTrue result ↔ All (IsWithin 100000) cells.now }
{
    for c in cells {
        if !is_near_pair(c.a, c.b) {
            return false;
        }
    }
    true
}

/// Whether the translation of the isometry lies within 100,000 of 0; its turn may be any.
pub fn is_near_iso(by: Iso) -> bool
    ensures { IsTrue result ↔ IsNearIso by }
{
    is_near_pair(by.da, by.db)
}

/// Whether the translations of the isometries lie within 100,000 of 0. It looks at each once.
pub fn are_near_isos(isos: &[Iso]) -> bool
    ensures { IsTrue result ↔ All IsNearIso isos.now }
{
    for by in isos {
        if !is_near_iso(*by) {
            return false;
        }
    }
    true
}

/// Whether the translations of all layers lie within 100,000 of 0. It looks at each once.
pub fn are_near_layers(layers: &[Isos]) -> bool
    ensures { IsTrue result ↔ AreNearLayers layers.now }
{
    for layer in layers {
        if !are_near_isos(layer.as_slice()) {
            return false;
        }
    }
    true
}

fn is_near_step(step: &Step) -> bool
    ensures { IsTrue result ↔ IsNearStep step.now }
{
    match step {
        Step::Learn { .. } => true,
        Step::Cut { cut } => are_near_cells(cut.hole.as_slice()),
    }
}

/// Whether the cells of the holes of all cuts of the proof lie within 100,000 of 0. It looks at each once.
pub fn is_near_proof(proof: &Proof) -> bool
    ensures { IsTrue result ↔ IsNearProof proof.now }
{
    for step in proof.steps.as_slice() {
        if !is_near_step(step) {
            return false;
        }
    }
    true
}
