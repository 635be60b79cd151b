//! Whether the coordinates of an entry lie near 0.
ghost use Rattle.std.specs.Prelude.{◌↔◌, All, IsTrue};
ghost use Rattle.heesch_grid.specs.Symmetry.{Member as InClass};
ghost use Rattle.heesch_cert.specs.declared.entry.TripleProof.{TripleProof as Written};
ghost use Rattle.heesch_audit.specs.Near.{IsNearWider, IsNearWall, IsNearBare, IsNearEvidence, IsNearEntry};
ghost use Rattle.heesch_logs.specs.Near.{IsNearIso, IsNearProof};

use heesch_cert::{Bare, Entry, Evidence, Layers, Member, TripleProof, Wall};
use heesch_logs::{are_near_cells, are_near_isos, are_near_layers, is_near_iso, is_near_proof};

/// Whether the translations of the symmetries lie within 100,000 of 0.
fn are_near_members(members: &[Member]) -> bool
    ensures { IsTrue result ↔ All (λ (member : InClass). IsNearIso member.by) members.now }
{
    for member in members {
        if !is_near_iso(member.by) {
            return false;
        }
    }
    true
}

fn is_near_wider(wider: &Option<Layers>) -> bool
    ensures { IsTrue result ↔ IsNearWider wider.now }
{
    match wider {
        None => true,
        Some(layers) => are_near_layers(layers.layers.as_slice()),
    }
}

fn is_near_wall(wall: &Wall) -> bool
    ensures { IsTrue result ↔ IsNearWall wall.now }
{
    match wall {
        Wall::Absent | Wall::Size => true,
        Wall::Refuted { proof } | Wall::Spent { proof } => is_near_proof(proof),
    }
}

fn is_near_bare(bare: &Bare) -> bool
    ensures { IsTrue result ↔ IsNearBare bare.now }
{
    match bare {
        Bare::Absent | Bare::Same | Bare::Size | Bare::Open => true,
        Bare::Refuted { proof } | Bare::Spent { proof } => is_near_proof(proof),
    }
}

fn are_near_triples(triples: &[TripleProof]) -> bool
    ensures { IsTrue result ↔ All (λ (x : Written). IsNearProof x.proof) triples.now }
{
    for triple in triples {
        if !is_near_proof(&triple.proof) {
            return false;
        }
    }
    true
}

fn is_near_evidence(evidence: &Evidence) -> bool
    ensures { IsTrue result ↔ IsNearEvidence evidence.now }
{
    match evidence {
        Evidence::Cover { tiling, classes } => {
            are_near_isos(tiling.places.as_slice()) && are_near_members(classes.members.as_slice())
        }
        Evidence::Search {
            free,
            wall,
            bare,
            wider,
            triples,
        } => {
            are_near_layers(free.layers.as_slice())
                && is_near_wall(wall)
                && is_near_bare(bare)
                && is_near_wider(wider)
                && are_near_triples(triples.as_slice())
        }
    }
}

/// Whether the coordinates of all cells and translations of the entry lie within 100,000 of 0: those of its shape, of
/// the holes of its cuts, of its tiles, of the symmetries of its classes, and of its layers. It takes no memory, and
/// looks at each once.
pub fn is_near(entry: &Entry) -> bool
    ensures { IsTrue result ↔ IsNearEntry entry.now }
{
    are_near_cells(entry.cells.as_slice()) && is_near_evidence(&entry.evidence)
}
