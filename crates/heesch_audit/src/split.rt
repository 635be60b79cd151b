//! The audit of an entry in portions.
ghost use Rattle.std.specs.Prelude.{◌≡◌, ◌<◌, ◌≤◌, ◌↔◌, max, length, IsTrue, IfOk};
ghost use Rattle.heesch_cert.specs.Limits.{AreLimits};
ghost use Rattle.heesch_audit.specs.Near.{IsNearEntry};
ghost use Rattle.heesch_audit.specs.Portions.{triples_of, PartsHold, PortionHolds};
ghost use Rattle.heesch_audit.specs.Shapes.{AreCanonical, IsCanonicalShape};

use crate::audited::Audited;
use crate::shaped::canonical_shape;
use crate::triples::triples_of;
use heesch_cert::{Entry, Limits};
use heesch_grid::Grid;
use heesch_io::NoMemory;
use std::alloc::Global;
use std::thread::Threads;

/// The most portions into which an audit of the entry is worth being split, at least one: with so many each has the
/// proof of at most one triple.
pub fn most_portions(entry: &Entry) -> usize
    ensures { result ≡ max 1 (length (triples_of entry.now.evidence)) }
{
    triples_of(&entry.evidence).len().max(1)
}

impl<'a, G: Grid> Audited<'a, G> {
    /// Whether the parts 2 to 8 of the entry hold, where this is the first portion and the shape that of the entry; no
    /// other portion asks for them.
    fn are_parts_due(&self, portion: u32) -> Result<bool, NoMemory>
        requires shape { IsCanonicalShape G.geometry self.now.shape.now }
        requires same { self.now.shape.now ≡ self.now.entry.now.cells }
        requires canonical { AreCanonical G.geometry self.now.entry.now.cells }
        requires limits { AreLimits self.now.limits }
        requires near { IsNearEntry self.now.entry.now }
        ensures { IfOk result
            (λ yes. IsTrue yes ↔ (portion ≡ 0 → PartsHold G.geometry self.now.limits self.now.entry.now)) }
    {
        if portion > 0 {
            return Ok(true);
        }
        let failing = self.failing_part()?;
        Ok(failing.is_none())
    }
}

/// Whether a portion has none of so many triples, nor what the first one has.
fn is_bare(portion: u32, triples: usize) -> bool
    ensures { IsTrue result ↔ (0 < portion) × (triples ≤ portion) }
{
    portion > 0 && triples <= portion as usize
}

/// Whether a portion of the entry, of so many, holds: the proofs of each so many-th of its triples, and in the first
/// portion all else of it as well. The entry is true exactly where each of its portions holds.
///
/// Condition: that of `audit`, and the portion's number is below theirs. An entry whose shape isn't canonical holds in
/// no portion that has a triple, nor in the first.
///
/// Cost: that of the proofs of its triples, and in the first portion of all else that `audit` looks at. In each that
/// has a triple the shape and the list of the triples that are asked for are made anew; where others are written, no
/// proof is read.
pub fn portion_holds<G: Grid, R: Threads + Sync>(
    _rt: &R,
    alloc: Global,
    entry: &Entry,
    limits: Limits,
    portion: u32,
    portions: u32,
) -> Result<bool, NoMemory>
    requires limits { AreLimits limits }
    requires near { IsNearEntry entry.now }
    requires portion { portion < portions }
    ensures { IfOk result (λ yes. IsTrue yes ↔ PortionHolds G.geometry limits entry.now portion portions) }
{
    let written = triples_of(&entry.evidence);
    if is_bare(portion, written.len()) {
        return Ok(true);
    }
    let Some(shape) = canonical_shape::<G>(entry.cells.as_slice()) else {
        return Ok(false);
    };
    let audited = Audited {
        alloc,
        shape: &shape,
        entry,
        limits,
    };
    if !audited.are_asked()? {
        return Ok(false);
    }
    if !audited.are_parts_due(portion)? {
        return Ok(false);
    }
    audited.are_proved(written, portion, portions)
}
