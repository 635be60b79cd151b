//! The audit of an entry.
ghost use Rattle.std.specs.Prelude.{◌≡◌, ◌≤◌, ◌↔◌, ℕ, IfOk, MatchOption};
ghost use Rattle.heesch_cert.specs.Limits.{AreLimits};
ghost use Rattle.heesch_cert.specs.Parts.{IsLeastFailing};
ghost use Rattle.heesch_cert.specs.RightVerdict.{HasRightVerdict};
ghost use Rattle.heesch_cert.specs.TrueEntry.{IsTrueEntry};
ghost use Rattle.heesch_audit.specs.Near.{IsNearEntry};
ghost use Rattle.heesch_audit.specs.Portions.{PartsHold};
ghost use Rattle.heesch_audit.specs.Shapes.{AreCanonical, IsCanonicalShape};

use crate::audited::Audited;
use crate::shaped::canonical_shape;
use heesch_cert::{Entry, Limits};
use heesch_grid::Grid;
use heesch_io::NoMemory;
use std::alloc::Global;
use std::thread::Threads;

/// Whether an entry is true.
#[derive(Clone, Copy, Debug, PartialEq, Eq)]
pub enum EntryAnswer {
    /// It is true.
    Valid,
    /// This is the least of its parts that fails, from 1: the shape, the verdict's form against the evidence, the
    /// cover, its classes, the hole-free coronas, the wall, the coronas with holes allowed, the search behind the
    /// wall, the triples.
    Invalid { part: u32 },
}

impl<'a, G: Grid> Audited<'a, G> {
    /// The least of the parts 2 to 8 that fails, where the shape is that of the entry.
    pub(crate) fn failing_part(&self) -> Result<Option<u32>, NoMemory>
        requires shape { IsCanonicalShape G.geometry self.now.shape.now }
        requires same { self.now.shape.now ≡ self.now.entry.now.cells }
        requires canonical { AreCanonical G.geometry self.now.entry.now.cells }
        requires limits { AreLimits self.now.limits }
        requires near { IsNearEntry self.now.entry.now }
        ensures { IfOk result
            (λ failing. MatchOption failing (PartsHold G.geometry self.now.limits self.now.entry.now)
            (λ part. (part ≤ 8) × IsLeastFailing G.geometry self.now.limits self.now.entry.now part)) }
    {
        if !self.form_fits() {
            return Ok(Some(2));
        }
        if !self.cover_holds()? {
            return Ok(Some(3));
        }
        if !self.classes_hold()? {
            return Ok(Some(4));
        }
        if !self.free_holds()? {
            return Ok(Some(5));
        }
        self.failing_search()
    }
}

/// Whether the entry is true under the grid and the limits; else the least of its nine parts that fails.
///
/// Condition: the limits lie in their ranges, and the coordinates of the entry's cells and translations within 100,000
/// of 0. Its turns, numbers, lists and triples may be any. A turn that isn't one of the grid's makes the part fail in
/// which it stands. The verdict of a valid entry is right.
///
/// Nothing is searched for but the plain tiling of the shape, and no formula is made: each clause is computed from its
/// number where a hint names it. What a formula's clauses are computed from is made once where both searches are of
/// one level, and let go before that of the next is made. A proof is read where it stands, in the caller's thread:
/// while it is checked, its clauses stand once more in one array, and those of its cuts are made. A line costs as many
/// steps as the clauses of its hints have literals, and in a spent proof the question whether it is new.
pub fn audit<G: Grid, R: Threads + Sync>(
    _rt: &R,
    alloc: Global,
    entry: &Entry,
    limits: Limits,
) -> Result<EntryAnswer, NoMemory>
    requires limits { AreLimits limits }
    requires near { IsNearEntry entry.now }
    ensures valid { IfOk result (λ answer. (answer ≡ EntryAnswer.Valid) ↔ IsTrueEntry G.geometry limits entry.now) }
    ensures invalid { IfOk result
        (λ answer. (part : ℕ) → answer ≡ EntryAnswer.Invalid part → IsLeastFailing G.geometry limits entry.now part) }
    ensures right { IfOk result (λ answer. answer ≡ EntryAnswer.Valid → HasRightVerdict G.geometry limits entry.now) }
{
    let Some(shape) = canonical_shape::<G>(entry.cells.as_slice()) else {
        return Ok(EntryAnswer::Invalid { part: 1 });
    };
    let audited = Audited {
        alloc,
        shape: &shape,
        entry,
        limits,
    };
    if let Some(part) = audited.failing_part()? {
        return Ok(EntryAnswer::Invalid { part });
    }
    if !audited.triples_hold()? {
        return Ok(EntryAnswer::Invalid { part: 9 });
    }
    Ok(EntryAnswer::Valid)
}
