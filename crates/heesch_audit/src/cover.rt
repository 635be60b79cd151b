//! Parts 3 and 4, the cover and its classes.
ghost use Rattle.std.specs.Prelude.{◌≡◌, ◌≤◌, ◌↔◌, All, IsTrue, IfOk, length};
ghost use Rattle.heesch_grid.specs.Geometry.{IsIsometry};
ghost use Rattle.heesch_grid.specs.Tiling.{IsPeriodicCover};
ghost use Rattle.heesch_grid.specs.Symmetry.{AreClasses};
ghost use Rattle.heesch_cert.specs.TrueEntry.{CoverHolds, ClassesHold};
ghost use Rattle.heesch_audit.specs.Bounds.{HasFewPlaces};
ghost use Rattle.heesch_audit.specs.Near.{IsNearEvidence};
ghost use Rattle.heesch_audit.specs.Shapes.{IsCanonicalShape};
ghost use Rattle.heesch_logs.specs.Near.{IsNearIso};

use crate::audited::Audited;
use heesch_cert::{Classes, Evidence, Member, Tiling, Verdict};
use heesch_grid::{Grid, Iso, Sizes};
use heesch_io::NoMemory;
use heesch_orbit::classes;
use heesch_shape::Shape;
use heesch_tiling::{Cover, check_cover};
use std::alloc::Global;

/// Whether each turn is one of the grid's.
fn are_isometries<G: Grid>(places: &[Iso]) -> bool
    ensures { IsTrue result ↔ All (IsIsometry G.geometry) places.now }
{
    for by in places {
        if by.turn >= G::TURNS {
            return false;
        }
    }
    true
}

/// Whether the triple and the places are a periodic cover.
fn is_cover<G: Grid>(alloc: Global, shape: &Shape<G>, tiling: &Tiling) -> Result<bool, NoMemory>
    requires shape { IsCanonicalShape G.geometry shape.now }
    requires few { length tiling.now.places ≤ 12 }
    requires near { All IsNearIso tiling.now.places }
    ensures { IfOk result
        (λ yes. IsTrue yes ↔ IsPeriodicCover G.geometry shape.now tiling.now.triple tiling.now.places) }
{
    if !are_isometries::<G>(tiling.places.as_slice()) {
        return Ok(false);
    }
    match check_cover(alloc, shape, tiling)? {
        Cover::Exact => Ok(true),
        Cover::Doubled { .. } => Ok(false),
        Cover::Missed { .. } => Ok(false),
    }
}

/// Whether both lists are the same.
fn are_same_members(found: &[Member], written: &[Member]) -> bool
    ensures { IsTrue result ↔ (found.now ≡ written.now) }
{
    if found.len() != written.len() {
        return false;
    }
    for i in 0..found.len() {
        if found[i] != written[i] {
            return false;
        }
    }
    true
}

/// Whether the classes are those of the cover, as many as the verdict says.
fn are_classes<G: Grid>(
    alloc: Global,
    shape: &Shape<G>,
    tiling: &Tiling,
    written: &Classes,
    count: u32,
) -> Result<bool, NoMemory>
    requires shape { IsCanonicalShape G.geometry shape.now }
    requires few { length tiling.now.places ≤ 12 }
    requires near { All IsNearIso tiling.now.places }
    requires cover { IsPeriodicCover G.geometry shape.now tiling.now.triple tiling.now.places }
    ensures { IfOk result
        (λ yes. IsTrue yes ↔ (AreClasses G.geometry shape.now tiling.now.triple tiling.now.places written.now.count
        written.now.members × (count ≡ written.now.count))) }
{
    if count != written.count {
        return Ok(false);
    }
    let found = classes(alloc, shape, tiling)?;
    if found.count != written.count {
        return Ok(false);
    }
    Ok(are_same_members(found.members.as_slice(), written.members.as_slice()))
}

impl<'a, G: Grid> Audited<'a, G> {
    /// Part 3: whether the evidence, where it is a cover, is a periodic one. The form being right, it has at most 12
    /// places.
    pub(crate) fn cover_holds(&self) -> Result<bool, NoMemory>
        requires shape { IsCanonicalShape G.geometry self.now.shape.now }
        requires bounds { HasFewPlaces self.now.entry.now.evidence }
        requires near { IsNearEvidence self.now.entry.now.evidence }
        ensures { IfOk result
            (λ yes. IsTrue yes ↔ CoverHolds G.geometry self.now.shape.now self.now.entry.now.evidence) }
    {
        match &self.entry.evidence {
            Evidence::Cover { tiling, .. } => is_cover(self.alloc, self.shape, tiling),
            Evidence::Search { .. } => Ok(true),
        }
    }

    /// Part 4: whether the classes of the evidence, where it is a cover, are those of the cover, as many as the
    /// verdict says.
    pub(crate) fn classes_hold(&self) -> Result<bool, NoMemory>
        requires shape { IsCanonicalShape G.geometry self.now.shape.now }
        requires bounds { HasFewPlaces self.now.entry.now.evidence }
        requires cover { CoverHolds G.geometry self.now.shape.now self.now.entry.now.evidence }
        requires near { IsNearEvidence self.now.entry.now.evidence }
        ensures { IfOk result
            (λ yes. IsTrue yes ↔ ClassesHold G.geometry self.now.shape.now self.now.entry.now.verdict
            self.now.entry.now.evidence) }
    {
        let Evidence::Cover { tiling, classes } = &self.entry.evidence else {
            return Ok(true);
        };
        let Verdict::Tiles { classes: count, .. } = self.entry.verdict else {
            return Ok(false);
        };
        are_classes(self.alloc, self.shape, tiling, classes, count)
    }
}
