//! Parts 5 and 7, the layers of coronas.
ghost use Rattle.std.specs.Prelude.{◌≤◌, ◌↔◌, IsTrue, IfOk, IfSome, length};
ghost use Rattle.heesch_cert.specs.TrueEntry.{FreeHolds, OpenShows};
ghost use Rattle.heesch_audit.specs.Bounds.{HasFewLayers};
ghost use Rattle.heesch_audit.specs.Near.{IsNearEvidence, IsNearWider};
ghost use Rattle.heesch_audit.specs.Shapes.{IsCanonicalShape};

use crate::audited::Audited;
use crate::spelling::spell_coronas;
use heesch_cert::{Evidence, Layers};
use heesch_grid::Grid;
use heesch_io::NoMemory;
use heesch_shape::Shape;
use std::alloc::Global;

/// Part 7: whether the wider layers, where there are any, are coronas, holes allowed, so spelled.
pub(crate) fn is_open<G: Grid>(
    alloc: Global,
    shape: &Shape<G>,
    wider: &Option<Layers>,
) -> Result<bool, NoMemory>
    requires shape { IsCanonicalShape G.geometry shape.now }
    requires near { IsNearWider wider.now }
    requires few { IfSome wider.now (λ layers. length layers.layers ≤ 6) }
    ensures { IfOk result (λ yes. IsTrue yes ↔ OpenShows G.geometry shape.now wider.now) }
{
    match wider {
        None => Ok(true),
        Some(layers) => spell_coronas(alloc, shape, layers, 0),
    }
}

impl<'a, G: Grid> Audited<'a, G> {
    /// Part 5: whether the layers of the evidence, where it is of searches, are hole-free coronas, as many as the
    /// verdict says. The form being right, there are at most six.
    pub(crate) fn free_holds(&self) -> Result<bool, NoMemory>
        requires shape { IsCanonicalShape G.geometry self.now.shape.now }
        requires bounds { HasFewLayers self.now.entry.now.verdict self.now.entry.now.evidence }
        requires near { IsNearEvidence self.now.entry.now.evidence }
        ensures { IfOk result
            (λ yes. IsTrue yes ↔ FreeHolds G.geometry self.now.shape.now self.now.entry.now.verdict
            self.now.entry.now.evidence) }
    {
        match &self.entry.evidence {
            Evidence::Cover { .. } => Ok(true),
            Evidence::Search { free, .. } => {
                let count = self.entry.verdict.first_number();
                if free.layers.len() != count as usize {
                    return Ok(false);
                }
                spell_coronas(self.alloc, self.shape, free, count)
            }
        }
    }
}
