//! How layers are spelled: the places of a layer in rising order of their cell lists, each by its least isometry.
ghost use Rattle.std.specs.Prelude.{◌≡◌, ◌↔◌, ℕ, List, None, All, IsTrue, IfSome, IfNone, MatchOption, OnSome};
ghost use Rattle.heesch_grid.specs.declared.Cell.{Cell};
ghost use Rattle.heesch_grid.specs.Cells.{cells_before};
ghost use Rattle.heesch_grid.specs.Placement.{IsLeastIsometry};
ghost use Rattle.heesch_logs.specs.Near.{IsNearIso, AreNearLayers};
ghost use Rattle.heesch_logs.specs.Spelling.{IsNearShape, IsSpelledAfter};

use heesch_cert::Isos;
use heesch_grid::{Grid, Iso, Sizes};
use heesch_place::Placement;
use heesch_shape::Shape;

/// The placement that the isometry gives, where it is the least that gives it.
fn least_placed<G: Grid>(shape: &Shape<G>, by: Iso) -> Option<Placement<G>>
    requires shape { IsNearShape G.geometry shape.now }
    requires near { IsNearIso by }
    ensures some { IfSome result (λ p. IsLeastIsometry G.geometry shape.now p.tile by) }
    ensures none { IfNone result ((tile : List Cell) → ¬ IsLeastIsometry G.geometry shape.now tile by) }
{
    if by.turn >= G::TURNS {
        return None;
    }
    let place = Placement::new(shape, by);
    if place.iso() == by {
        return Some(place);
    }
    None
}

/// Whether the placement's cell list comes after that of the last one, where there is one.
fn comes_after<G: Grid>(last: &Option<Placement<G>>, place: &Placement<G>) -> bool
    ensures { IsTrue result ↔ MatchOption last.now (Unit {0}) (λ p. IsTrue (cells_before p.tile place.now.tile)) }
{
    match last {
        None => true,
        Some(before) => before.shape().cmp(place.shape()).is_lt(),
    }
}

/// Whether the layer is so spelled.
fn is_spelled<G: Grid>(shape: &Shape<G>, layer: &[Iso]) -> bool
    requires shape { IsNearShape G.geometry shape.now }
    requires near { All IsNearIso layer.now }
    ensures { IsTrue result ↔ IsSpelledAfter G.geometry shape.now None layer.now }
{
    let mut last = None;
    for by in layer {
        let Some(place) = least_placed(shape, *by) else {
            return false;
        };
        if !comes_after(&last, &place) {
            return false;
        }
        last = Some(place);
    }
    true
}

/// Whether each layer is spelled as its places in rising order of their cell lists, each by its least isometry.
///
/// Condition: the shape's cells and the translations lie within 100,000 of 0; the turns may be any. The cost is a
/// placement for each isometry.
pub fn are_spelled<G: Grid>(shape: &Shape<G>, layers: &[Isos]) -> bool
    requires shape { IsNearShape G.geometry shape.now }
    requires near { AreNearLayers layers.now }
    ensures { IsTrue result ↔ All (IsSpelledAfter G.geometry shape.now None) layers.now }
{
    for layer in layers {
        if !is_spelled(shape, layer.as_slice()) {
            return false;
        }
    }
    true
}
