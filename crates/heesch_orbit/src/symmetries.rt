//! The symmetries of a cover.
ghost use Rattle.std.specs.Prelude.{◌≡◌, ◌<◌, ◌↔◌, pos, true, All, IfSome, IfNone};
ghost use Rattle.heesch_grid.specs.declared.Cell.{Cell};
ghost use Rattle.heesch_grid.specs.declared.isometries.Iso.{Iso};
ghost use Rattle.heesch_grid.specs.Cells.{cell};
ghost use Rattle.heesch_grid.specs.Geometry.{image};
ghost use Rattle.heesch_grid.specs.Lattice.{IsTriple};
ghost use Rattle.heesch_grid.specs.Symmetry.{CarriesToTranslate, IsSymmetry, TakesExactly};
ghost use Rattle.heesch_grid.specs.Vectors.{IsWithin};
ghost use Rattle.heesch_tiling.specs.Counting.{IsInRange};
ghost use Rattle.heesch_orbit.specs.Symmetries.{HasImage, CarriesPlaces, KeepsLattice, shift, excess, Takes};
ghost use Rattle.heesch_orbit.specs.Symmetries.{IsLeastTaking};

use crate::turns::Turned;
use crate::vectors::{first_vector, has_vector, second_vector};
use heesch_grid::{Cell, Grid, Iso};
use heesch_lattice::Triple;

/// The translation of a place under turn k.
fn turned_translation<G: Grid>(k: u32, place: Iso) -> Cell
    requires turn { k < G.geometry.turns }
    requires near { IsWithin 100000 (cell place.da place.db) }
    ensures is { result ≡ G.geometry.turn k (cell place.da place.db) }
    ensures within { IsWithin 200000 result }
{
    G::turn(
        k,
        Cell {
            a: place.da,
            b: place.db,
        },
    )
}

/// What a tile, moved and then carried, is moved by, less the step to another and what that is
/// moved by.
fn left_over(moved: Cell, by: Iso, step: Cell, to: Iso) -> Cell
    requires moved { IsWithin 200000 moved }
    requires by { IsWithin 1000000 (cell by.da by.db) }
    requires step { IsWithin 400000 step }
    requires to { IsWithin 100000 (cell to.da to.db) }
    ensures is { result ≡ excess moved by step to }
    ensures within { IsWithin 2000000 result }
{
    Cell {
        a: moved.a + by.da - step.a - to.da,
        b: moved.b + by.db - step.b - to.db,
    }
}

/// Whether the isometry carries one tile to a translate, by a lattice vector, of another.
fn carries<G: Grid>(turned: &Turned<G>, triple: Triple, by: Iso, from: Iso, to: Iso) -> bool
    requires turn { by.turn < G.geometry.turns }
    requires near { IsWithin 1000000 (cell by.da by.db) }
    requires from { IsInRange G.geometry from }
    requires to { IsInRange G.geometry to }
    ensures { (result ≡ true)
        ↔ CarriesToTranslate G.geometry triple by (image G.geometry from turned.now) (image G.geometry to turned.now) }
{
    let Some(step) = turned.step(G::compose(from.turn, by.turn), to.turn) else {
        return false;
    };
    let moved = turned_translation::<G>(by.turn, from);
    has_vector(triple, left_over(moved, by, step, to))
}

/// Whether the isometry carries the tile to a translate of a tile.
fn has_image<G: Grid>(
    turned: &Turned<G>,
    triple: Triple,
    places: &[Iso],
    by: Iso,
    from: Iso,
) -> bool
    requires turn { by.turn < G.geometry.turns }
    requires near { IsWithin 1000000 (cell by.da by.db) }
    requires range { All (IsInRange G.geometry) places.now }
    requires from { IsInRange G.geometry from }
    ensures { (result ≡ true) ↔ HasImage G.geometry turned.now triple places.now by from }
{
    for to in places {
        if carries(turned, triple, by, from, *to) {
            return true;
        }
    }
    false
}

/// Whether the isometry carries each tile to a translate of a tile.
fn carries_places<G: Grid>(turned: &Turned<G>, triple: Triple, places: &[Iso], by: Iso) -> bool
    requires turn { by.turn < G.geometry.turns }
    requires near { IsWithin 1000000 (cell by.da by.db) }
    requires range { All (IsInRange G.geometry) places.now }
    ensures { (result ≡ true) ↔ CarriesPlaces G.geometry turned.now triple places.now by }
{
    for from in places {
        if !has_image(turned, triple, places, by, *from) {
            return false;
        }
    }
    true
}

/// The translation by v under turn k, where v is in units.
fn turned_shift<G: Grid>(k: u32, v: Cell) -> Iso
    requires turn { k < G.geometry.turns }
    requires near { IsWithin 100000 v }
    ensures is { result ≡ shift (G.geometry.turn k v) }
    ensures near { IsWithin 1000000 (cell result.da result.db) }
{
    let moved = G::turn(k, v);
    Iso {
        turn: 0,
        da: moved.a,
        db: moved.b,
    }
}

/// Whether the translations by the two vectors of the lattice, under turn k, carry each tile to a
/// translate of a tile.
fn keeps_lattice<G: Grid>(turned: &Turned<G>, triple: Triple, places: &[Iso], k: u32) -> bool
    requires turn { k < G.geometry.turns }
    requires range { All (IsInRange G.geometry) places.now }
    ensures { (result ≡ true) ↔ KeepsLattice G.geometry turned.now triple places.now k }
{
    let first = turned_shift::<G>(k, first_vector(triple));
    let second = turned_shift::<G>(k, second_vector(triple));
    carries_places(turned, triple, places, first) && carries_places(turned, triple, places, second)
}

/// Whether the isometry is a symmetry of the tiles and their translates. It is one where it carries
/// each tile to a translate of a tile, and the two vectors of the lattice, under its turn, do so
/// too: a symmetry need not carry the lattice into itself.
fn is_symmetry<G: Grid>(turned: &Turned<G>, triple: Triple, places: &[Iso], by: Iso) -> bool
    requires turn { by.turn < G.geometry.turns }
    requires near { IsWithin 1000000 (cell by.da by.db) }
    requires range { All (IsInRange G.geometry) places.now }
    requires triple { IsTriple triple }
    ensures { (result ≡ true) ↔ IsSymmetry G.geometry turned.now triple places.now by }
{
    carries_places(turned, triple, places, by) && keeps_lattice(turned, triple, places, by.turn)
}

/// The isometry of turn k that takes a tile, which the turn alone moves so, by the step to another.
fn stepping(k: u32, moved: Cell, step: Cell, to: Iso) -> Iso
    requires moved { IsWithin 200000 moved }
    requires step { IsWithin 400000 step }
    requires to { IsWithin 100000 (cell to.da to.db) }
    ensures turn { result.turn ≡ k }
    ensures is { excess moved result step to ≡ cell (pos 0) (pos 0) }
    ensures near { IsWithin 1000000 (cell result.da result.db) }
{
    Iso {
        turn: k,
        da: to.da + step.a - moved.a,
        db: to.db + step.b - moved.b,
    }
}

/// The isometry of turn k that takes one tile exactly to the other, if there is one.
fn taking<G: Grid>(turned: &Turned<G>, k: u32, from: Iso, to: Iso) -> Option<Iso>
    requires turn { k < G.geometry.turns }
    requires from { IsInRange G.geometry from }
    requires to { IsInRange G.geometry to }
    ensures turn { IfSome result (λ by. by.turn ≡ k) }
    ensures near { IfSome result (λ by. IsWithin 1000000 (cell by.da by.db)) }
    ensures some { IfSome result (Takes G.geometry turned.now from to) }
    ensures only { IfSome result
        (λ by. (other : Iso) → other.turn ≡ k → Takes G.geometry turned.now from to other → other ≡ by) }
    ensures none { IfNone result ((by : Iso) → by.turn ≡ k → Takes G.geometry turned.now from to by → ⊥) }
{
    let Some(step) = turned.step(G::compose(from.turn, k), to.turn) else {
        return None;
    };
    let moved = turned_translation::<G>(k, from);
    Some(stepping(k, moved, step, to))
}

/// The symmetry of least turn that takes one tile exactly to the other, if there is one. For each
/// turn at most one isometry does.
pub(crate) fn least_taking<G: Grid>(
    turned: &Turned<G>,
    triple: Triple,
    places: &[Iso],
    from: Iso,
    to: Iso,
) -> Option<Iso>
    requires triple { IsTriple triple }
    requires range { All (IsInRange G.geometry) places.now }
    requires from { IsInRange G.geometry from }
    requires to { IsInRange G.geometry to }
    ensures some { IfSome result (IsLeastTaking G.geometry turned.now triple places.now from to) }
    ensures none { IfNone result ((by : Iso) → TakesExactly G.geometry turned.now triple places.now from to by → ⊥) }
{
    for k in 0..G::TURNS {
        if let Some(by) = taking(turned, k, from, to) {
            if is_symmetry(turned, triple, places, by) {
                return Some(by);
            }
        }
    }
    None
}
