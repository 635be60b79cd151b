//! The cells of a shape under a turn, and isometries of one turn that carry it to a tile.
ghost use Rattle.std.specs.Prelude.{◌≡◌, ◌≢◌, ◌<◌, ◌≤◌, true, false, map, length, IfSome, IfNone};
ghost use Rattle.heesch_grid.specs.declared.Cell.{Cell};
ghost use Rattle.heesch_grid.specs.declared.isometries.Iso.{Iso};
ghost use Rattle.heesch_grid.specs.Cells.{has, IsCellListOf};
ghost use Rattle.heesch_grid.specs.Vectors.{IsWithin, plus};
ghost use Rattle.heesch_place.specs.Steps.{IsFirstOf, step_of};

use arrayvec::ArrayVec;
use heesch_grid::moves::{difference, units_of};
use heesch_grid::{Cell, Grid, Iso};
use heesch_shape::{CELLS_MAX, Shape};

/// The cells under turn k, in their order.
fn turned_cells<G: Grid>(cells: &[Cell], k: u32) -> ArrayVec<Cell, CELLS_MAX>
    requires few { length cells.now ≤ 32 }
    requires within { (c : Cell) → has cells.now c ≡ true → IsWithin 1000000 c }
    requires turn { k < G.geometry.turns }
    ensures { result.items ≡ map (G.geometry.turn k) cells.now }
{
    let mut all = ArrayVec::new();
    for c in cells {
        all.push(G::turn(k, *c));
    }
    all
}

/// The cells of the shape under turn k, in cell order.
pub(crate) fn turned<G: Grid>(shape: &Shape<G>, k: u32) -> ArrayVec<Cell, CELLS_MAX>
    requires { k < G.geometry.turns }
    ensures list { IsCellListOf (map (G.geometry.turn k) shape.now) result.items }
    ensures within { (c : Cell) → has result.items c ≡ true → IsWithin 2000000 c }
    ensures long { length result.items ≡ length shape.now }
{
    let mut cells = turned_cells::<G>(shape.cells(), k);
    cells.sort_unstable();
    cells
}

/// Whether the second list is the first, with each cell moved by the same step.
fn is_moved(from: &[Cell], step: Cell, to: &[Cell]) -> bool
    requires from { (c : Cell) → has from.now c ≡ true → IsWithin 2000000 c }
    requires to { (c : Cell) → has to.now c ≡ true → IsWithin 1000000 c }
    ensures yes { result ≡ true → to.now ≡ map (plus step) from.now }
    ensures no { result ≡ false → to.now ≢ map (plus step) from.now }
{
    if from.len() != to.len() {
        return false;
    }
    for (i, c) in from.iter().enumerate() {
        if difference(*c, to[i]) != step {
            return false;
        }
    }
    true
}

/// The first cell.
pub(crate) fn first_of(cells: &[Cell]) -> Cell
    requires { 1 ≤ length cells.now }
    ensures first { IsFirstOf cells.now result }
    ensures member { has cells.now result ≡ true }
{
    cells[0]
}

/// The isometry of turn k that carries a shape to the tile, if there is one. The shape's cells under
/// turn k stand in cell order; the first cells then say how far they are to be moved.
pub(crate) fn leading<G: Grid>(turned: &[Cell], k: u32, tile: &Shape<G>) -> Option<Iso>
    requires some { 1 ≤ length turned.now }
    requires within { (c : Cell) → has turned.now c ≡ true → IsWithin 2000000 c }
    ensures turn { IfSome result (λ by. by.turn ≡ k) }
    ensures some { IfSome result (λ by. tile.now ≡ map (plus (step_of G.geometry by)) turned.now) }
    ensures none { IfNone result ((by : Iso) → tile.now ≢ map (plus (step_of G.geometry by)) turned.now) }
{
    let cells = tile.cells();
    let step = difference(first_of(turned), first_of(cells));
    if !is_moved(turned, step, cells) {
        return None;
    }
    let Some(units) = units_of(step, G::UNIT) else {
        return None;
    };
    Some(Iso {
        turn: k,
        da: units.a,
        db: units.b,
    })
}
