//! Translations that carry one shape to another.
ghost use Rattle.std.specs.Prelude.{◌≡◌, ◌≤◌, ◌<◌, ◌↔◌, ◌≤ℤ◌, ◌*ℤ◌, ℤ, pos, neg_ℤ, true, map, length, IfSome, IfNone};
ghost use Rattle.heesch_grid.specs.declared.Cell.{Cell};
ghost use Rattle.heesch_grid.specs.Cells.{has};
ghost use Rattle.heesch_grid.specs.Vectors.{IsWithin, plus};
ghost use Rattle.heesch_orbit.specs.Steps.{IsStepBetween};

use heesch_grid::moves::{difference, units_of};
use heesch_grid::{Cell, Grid};
use heesch_shape::Shape;

/// Whether d is c moved by v.
fn is_moved(c: Cell, d: Cell, v: Cell) -> bool
    requires cell { IsWithin 200000 c }
    requires shift { IsWithin 400000 v }
    ensures { (result ≡ true) ↔ (plus v c ≡ d) }
{
    d == Cell {
        a: v.a + c.a,
        b: v.b + c.b,
    }
}

/// Whether the second list has the cells of the first, each moved by v, in its order.
fn are_moved(from: &[Cell], to: &[Cell], v: Cell) -> bool
    requires cells { (c : Cell) → has from.now c ≡ true → IsWithin 200000 c }
    requires shift { IsWithin 400000 v }
    ensures { (result ≡ true) ↔ (map (plus v) from.now ≡ to.now) }
{
    if from.len() != to.len() {
        return false;
    }
    for (i, c) in from.iter().enumerate() {
        if !is_moved(*c, to[i], v) {
            return false;
        }
    }
    true
}

/// The translation, in units, that carries one shape to the other, if there is one. Both shapes
/// lie within 200,000 of 0. Cost: one comparison a cell.
pub(crate) fn step_between<G: Grid>(from: &Shape<G>, to: &Shape<G>) -> Option<Cell>
    requires from_near { (c : Cell) → has from.now c ≡ true → IsWithin 200000 c }
    requires to_near { (c : Cell) → has to.now c ≡ true → IsWithin 200000 c }
    ensures near { IfSome result (IsWithin 400000) }
    ensures some { IfSome result (IsStepBetween G.geometry from.now to.now) }
    ensures none { IfNone result ((v : Cell) → IsStepBetween G.geometry from.now to.now v → ⊥) }
{
    let cells = from.cells();
    let others = to.cells();
    let v = difference(cells[0], others[0]);
    if !are_moved(cells, others, v) {
        return None;
    }
    units_of(v, G::UNIT)
}
