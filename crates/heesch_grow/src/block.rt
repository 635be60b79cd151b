//! The polyform of one cell.
ghost use Rattle.std.specs.Prelude.{◌≡◌, ℤ, pos, false, true, IfSome, IfNone, ◌≤ℤ◌, ◌<ℤ◌};
ghost use Rattle.heesch_grid.specs.declared.Cell.{Cell};
ghost use Rattle.heesch_grid.specs.Cells.{cell};
ghost use Rattle.heesch_grid.specs.Vectors.{IsWithin};
ghost use Rattle.heesch_grid.specs.Polyform.{IsFreePolyform};
ghost use Rattle.heesch_shape.specs.Walks.{IsShape};

use heesch_grid::{Cell, Grid};
use heesch_shape::Shape;

/// The first cell with this b and 0 <= a < UNIT.
fn first_of_row<G: Grid>(b: i32) -> Option<Cell>
    requires low { pos 0 ≤ℤ b }
    requires high { b <ℤ pos 6 }
    ensures found { IfSome result (λ c. G.geometry.is_cell c ≡ true) }
    ensures near { IfSome result (IsWithin 6) }
    ensures none { IfNone result
        ((a : ℤ) → pos 0 ≤ℤ a → a <ℤ pos G.geometry.unit → G.geometry.is_cell (cell a b) ≡ false) }
{
    for a in 0..G::UNIT {
        let c = Cell { a, b };
        if G::is_cell(c) {
            return Some(c);
        }
    }
    None
}

/// The first cell with 0 <= a < UNIT and 0 <= b < UNIT.
fn first_cell<G: Grid>() -> Cell
    ensures found { G.geometry.is_cell result ≡ true }
    ensures near { IsWithin 6 result }
{
    for b in 0..G::UNIT {
        if let Some(c) = first_of_row::<G>(b) {
            return c;
        }
    }
    unreachable!()
}

/// The canonical shape of one cell. It takes no memory and a constant time.
pub fn first<G: Grid>() -> Shape<G>
    ensures free { IsFreePolyform G.geometry 1 result }
    ensures shape { IsShape G.geometry result }
{
    Shape::single(first_cell::<G>()).canonical()
}
