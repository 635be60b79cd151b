//! Lists of at most 32 cells.
ghost use Rattle.std.specs.Prelude.{◌≡◌, ◌<◌, ◌≤◌, ℤ, pos, neg_ℤ, true, map, length, ◌≤ℤ◌, ◌<ℤ◌, ◌+ℤ◌, ◌*ℤ◌};
ghost use Rattle.heesch_grid.specs.declared.Cell.{Cell};
ghost use Rattle.heesch_grid.specs.Cells.{has};
ghost use Rattle.heesch_grid.specs.Geometry.{apply, image};
ghost use Rattle.heesch_grid.specs.Vectors.{plus, IsWithin};
ghost use Rattle.heesch_shape.specs.Least.{IsLeast};

use arrayvec::ArrayVec;
use heesch_grid::{Cell, Grid, Iso};

/// The most cells of a shape.
pub const CELLS_MAX: usize = 32;

/// Whether c is one of the cells.
pub(crate) fn contains(cells: &[Cell], c: Cell) -> bool
    ensures { result ≡ has cells.now c }
{
    cells.iter().any(|d| c == *d)
}

/// The least a and the least b.
pub(crate) fn least(cells: &[Cell]) -> Cell
    requires { 1 ≤ length cells.now }
    ensures { IsLeast cells.now cells.now result }
{
    let mut least = cells[0];
    for c in cells {
        least = Cell {
            a: least.a.min(c.a),
            b: least.b.min(c.b),
        };
    }
    least
}

/// The greatest multiple of the unit that is at most z.
pub(crate) fn floor_multiple(z: i32, unit: i32) -> i32
    requires positive { pos 1 ≤ℤ unit }
    requires small { unit ≤ℤ pos 6 }
    requires low { neg_ℤ (pos 2000000) ≤ℤ z }
    requires high { z ≤ℤ pos 2000000 }
    ensures multiple { (q : ℤ) × (result ≡ unit *ℤ q) }
    ensures below { result ≤ℤ z }
    ensures above { z <ℤ (result +ℤ unit) }
{
    z - z.rem_euclid(unit)
}

/// The cells, each moved by the same pair.
pub(crate) fn moved(cells: &[Cell], by: Cell) -> ArrayVec<Cell, CELLS_MAX>
    requires few { length cells.now ≤ 32 }
    requires within { (c : Cell) → has cells.now c ≡ true → IsWithin 1000000 c }
    requires near { IsWithin 2000000 by }
    ensures { result.items ≡ map (plus by) cells.now }
{
    let mut all = ArrayVec::new();
    for c in cells {
        all.push(Cell {
            a: by.a + c.a,
            b: by.b + c.b,
        });
    }
    all
}

/// The images of the cells, in the order of the cells.
pub(crate) fn carried<G: Grid>(cells: &[Cell], by: Iso) -> ArrayVec<Cell, CELLS_MAX>
    requires few { length cells.now ≤ 32 }
    requires within { (c : Cell) → has cells.now c ≡ true → IsWithin 1000000 c }
    requires turn { by.turn < G.geometry.turns }
    requires images { (c : Cell) → has cells.now c ≡ true → IsWithin 1000000 (apply G.geometry by c) }
    ensures { result.items ≡ image G.geometry by cells.now }
{
    let mut all = ArrayVec::new();
    for c in cells {
        all.push(by.apply_far::<G>(*c));
    }
    all
}

/// The cells in their order.
pub(crate) fn copied(cells: &[Cell]) -> ArrayVec<Cell, CELLS_MAX>
    requires { length cells.now ≤ 32 }
    ensures { result.items ≡ cells.now }
{
    let mut all = ArrayVec::new();
    for c in cells {
        all.push(*c);
    }
    all
}
