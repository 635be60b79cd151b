//! Which cells of a list are joined to its first cell.
ghost use Rattle.std.specs.Prelude.{◌≡◌, ◌<◌, ◌≤◌, true, false, length, IfSome, IfNone, slice_index_or};
ghost use Rattle.heesch_grid.specs.declared.Cell.{Cell};
ghost use Rattle.heesch_grid.specs.Cells.{same_cell, has};
ghost use Rattle.heesch_grid.specs.Geometry.{Adjacent};
ghost use Rattle.heesch_grid.specs.Vectors.{IsWithin};
ghost use Rattle.std.specs.List.{IsDistinct};
ghost use Rattle.heesch_shape.specs.Reach.{AreApart, IsCutOff, IsNextTo};

use crate::lists::CELLS_MAX;
use arrayvec::ArrayVec;
use heesch_grid::{Cell, Grid};

/// Whether c, which is a cell, is adjacent to d.
fn are_adjacent<G: Grid>(c: Cell, d: Cell) -> bool
    requires cell { G.geometry.is_cell c ≡ true }
    requires within { IsWithin 1000000 c }
    ensures { result ≡ has (G.geometry.adjacent c) d }
{
    for i in 0..G::ADJACENT {
        if G::adjacent(c, i) == d {
            return true;
        }
    }
    false
}

/// Whether one of the cells is adjacent to d. The cells have coordinates within 1,000,000 of 0.
/// It looks at the neighbours of each cell, up to the first that is d.
pub fn is_next_to<G: Grid>(inside: &[Cell], d: Cell) -> bool
    requires cells { (c : Cell) → has inside.now c ≡ true → G.geometry.is_cell c ≡ true }
    requires within { (c : Cell) → has inside.now c ≡ true → IsWithin 1000000 c }
    ensures yes { result ≡ true → IsNextTo G.geometry inside.now d }
    ensures no { result ≡ false → (c : Cell) → has inside.now c ≡ true → Adjacent G.geometry c d → ⊥ }
{
    for c in inside {
        if are_adjacent::<G>(*c, d) {
            return true;
        }
    }
    false
}

/// The first place in `outside` of a cell that is adjacent to one of `inside`.
fn next_place<G: Grid>(inside: &[Cell], outside: &[Cell]) -> Option<usize>
    requires cells { (c : Cell) → has inside.now c ≡ true → G.geometry.is_cell c ≡ true }
    requires within { (c : Cell) → has inside.now c ≡ true → IsWithin 1000000 c }
    ensures below { IfSome result (λ at. at < length outside.now) }
    ensures found { IfSome result
        (λ at. (d : Cell) → IsNextTo G.geometry inside.now (slice_index_or outside.now at d)) }
    ensures none { IfNone result (AreApart G.geometry inside.now outside.now) }
{
    for (at, d) in outside.iter().enumerate() {
        if is_next_to::<G>(inside, *d) {
            return Some(at);
        }
    }
    None
}

/// The cells that are not joined to the first one.
pub(crate) fn parted<G: Grid>(cells: &[Cell]) -> ArrayVec<Cell, CELLS_MAX>
    requires some { 1 ≤ length cells.now }
    requires few { length cells.now ≤ 32 }
    requires distinct { IsDistinct same_cell cells.now }
    requires cells { (c : Cell) → has cells.now c ≡ true → G.geometry.is_cell c ≡ true }
    requires within { (c : Cell) → has cells.now c ≡ true → IsWithin 1000000 c }
    ensures { IsCutOff G.geometry cells.now result.items }
{
    let mut inside: ArrayVec<Cell, CELLS_MAX> = ArrayVec::new();
    let mut outside: ArrayVec<Cell, CELLS_MAX> = ArrayVec::new();
    for c in cells {
        outside.push(*c);
    }
    inside.push(outside.remove(0));
    while let Some(at) = next_place::<G>(inside.as_slice(), outside.as_slice()) {
        inside.push(outside.remove(at));
    }
    outside
}
