//! Cells around a patch that the next layer leaves uncovered.
ghost use Rattle.std.specs.Prelude.{◌≡◌, ◌<◌, ◌≤◌, ◌-◌, ℕ, Bool, true, false, not, ◌&&◌, ◌||◌, All, length, take};
ghost use Rattle.std.specs.Prelude.{slice_index, MatchOption};
ghost use Rattle.std.specs.List.{list_any};
ghost use Rattle.heesch_grid.specs.declared.Cell.{Cell};
ghost use Rattle.heesch_grid.specs.Cells.{has, cell_before, same_cell, set_of};
ghost use Rattle.heesch_grid.specs.Geometry.{IsCell};
ghost use Rattle.heesch_grid.specs.Vectors.{IsWithin};
ghost use Rattle.heesch_grid.specs.Corona.{cells_of};
ghost use Rattle.heesch_shape.specs.Walks.{IsShape};
ghost use Rattle.heesch_corona.specs.Searches.{is_gap, IsLeastWith, HasNoGap, IsFirstGap};

use crate::patches::is_covered;
use heesch_grid::{Cell, Grid};
use heesch_index::CellIndex;

/// The lesser of the least cell so far and another one.
fn lesser(least: Option<Cell>, c: Cell) -> Option<Cell>
    ensures { (test : Cell → Bool) → IsLeastWith test least → IsLeastWith (λ d. test d || same_cell d c) result }
{
    if let Some(d) = least {
        if d < c {
            return Some(d);
        }
    }
    Some(c)
}

/// The least so far, or a lesser cell that touches c and lies in none of the first so many tiles.
fn least_beside<G: Grid>(
    index: &CellIndex,
    c: Cell,
    outer: u32,
    so_far: Option<Cell>,
) -> Option<Cell>
    requires cell { IsCell G.geometry c }
    requires within { IsWithin 1000000 c }
    ensures { (test : Cell → Bool) → IsLeastWith test so_far
        → IsLeastWith (λ d. test d ||
        (has (G.geometry.touching c) d && not (has (cells_of (take outer index.now)) d))) result }
{
    let mut least = so_far;
    for i in 0..G::TOUCHING {
        let d = G::touching(c, i);
        if !is_covered(index, d, outer) {
            least = lesser(least, d);
        }
    }
    least
}

/// The least so far, or a lesser cell that touches the tile and lies in none of the first so many tiles.
fn least_around<G: Grid>(
    index: &CellIndex,
    number: u32,
    outer: u32,
    so_far: Option<Cell>,
) -> Option<Cell>
    requires shapes { All (IsShape G.geometry) index.now }
    requires low { 1 ≤ number }
    requires high { number ≤ length index.now }
    ensures { (test : Cell → Bool) → IsLeastWith test so_far
        → IsLeastWith (λ d. test d || (list_any (λ c. has (G.geometry.touching c) d) (set_of index.now number)
        && not (has (cells_of (take outer index.now)) d))) result }
{
    let mut least = so_far;
    for c in index.cells(number) {
        least = least_beside::<G>(index, *c, outer, least);
    }
    least
}

/// The least cell that touches one of the first `inner` tiles and lies in none of the first `outer`.
fn least_gap<G: Grid>(index: &CellIndex, inner: u32, outer: u32) -> Option<Cell>
    requires shapes { All (IsShape G.geometry) index.now }
    requires inner { inner ≤ length index.now }
    ensures { IsLeastWith (is_gap G.geometry index.now inner outer) result }
{
    let mut least = None;
    for at in 0..inner {
        least = least_around::<G>(index, at + 1, outer, least);
    }
    least
}

/// The first level with a gap, and the least gap there.
pub(crate) fn first_gap<G: Grid>(index: &CellIndex, ends: &[u32]) -> Option<(u32, Cell)>
    requires shapes { All (IsShape G.geometry) index.now }
    requires ends { All (λ end. end ≤ length index.now) ends.now }
    requires few { length ends.now ≤ 7 }
    ensures { MatchOption result
        ((level : ℕ) → 1 ≤ level → level < length ends.now → HasNoGap G.geometry index.now ends.now level)
        (IsFirstGap G.geometry index.now ends.now) }
{
    for level in 1..ends.len() {
        if let Some(cell) = least_gap::<G>(index, ends[level - 1], ends[level]) {
            return Some((level as u32, cell));
        }
    }
    None
}
