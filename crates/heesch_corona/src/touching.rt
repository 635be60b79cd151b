//! Tiles that touch no tile of an earlier layer.
ghost use Rattle.std.specs.Prelude.{◌≡◌, ◌<◌, ◌≤◌, ◌-◌, ℕ, List, true, All, length, take, slice_index, MatchOption};
ghost use Rattle.std.specs.List.{list_any};
ghost use Rattle.heesch_grid.specs.declared.Cell.{Cell};
ghost use Rattle.heesch_grid.specs.Cells.{has, set_of};
ghost use Rattle.heesch_grid.specs.Geometry.{IsCell};
ghost use Rattle.heesch_grid.specs.Vectors.{IsWithin};
ghost use Rattle.heesch_grid.specs.Corona.{cells_of};
ghost use Rattle.heesch_shape.specs.Walks.{IsShape};
ghost use Rattle.heesch_corona.specs.Searches.{does_reach, IsLooseAmong, DoReach, IsFirstLoose};

use crate::patches::is_covered;
use heesch_grid::{Cell, Grid};
use heesch_index::CellIndex;

/// Whether a cell touches one of the first so many tiles.
fn is_beside<G: Grid>(index: &CellIndex, c: Cell, most: u32) -> bool
    requires cell { IsCell G.geometry c }
    requires within { IsWithin 1000000 c }
    ensures { result ≡ list_any (has (cells_of (take most index.now))) (G.geometry.touching c) }
{
    for i in 0..G::TOUCHING {
        if is_covered(index, G::touching(c, i), most) {
            return true;
        }
    }
    false
}

/// Whether a cell of a tile touches one of the first so many.
fn reaches<G: Grid>(index: &CellIndex, number: u32, most: u32) -> bool
    requires shapes { All (IsShape G.geometry) index.now }
    requires low { 1 ≤ number }
    requires high { number ≤ length index.now }
    ensures { result ≡ does_reach G.geometry index.now (set_of index.now number) most }
{
    for c in index.cells(number) {
        if is_beside::<G>(index, *c, most) {
            return true;
        }
    }
    false
}

/// The first tile after `inner`, up to `outer`, that touches none of the first `inner`.
fn loose_among<G: Grid>(index: &CellIndex, inner: u32, outer: u32) -> Option<u32>
    requires shapes { All (IsShape G.geometry) index.now }
    requires outer { outer ≤ length index.now }
    ensures { IsLooseAmong G.geometry index.now inner outer result }
{
    for at in inner..outer {
        if !reaches::<G>(index, at + 1, inner) {
            return Some(at + 1);
        }
    }
    None
}

/// The first tile that touches no tile of an earlier layer.
pub(crate) fn first_loose<G: Grid>(index: &CellIndex, ends: &[u32]) -> Option<u32>
    requires shapes { All (IsShape G.geometry) index.now }
    requires ends { All (λ end. end ≤ length index.now) ends.now }
    ensures { MatchOption result
        ((level : ℕ) → 1 ≤ level → level < length ends.now → DoReach G.geometry index.now ends.now level)
        (IsFirstLoose G.geometry index.now ends.now) }
{
    for level in 1..ends.len() {
        if let Some(number) = loose_among::<G>(index, ends[level - 1], ends[level]) {
            return Some(number);
        }
    }
    None
}
