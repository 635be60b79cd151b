//! Holes of patches.
ghost use Rattle.std.specs.Prelude.{◌≡◌, ◌<◌, ◌≤◌, ◌≤ℤ◌, ◌+ℤ◌, pos, ℕ, true, All, length, take, slice_index, IfOk};
ghost use Rattle.std.specs.Prelude.{MatchOption};
ghost use Rattle.heesch_grid.specs.declared.Cell.{Cell};
ghost use Rattle.heesch_grid.specs.Cells.{has};
ghost use Rattle.heesch_grid.specs.Corona.{cells_of};
ghost use Rattle.heesch_grid.specs.Hole.{IsHoleFree, IsGreatestHole};
ghost use Rattle.heesch_shape.specs.Walks.{IsShape};
ghost use Rattle.heesch_corona.specs.Searches.{IsWhole, IsFirstHole};
ghost use Rattle.heesch_corona.specs.Building.{AreClose};

use heesch_grid::{Cell, Grid};
use heesch_index::CellIndex;
use heesch_io::{NoMemory, Seq};
use heesch_region::Region;
use std::alloc::Global;

/// The cells of the first so many tiles.
fn patch_cells(alloc: Global, index: &CellIndex, end: u32) -> Result<Vec<Cell>, NoMemory>
    requires { end ≤ length index.now }
    ensures { IfOk result (λ cells. cells.items ≡ cells_of (take end index.now)) }
{
    let mut cells = Vec::new(alloc);
    for at in 0..end {
        cells.extend_from_slice(index.cells(at + 1))?;
    }
    Ok(cells)
}

/// The greatest hole of the first so many tiles.
fn hole_of<G: Grid>(
    alloc: Global,
    index: &CellIndex,
    end: u32,
) -> Result<Option<Seq<Cell>>, NoMemory>
    requires shapes { All (IsShape G.geometry) index.now }
    requires close { AreClose index.now }
    requires end { end ≤ length index.now }
    ensures { IfOk result (λ hole. MatchOption hole (IsHoleFree G.geometry (cells_of (take end index.now)))
        (λ hole. (0 < length hole) × IsGreatestHole G.geometry (cells_of (take end index.now)) hole)) }
{
    let cells = patch_cells(alloc, index, end)?;
    Region::<G>::from_cells(alloc, &cells)?.hole(alloc)
}

/// The first level whose patch has a hole, with its greatest hole.
pub(crate) fn first_hole<G: Grid>(
    alloc: Global,
    index: &CellIndex,
    ends: &[u32],
) -> Result<Option<(u32, Seq<Cell>)>, NoMemory>
    requires shapes { All (IsShape G.geometry) index.now }
    requires close { AreClose index.now }
    requires ends { All (λ end. end ≤ length index.now) ends.now }
    requires few { length ends.now ≤ 7 }
    ensures { IfOk result
        (λ holed. MatchOption holed
        ((level : ℕ) → 1 ≤ level → level < length ends.now → IsWhole G.geometry index.now ends.now level)
        (IsFirstHole G.geometry index.now ends.now)) }
{
    for level in 1..ends.len() {
        if let Some(hole) = hole_of::<G>(alloc, index, ends[level])? {
            return Ok(Some((level as u32, hole)));
        }
    }
    Ok(None)
}
