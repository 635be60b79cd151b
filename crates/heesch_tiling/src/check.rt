//! Whether tiles are a periodic cover.
ghost use Rattle.std.specs.Prelude.{◌≡◌, ◌≤◌, ◌*◌, [], true, length, All, IfOk};
ghost use Rattle.heesch_grid.specs.declared.Cell.{Cell};
ghost use Rattle.heesch_grid.specs.Cells.{has};
ghost use Rattle.heesch_grid.specs.Polyform.{IsPolyform};
ghost use Rattle.heesch_grid.specs.Vectors.{IsWithin};
ghost use Rattle.heesch_lattice.specs.Reduction.{IsSmallTriple};
ghost use Rattle.heesch_tiling.specs.Counting.{window_size, IsInRange, AreCounts};
ghost use Rattle.heesch_tiling.specs.CoverAnswer.{IsCoverAnswer, AnswersCounts};

use crate::counts::{count_tiles, first_amiss};
use crate::window::window_size;
use heesch_cert::Tiling;
use heesch_grid::{Cell, Grid, Iso};
use heesch_io::NoMemory;
use heesch_lattice::Triple;
use heesch_shape::Shape;
use std::alloc::Global;

/// What tiles and their translates cover.
#[derive(Clone, Copy, Debug, PartialEq, Eq)]
pub enum Cover {
    /// Each cell exactly once.
    Exact,
    /// This reduced cell is the first that is covered twice.
    Doubled { cell: Cell },
    /// No cell is covered twice, and this reduced cell is the first that isn't covered.
    Missed { cell: Cell },
}

/// The first reduced cell that counts twice, else the first that counts not at all.
fn answer<G: Grid>(counts: &[u16], triple: Triple) -> Cover
    requires all { length counts.now ≡ window_size G.geometry triple }
    requires few { length counts.now ≤ 1000000 }
    ensures { AnswersCounts G.geometry triple counts.now result }
{
    if let Some(cell) = first_amiss::<G>(counts, triple, 0, 1) {
        return Cover::Doubled { cell };
    }
    if let Some(cell) = first_amiss::<G>(counts, triple, 1, 1) {
        return Cover::Missed { cell };
    }
    Cover::Exact
}

/// What tiles cover, where there is no count yet.
fn cover_of<G: Grid>(counts: &mut [u16], cells: &[Cell], triple: Triple, places: &[Iso]) -> Cover
    requires triple { IsSmallTriple triple }
    requires none { AreCounts G.geometry triple [] counts.old }
    requires form { IsPolyform G.geometry cells.now }
    requires few { length cells.now * length places.now ≤ 384 }
    requires near { (c : Cell) → has cells.now c ≡ true → IsWithin 100000 c }
    requires range { All (IsInRange G.geometry) places.now }
    ensures { IsCoverAnswer G.geometry cells.now triple places.now result }
{
    count_tiles::<G>(counts, cells, triple, places);
    answer::<G>(counts, triple)
}

/// What the tiles of a shape and their translates by lattice vectors cover: every cell of the grid
/// exactly once; else the first reduced cell, in cell order, that is covered twice, by two tiles or
/// by one tile with its own translate; else the first that isn't covered. Condition: the cells of
/// the shape and the translations lie within 100,000 of 0, each turn is one of the grid's, and
/// there are at most 12 places. Cost: two bytes and two reads for each pair of the window of UNIT
/// times p by UNIT times q, and a reduction for each cell of each tile.
pub fn check_cover<G: Grid>(
    alloc: Global,
    shape: &Shape<G>,
    tiling: &Tiling,
) -> Result<Cover, NoMemory>
    requires few { length tiling.now.places ≤ 12 }
    requires near { (c : Cell) → has shape.now c ≡ true → IsWithin 100000 c }
    requires range { All (IsInRange G.geometry) tiling.now.places }
    ensures { IfOk result (IsCoverAnswer G.geometry shape.now tiling.now.triple tiling.now.places) }
{
    let triple = tiling.triple;
    let mut counts = vec![in alloc; 0; window_size::<G>(triple)]?;
    let places = tiling.places.as_slice();
    Ok(cover_of::<G>(&mut counts, shape.cells(), triple, places))
}
