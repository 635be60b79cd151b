//! The check of layers of coronas.
ghost use Rattle.std.specs.Prelude.{◌≡◌, ◌↔◌, ◌≤◌, List, true, All, length, IfOk};
ghost use Rattle.heesch_grid.specs.declared.Cell.{Cell};
ghost use Rattle.heesch_grid.specs.Cells.{has};
ghost use Rattle.heesch_grid.specs.Vectors.{IsWithin};
ghost use Rattle.heesch_corona.specs.Tiles.{IsInRange, AreTilesOf};
ghost use Rattle.heesch_corona.specs.Answer.{IsAnswer, AreAsked};

use crate::gaps::first_gap;
use crate::holes::first_hole;
use crate::meetings::first_meeting;
use crate::patches::patches_of;
use crate::touching::first_loose;
use heesch_cert::{Cells, Layers};
use heesch_grid::{Cell, Grid};
use heesch_io::NoMemory;
use heesch_shape::Shape;
use std::alloc::Global;

/// What was found of layers: the first of these that applies. Tiles are numbered through the layers from 1, and the
/// polyform is 0; levels count from 1.
#[derive(Debug, Drop)]
pub enum CoronaAnswer {
    /// The least pair of tiles that meet, by i, then by j; i is below j.
    Meets { i: usize, j: usize },
    /// The least tile that touches no tile of an earlier layer, the polyform included.
    Loose { i: usize },
    /// The least level at which a cell around the patch before it lies in no tile up to that level, and the least such
    /// cell.
    Uncovered { level: u32, cell: Cell },
    /// The least level whose patch has a hole, with its greatest hole.
    Hole { level: u32, cells: Cells },
    /// None of these: the layers are coronas, and hole-free ones where that was asked.
    Holds,
}

/// Whether the tiles of the layers surround the polyform, layer by layer, and where `hole_free` is asked without
/// holes; else the first of what is amiss.
///
/// The cells of the shape lie within 100,000 of 0, each isometry's turn is below TURNS and its translation within
/// 100,000, and there are at most six layers. It takes a few look-ups for each neighbour of each cell of each tile, at
/// each of the levels, and for the holes a flood of each patch (`Region::hole`). More than 2^32 tiles count as want of
/// memory.
pub fn check_coronas<G: Grid>(
    alloc: Global,
    shape: &Shape<G>,
    layers: &Layers,
    hole_free: bool,
) -> Result<CoronaAnswer, NoMemory>
    requires near { (c : Cell) → has shape.now c ≡ true → IsWithin 100000 c }
    requires isometries { All (All (IsInRange G.geometry)) layers.now.layers }
    requires few { length layers.now.layers ≤ 6 }
    ensures tiles { IfOk result
        (λ _. (tiles : List (List (List Cell))) × AreTilesOf G.geometry shape.now layers.now.layers tiles) }
    ensures answer { IfOk result (λ answer. (tiles : List (List (List Cell)))
        → AreTilesOf G.geometry shape.now layers.now.layers tiles
        → IsAnswer G.geometry shape.now tiles hole_free answer) }
    ensures holds { IfOk result (λ answer. (tiles : List (List (List Cell)))
        → AreTilesOf G.geometry shape.now layers.now.layers tiles
        → (answer ≡ CoronaAnswer.Holds) ↔ AreAsked G.geometry shape.now hole_free tiles) }
{
    let patches = patches_of(alloc, shape, layers)?;
    if let Some((first, second)) = first_meeting(&patches.index) {
        return Ok(CoronaAnswer::Meets {
            i: first as usize - 1,
            j: second as usize - 1,
        });
    }
    if let Some(number) = first_loose::<G>(&patches.index, &patches.ends) {
        return Ok(CoronaAnswer::Loose {
            i: number as usize - 1,
        });
    }
    if let Some((level, cell)) = first_gap::<G>(&patches.index, &patches.ends) {
        return Ok(CoronaAnswer::Uncovered { level, cell });
    }
    if hole_free {
        if let Some((level, cells)) = first_hole::<G>(alloc, &patches.index, &patches.ends)? {
            return Ok(CoronaAnswer::Hole { level, cells });
        }
    }
    Ok(CoronaAnswer::Holds)
}
