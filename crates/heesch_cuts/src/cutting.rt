//! A cut for a model whose placements enclose a hole.
ghost use Rattle.std.specs.Prelude.{◌≡◌, ◌<◌, ◌≤◌, All, IfOk, MatchOption, length};
ghost use Rattle.heesch_grid.specs.Hole.{IsGreatestHole};
ghost use Rattle.heesch_grid.specs.Vectors.{IsWithin};
ghost use Rattle.heesch_place.specs.Universes.{IsUniverseOf};
ghost use Rattle.heesch_cuts.specs.Chosen.{IsOpen, CutsOff};
ghost use Rattle.heesch_cuts.specs.Patches.{IsPatchOf};

use crate::border::{LevelPatch, border_of};
use crate::parts::joined_part;
use crate::patches::add_layer;
use heesch_cert::Cut;
use heesch_grid::{Cell, Grid};
use heesch_io::NoMemory;
use heesch_place::Universe;
use heesch_region::Region;
use heesch_shape::Shape;
use std::alloc::Global;

/// The cut of a joined part of the greatest hole of the patch of a level.
fn cut_around<G: Grid>(
    alloc: Global,
    patch: &LevelPatch<G>,
    greatest: &[Cell],
) -> Result<Cut, NoMemory>
    requires universe { IsUniverseOf G.geometry patch.now.universe.now }
    requires patch { IsPatchOf patch.now.universe.now patch.now.shape.now patch.now.model.now patch.now.level
        patch.now.cells.now }
    requires level { (1 ≤ patch.now.level) × (patch.now.level ≤ patch.now.universe.now.level) }
    requires near { All (IsWithin 1000000) patch.now.cells.now }
    requires some { 0 < length greatest.now }
    requires greatest { IsGreatestHole G.geometry patch.now.cells.now greatest.now }
    ensures { IfOk result (CutsOff G.geometry patch.now.universe.now patch.now.model.now) }
{
    let hole = joined_part::<G>(alloc, greatest)?;
    let border = border_of::<G>(alloc, patch, hole.as_slice())?;
    Ok(Cut {
        level: patch.level,
        hole,
        border,
    })
}

/// A lawful cut whose clause the model makes false, or None exactly where the patch of every level
/// from 1 is hole-free. The patch of level k is the shape with the placements of the true variables
/// of level at most k.
///
/// The cut is of the least level whose patch has a hole. Its hole is one joined part of the greatest
/// hole, the one with the first cell: one hole a model is enough, and a joined hole gives a shorter
/// clause than the greatest one. Its border has only placements that a cell adjacent to the hole
/// needs: for each such cell outside the shape, the least true variable of that level or below whose
/// placement has it.
///
/// Condition: the universe is of this shape, and the model has a value for each of its variables,
/// in number order from 1. Each level looks at each variable once, and floods the patch once.
pub fn cut_for<G: Grid>(
    alloc: Global,
    shape: &Shape<G>,
    universe: &Universe<G>,
    model: &[bool],
) -> Result<Option<Cut>, NoMemory>
    requires universe { IsUniverseOf G.geometry universe.now }
    requires shape { universe.now.shape ≡ shape.now }
    requires values { length universe.now.vars ≤ length model.now }
    ensures { IfOk result
        (λ cut. MatchOption cut (IsOpen G.geometry universe.now model.now)
        (λ cut. CutsOff G.geometry universe.now model.now cut)) }
{
    let mut cells = Vec::from_slice(alloc, shape.cells())?;
    for k in 0..universe.level() {
        add_layer::<G>(&mut cells, universe, model, k + 1)?;
        let region = Region::<G>::from_cells(alloc, &cells)?;
        if let Some(hole) = region.hole(alloc)? {
            let patch = LevelPatch {
                shape,
                universe,
                model,
                level: k + 1,
                cells: &region,
            };
            return Ok(Some(cut_around::<G>(alloc, &patch, hole.as_slice())?));
        }
    }
    Ok(None)
}
