//! The cells that touch a tile.
ghost use Rattle.std.specs.Prelude.{OnOk, IfOk};
ghost use Rattle.heesch_grid.specs.Cells.{cell_before};
ghost use Rattle.heesch_grid.specs.Geometry.{IsCell, Touching};
ghost use Rattle.heesch_grid.specs.Listing.{ListsExactly};
ghost use Rattle.heesch_grid.specs.Vectors.{IsWithin};
ghost use Rattle.heesch_place.specs.Found.{Adds, FromOne};

use crate::lists::add;
use heesch_grid::{Cell, Grid};
use heesch_index::CellMarks;
use heesch_io::NoMemory;
use heesch_shape::Shape;
use std::alloc::Global;

/// Adds the cells that touch c.
fn add_touching<G: Grid>(all: &mut Vec<Cell>, c: Cell) -> Result<(), NoMemory>
    requires cell { IsCell G.geometry c }
    requires within { IsWithin 1000000 c }
    ensures { OnOk result (Adds (Touching G.geometry c) all.old.items all.new.items) }
{
    for i in 0..G::TOUCHING {
        add(all, G::touching(c, i))?;
    }
    Ok(())
}

/// The cells that touch a cell of the tile, each once, in cell order.
pub(crate) fn cells_touching<G: Grid>(alloc: Global, tile: &Shape<G>) -> Result<Vec<Cell>, NoMemory>
    ensures { IfOk result (λ cells. ListsExactly cell_before (FromOne (Touching G.geometry) tile.now) cells.items) }
{
    let mut all = Vec::new(alloc);
    for c in tile.cells() {
        add_touching::<G>(&mut all, *c)?;
    }
    CellMarks::of(alloc, all.as_slice())?.cells(alloc)
}
