//! The cells around a tile.
ghost use Rattle.std.specs.Prelude.{◌≡◌, ◌++◌, List, filter, not, OnOk};
ghost use Rattle.heesch_grid.specs.declared.Cell.{Cell};
ghost use Rattle.heesch_grid.specs.Cells.{cell_before, has};
ghost use Rattle.heesch_grid.specs.CoronaFormula.{GivesCellsAround};
ghost use Rattle.heesch_grid.specs.Geometry.{IsAround, IsCell};
ghost use Rattle.heesch_grid.specs.Listing.{ListsExactly};
ghost use Rattle.heesch_grid.specs.Vectors.{IsWithin};

use crate::lists::add;
use heesch_grid::{Cell, Grid};
use heesch_io::NoMemory;
use heesch_shape::Shape;

/// Adds the cells that touch c and aren't the tile's, in cell order.
fn add_touching<G: Grid>(ring: &mut Vec<Cell>, tile: &Shape<G>, c: Cell) -> Result<(), NoMemory>
    requires cell { IsCell G.geometry c }
    requires within { IsWithin 1000000 c }
    ensures { OnOk result
        (ring.new.items ≡ ring.old.items ++ filter (λ d. not (has tile.now d)) (G.geometry.touching c)) }
{
    for i in 0..G::TOUCHING {
        let near = G::touching(c, i);
        if !tile.has(near) {
            add(ring, near)?;
        }
    }
    Ok(())
}

/// Lists the cells around a tile, in cell order, in place of what the list had. It looks at the neighbours of each
/// cell once, and sorts at most 384.
pub fn write_ring<G: Grid>(ring: &mut Vec<Cell>, tile: &Shape<G>) -> Result<(), NoMemory>
    ensures listed { OnOk result (ListsExactly cell_before (IsAround G.geometry tile.now) ring.new.items) }
    ensures given { OnOk result
        ((around : List Cell → List Cell) → GivesCellsAround G.geometry around → ring.new.items ≡ around tile.now) }
{
    ring.clear();
    for c in tile.cells() {
        add_touching(ring, tile, *c)?;
    }
    ring.sort_unstable();
    ring.dedup();
    Ok(())
}
