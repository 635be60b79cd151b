//! Whether a shape has a hole.
ghost use Rattle.std.specs.Prelude.{IfOk};
ghost use Rattle.heesch_table.specs.Holed.{IsHoled};

use heesch_grid::Grid;
use heesch_io::NoMemory;
use heesch_region::Region;
use heesch_shape::Shape;
use std::alloc::Global;

/// Whether the shape has a hole. It floods the window around the shape, and takes memory for that.
pub fn has_hole<G: Grid>(alloc: Global, shape: &Shape<G>) -> Result<bool, NoMemory>
    ensures { IfOk result (IsHoled G.geometry shape.now) }
{
    let region = Region::<G>::from_cells(alloc, shape.cells())?;
    let hole = region.hole(alloc)?;
    Ok(hole.is_some())
}
