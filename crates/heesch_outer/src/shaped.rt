//! The shape of an entry.
ghost use Rattle.std.specs.Prelude.{◌≡◌};
ghost use Rattle.heesch_audit.specs.Shapes.{AreCanonical, IsCanonicalShape};

use heesch_grid::{Cell, Grid};
use heesch_shape::Shape;

/// The shape of the cells, which are the canonical list of a polyform of 1 to 32 cells.
pub(crate) fn shape_of<G: Grid>(cells: &[Cell]) -> Shape<G>
    requires { AreCanonical G.geometry cells.now }
    ensures same { result ≡ cells.now }
    ensures canonical { IsCanonicalShape G.geometry result }
{
    Shape::<G>::of(cells).unwrap()
}
