//! Part 1, the shape.
ghost use Rattle.std.specs.Prelude.{◌≡◌, All, IfSome, IfNone};
ghost use Rattle.heesch_grid.specs.Vectors.{IsWithin};
ghost use Rattle.heesch_audit.specs.Shapes.{AreCanonical, IsCanonicalShape};

use heesch_grid::{Cell, Grid};
use heesch_shape::Shape;

/// The shape of the cells, where they are the canonical list of a polyform of 1 to 32 cells.
pub(crate) fn canonical_shape<G: Grid>(cells: &[Cell]) -> Option<Shape<G>>
    requires { All (IsWithin 100000) cells.now }
    ensures same { IfSome result (λ s. s ≡ cells.now) }
    ensures canonical { IfSome result (IsCanonicalShape G.geometry) }
    ensures part { IfSome result (λ s. AreCanonical G.geometry cells.now) }
    ensures none { IfNone result (¬ AreCanonical G.geometry cells.now) }
{
    let Ok(shape) = Shape::<G>::of(cells) else {
        return None;
    };
    let canonical = shape.canonical();
    if canonical.cells() == cells {
        return Some(canonical);
    }
    None
}
