//! Shapes of cells near 0.
ghost use Rattle.std.specs.Prelude.{◌≡◌, true, IfErr, IfOk};
ghost use Rattle.heesch_grid.specs.declared.Cell.{Cell};
ghost use Rattle.heesch_grid.specs.Cells.{has, IsCellListOf};
ghost use Rattle.heesch_grid.specs.Polyform.{IsCanonicalListOf};
ghost use Rattle.heesch_grid.specs.Vectors.{IsWithin};
ghost use Rattle.heesch_made.specs.Near.{AreNear};
ghost use Rattle.heesch_shape.specs.Faults.{IsFaultless};
ghost use Rattle.heesch_shape.specs.Walks.{IsShape};

use heesch_grid::{Cell, Grid};
use heesch_shape::Shape;
use std::test::Fail;

/// Whether both coordinates lie within 2,048 of 0.
fn is_near(c: Cell) -> bool
    ensures within { result ≡ true → IsWithin 2048 c }
    ensures all { IsWithin 2048 c → result ≡ true }
{
    -2048 <= c.a && c.a <= 2048 && -2048 <= c.b && c.b <= 2048
}

/// Whether all cells lie within 2,048 of 0.
pub fn are_near(cells: &[Cell]) -> bool
    ensures within { result ≡ true → AreNear cells.now }
    ensures all { AreNear cells.now → result ≡ true }
{
    for c in cells {
        if !is_near(*c) {
            return false;
        }
    }
    true
}

/// The shape of these cells; a test fails where they aren't near 0, or no shape.
pub fn shape_of<G: Grid>(cells: &[Cell]) -> Result<Shape<G>, Fail>
    ensures near { IfOk result (λ shape. (c : Cell) → has shape c ≡ true → IsWithin 100000 c) }
    ensures shape { IfOk result (IsShape G.geometry) }
    ensures list { IfOk result (IsCellListOf cells.now) }
    ensures fails { IfErr result (λ _. AreNear cells.now → IsFaultless G.geometry cells.now → ⊥) }
{
    if !are_near(cells) {
        return Err(Fail::new("the cells are far"));
    }
    Ok(Shape::of(cells)?)
}

/// The canonical shape of these cells; a test fails where they aren't near 0, or no shape.
pub fn canonical_of<G: Grid>(cells: &[Cell]) -> Result<Shape<G>, Fail>
    ensures canonical { IfOk result (λ shape. IsCanonicalListOf G.geometry shape shape) }
    ensures fails { IfErr result (λ _. AreNear cells.now → IsFaultless G.geometry cells.now → ⊥) }
{
    let shape = shape_of::<G>(cells)?;
    Ok(shape.canonical())
}
