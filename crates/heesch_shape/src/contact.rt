//! Shapes that meet and shapes that touch.
ghost use Rattle.std.specs.Prelude.{◌≡◌, true};
ghost use Rattle.std.specs.List.{list_any};
ghost use Rattle.heesch_grid.specs.declared.Cell.{Cell};
ghost use Rattle.heesch_grid.specs.Cells.{cell_before, has, meet};
ghost use Rattle.heesch_grid.specs.Geometry.{IsCell, are_touching};
ghost use Rattle.heesch_grid.specs.Listing.{IsRising};
ghost use Rattle.heesch_grid.specs.Placement.{touch};
ghost use Rattle.heesch_grid.specs.Vectors.{IsWithin};

use crate::lists::contains;
use crate::shapes::Shape;
use heesch_grid::{Cell, Grid};

/// Whether two lists in cell order share a cell.
fn share_one(left: &[Cell], right: &[Cell]) -> bool
    requires left { IsRising cell_before left.now }
    requires right { IsRising cell_before right.now }
    ensures { result ≡ meet left.now right.now }
{
    let mut i = 0;
    let mut j = 0;
    while i < left.len() && j < right.len() {
        if left[i] == right[j] {
            return true;
        }
        if left[i] < right[j] {
            i += 1;
        } else {
            j += 1;
        }
    }
    false
}

/// Whether c, which is a cell, touches one of the others.
fn touches_one<G: Grid>(c: Cell, others: &[Cell]) -> bool
    requires cell { IsCell G.geometry c }
    requires within { IsWithin 1000000 c }
    ensures { result ≡ list_any (are_touching G.geometry c) others.now }
{
    for i in 0..G::TOUCHING {
        if contains(others, G::touching(c, i)) {
            return true;
        }
    }
    false
}

/// Whether one of the cells touches one of the others.
fn some_touch<G: Grid>(cells: &[Cell], others: &[Cell]) -> bool
    requires cells { (c : Cell) → has cells.now c ≡ true → IsCell G.geometry c }
    requires within { (c : Cell) → has cells.now c ≡ true → IsWithin 1000000 c }
    ensures { result ≡ list_any (λ c. list_any (are_touching G.geometry c) others.now) cells.now }
{
    for c in cells {
        if touches_one::<G>(*c, others) {
            return true;
        }
    }
    false
}

impl<G: Grid> Shape<G> {
    /// Whether the two share a cell. It goes once through both lists, so at most 64 comparisons.
    pub fn meets(&self, other: &Shape<G>) -> bool
        ensures { result ≡ meet self.now other.now }
    {
        share_one(self.cells(), other.cells())
    }

    /// Whether the two share no cell, and a cell of one touches a cell of the other.
    ///
    /// It looks for each cell that touches one of its own, at most 12 a cell, among those of the
    /// other, up to the first that is there.
    pub fn touches(&self, other: &Shape<G>) -> bool
        ensures { result ≡ touch G.geometry self.now other.now }
    {
        if self.meets(other) {
            return false;
        }
        some_touch::<G>(self.cells(), other.cells())
    }
}
