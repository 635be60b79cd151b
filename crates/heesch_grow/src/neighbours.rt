//! The cells beside a shape.
ghost use Rattle.std.specs.Prelude.{◌≡◌, ◌+◌, ◌<◌, ◌≤◌, true, length};
ghost use Rattle.heesch_grid.specs.Cells.{cell_before, has};
ghost use Rattle.heesch_grid.specs.Geometry.{Adjacent};
ghost use Rattle.heesch_grid.specs.Listing.{ListsExactly};
ghost use Rattle.heesch_grow.specs.Collects.{Collects, IsCollection};
ghost use Rattle.heesch_grow.specs.Generator.{IsBeside, IsDrawn};

use arrayvec::ArrayVec;
use heesch_grid::{Cell, Grid};
use heesch_shape::Shape;

/// The most cells beside a shape: 12 for each of 32.
const BESIDE_MAX: usize = 384;

/// Whether c is one of the cells.
fn contains(cells: &[Cell], c: Cell) -> bool
    ensures { result ≡ has cells.now c }
{
    cells.iter().any(|d| c == *d)
}

/// Adds the neighbours of c, a cell of the shape, that are outside the shape and aren't there yet.
fn add_neighbours<G: Grid>(beside: &mut ArrayVec<Cell, BESIDE_MAX>, shape: &Shape<G>, c: Cell)
    requires inside { has shape.now c ≡ true }
    requires collection { IsCollection G.geometry shape.now beside.old.items }
    requires room { length beside.old.items + 12 ≤ 384 }
    ensures collects { Collects G.geometry shape.now (Adjacent G.geometry c) beside.old.items beside.new.items }
    ensures few { length beside.new.items ≤ length beside.old.items + 12 }
{
    let _shape = shape.cells();
    for i in 0..G::ADJACENT {
        let d = G::adjacent(c, i);
        if !shape.has(d) && !contains(beside.as_slice(), d) {
            beside.push(d);
        }
    }
}

/// The cells beside the shape, once each in cell order. There is at least one.
fn beside<G: Grid>(shape: &Shape<G>) -> ArrayVec<Cell, BESIDE_MAX>
    ensures listed { ListsExactly cell_before (IsBeside G.geometry shape.now) result.items }
    ensures some { 0 < length result.items }
{
    let mut beside = ArrayVec::new();
    let cells = shape.cells();
    for c in cells {
        add_neighbours(&mut beside, shape, *c);
    }
    beside.sort_unstable();
    beside
}

/// The cell that the draw chooses of those beside the shape.
pub fn drawn_cell<G: Grid>(shape: &Shape<G>, draw: u32) -> Cell
    ensures { IsDrawn G.geometry draw shape.now result }
{
    let beside = beside(shape);
    let place = draw as usize % beside.len();
    beside[place]
}
