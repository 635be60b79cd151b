//! Shapes grown by draws.
ghost use Rattle.std.specs.Prelude.{◌≡◌, ◌-◌, ◌≤◌, length};
ghost use Rattle.heesch_grow.specs.Generator.{IsGrownBy, state_after};
ghost use Rattle.heesch_shape.specs.Walks.{IsShape};

use crate::block::first;
use crate::draws::Draws;
use crate::neighbours::drawn_cell;
use heesch_grid::Grid;
use heesch_shape::Shape;

/// The shape of n cells, 1 to 32, that the state of `draws` gives: the one cell of `first`, and then
/// n - 1 times the cell, of those beside the shape in cell order, whose place from 0 is a draw modulo
/// their number. `draws` is left as the n - 1 draws leave it.
///
/// It takes no memory. For each cell it looks at the neighbours of all, at most 12 a cell.
pub fn grown<G: Grid>(n: u32, draws: &mut Draws) -> Shape<G>
    requires some { 1 ≤ n }
    requires few { n ≤ 32 }
    ensures grown { IsGrownBy G.geometry draws.old (n - 1) result }
    ensures state { draws.new ≡ state_after (n - 1) draws.old }
    ensures shape { IsShape G.geometry result }
    ensures size { length result ≡ n }
{
    let mut shape = first::<G>();
    for _draw in 0..n - 1 {
        let added = drawn_cell(&shape, draws.next());
        shape = shape.with(added);
    }
    shape
}
