//! Cells in strictly rising cell order.
ghost use Rattle.std.specs.Prelude.{◌≡◌, ◌↔◌, false, not, Some, IsTrue, IfSome, IfNone, slice_get};
ghost use Rattle.heesch_grid.specs.Cells.{cell_before, has, meet};
ghost use Rattle.heesch_grid.specs.Listing.{IsRising};

use heesch_grid::Cell;

/// The place of the cell among these. A binary search.
pub(crate) fn place_of(cells: &[Cell], c: Cell) -> Option<usize>
    requires { IsRising cell_before cells.now }
    ensures found { IfSome result (λ at. slice_get cells.now at ≡ Some c) }
    ensures none { IfNone result (has cells.now c ≡ false) }
{
    cells.binary_search(&c).ok()
}

/// Whether the cell is one of these.
pub(crate) fn has_cell(cells: &[Cell], c: Cell) -> bool
    requires { IsRising cell_before cells.now }
    ensures { result ≡ has cells.now c }
{
    place_of(cells, c).is_some()
}

/// Whether no cell of the tile is one of these.
pub(crate) fn are_apart(tile: &[Cell], cells: &[Cell]) -> bool
    requires { IsRising cell_before cells.now }
    ensures { result ≡ not (meet tile.now cells.now) }
{
    for c in tile {
        if has_cell(cells, *c) {
            return false;
        }
    }
    true
}

/// Whether each cell comes before the next one.
pub(crate) fn are_rising(cells: &[Cell]) -> bool
    ensures { IsTrue result ↔ IsRising cell_before cells.now }
{
    for i in 1..cells.len() {
        if cells[i - 1].cmp(&cells[i]).is_ge() {
            return false;
        }
    }
    true
}
