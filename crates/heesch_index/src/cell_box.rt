//! A box of cells, which numbers them row by row.
ghost use Rattle.std.specs.Prelude.{◌≡◌, ◌<◌, ◌*◌, ◌+ℤ◌, ◌≤ℤ◌, ◌^◌, ℕ, true, pos, slice_index_or, IfOk, [], int_le};
ghost use Rattle.std.specs.Prelude.{◌&&◌};
ghost use Rattle.std.specs.Int.{int_min, int_max};
ghost use Rattle.heesch_grid.specs.declared.Cell.{Cell};
ghost use Rattle.heesch_grid.specs.Cells.{has};
ghost use Rattle.heesch_index.specs.Marking.{IsBetween};

use crate::sets::CellSets;
use heesch_grid::Cell;
use heesch_io::NoMemory;

/// A box has fewer cells than this.
const CELLS_MAX: u64 = 0x1_0000_0000;

/// Two opposite corners of a box, which lie in it. If `low` lies past `high`, no cell lies between them.
#[derive(Clone, Copy)]
pub struct Corners {
    pub low: Cell,
    pub high: Cell,
}

impl Corners {
    ghost use Rattle.heesch_index.specs.Marking.{Span};

    /// The corners of the box that has this cell alone. It takes a constant time.
    pub fn at(cell: Cell) -> Corners
        ensures low { result.low ≡ cell }
        ensures high { result.high ≡ cell }
    {
        Corners {
            low: cell,
            high: cell,
        }
    }

    /// The corners between which no cell lies.
    fn none() -> Corners {
        Corners {
            low: Cell {
                a: i32::MAX,
                b: i32::MAX,
            },
            high: Cell {
                a: i32::MIN,
                b: i32::MIN,
            },
        }
    }

    /// The corners of the least box that has one more cell.
    fn with(self, cell: Cell) -> Corners
        ensures low_a { result.low.a ≡ int_min self.low.a cell.a }
        ensures low_b { result.low.b ≡ int_min self.low.b cell.b }
        ensures high_a { result.high.a ≡ int_max self.high.a cell.a }
        ensures high_b { result.high.b ≡ int_max self.high.b cell.b }
    {
        Corners {
            low: Cell {
                a: self.low.a.min(cell.a),
                b: self.low.b.min(cell.b),
            },
            high: Cell {
                a: self.high.a.max(cell.a),
                b: self.high.b.max(cell.b),
            },
        }
    }

    /// The corners of the least box that has these cells too, in any order. The cost is their number.
    pub fn with_all(self, cells: &[Cell]) -> Corners
        ensures { Span self.low self.high cells.now result.low result.high }
    {
        let mut corners = self;
        for cell in cells {
            corners = corners.with(*cell);
        }
        corners
    }

    /// The corners of the least box that has these cells.
    pub(crate) fn around(cells: &[Cell]) -> Corners
        ensures { (c : Cell) → has cells.now c ≡ true → IsBetween result.low result.high c }
    {
        Corners::none().with_all(cells)
    }

    /// The corners of the least box that has the cells of these sets.
    pub(crate) fn around_sets(sets: &CellSets) -> Corners
        ensures { (i : ℕ) (c : Cell) → has (slice_index_or sets.now i []) c ≡ true
            → IsBetween result.low result.high c }
    {
        let mut corners = Corners::none();
        for i in 0..sets.len() {
            corners = corners.with_all(sets.set(i));
        }
        corners
    }
}

/// The cells between two corners, fewer than 2^32 of them, in rows of `wide` cells.
#[derive(Clone, Copy)]
pub(crate) struct CellBox {
    pub low: Cell,
    pub high: Cell,
    pub wide: usize,
    pub tall: usize,
    ghost wide_is: { (low.a +ℤ pos wide) ≡ int_max low.a (high.a +ℤ pos 1) },
    ghost tall_is: { (low.b +ℤ pos tall) ≡ int_max low.b (high.b +ℤ pos 1) },
    ghost few: { tall * wide < 2 ^ 32 },
}

/// How many numbers there are from the one to the other.
fn extent(low: i32, high: i32) -> u64
    ensures { (low +ℤ pos result) ≡ int_max low (high +ℤ pos 1) }
{
    if high < low {
        return 0;
    }
    u64::from(high.abs_diff(low)) + 1
}

impl CellBox {
    ghost use Rattle.heesch_index.specs.Boxes.{column, row, place, is_inside, area};

    /// The box between the two corners. 2^32 cells or more count as want of memory.
    pub(crate) fn between(corners: Corners) -> Result<CellBox, NoMemory>
        ensures low { IfOk result (λ bounds. bounds.low ≡ corners.low) }
        ensures high { IfOk result (λ bounds. bounds.high ≡ corners.high) }
    {
        let Corners { low, high } = corners;
        let wide = extent(low.a, high.a);
        let tall = extent(low.b, high.b);
        if tall.saturating_mul(wide) >= CELLS_MAX {
            return Err(NoMemory);
        }
        Ok(CellBox {
            low,
            high,
            wide: wide as usize,
            tall: tall as usize,
        })
    }

    /// How many cells it has.
    pub(crate) fn area(self) -> usize
        ensures { result ≡ area self }
    {
        self.tall * self.wide
    }

    /// Whether the cell lies in one of its columns.
    fn has_column(self, cell: Cell) -> bool
        ensures { result ≡ (int_le self.low.a cell.a && int_le cell.a self.high.a) }
    {
        self.low.a <= cell.a && cell.a <= self.high.a
    }

    /// Whether the cell lies in one of its rows.
    fn has_row(self, cell: Cell) -> bool
        ensures { result ≡ (int_le self.low.b cell.b && int_le cell.b self.high.b) }
    {
        self.low.b <= cell.b && cell.b <= self.high.b
    }

    /// Whether it has the cell.
    pub(crate) fn contains(self, cell: Cell) -> bool
        ensures { result ≡ is_inside self cell }
    {
        self.has_column(cell) && self.has_row(cell)
    }

    /// How far the cell is from the first column.
    fn column(self, cell: Cell) -> usize
        ensures { result ≡ column self cell }
    {
        cell.a.abs_diff(self.low.a) as usize
    }

    /// How far the cell is from the first row.
    fn row(self, cell: Cell) -> usize
        ensures { result ≡ row self cell }
    {
        cell.b.abs_diff(self.low.b) as usize
    }

    /// The number of a cell of the box, from 0.
    pub(crate) fn place(self, cell: Cell) -> usize
        requires { is_inside self cell ≡ true }
        ensures is { result ≡ place self cell }
        ensures below { result < area self }
    {
        self.row(cell) * self.wide + self.column(cell)
    }

    /// The cell of a row and a column.
    fn cell_of(self, row: usize, column: usize) -> Cell
        requires row { (self.low.b +ℤ pos row) ≤ℤ self.high.b }
        requires column { (self.low.a +ℤ pos column) ≤ℤ self.high.a }
        ensures a { result.a ≡ (self.low.a +ℤ pos column) }
        ensures b { result.b ≡ (self.low.b +ℤ pos row) }
    {
        Cell {
            a: (i64::from(self.low.a) + column as i64) as i32,
            b: (i64::from(self.low.b) + row as i64) as i32,
        }
    }

    /// The cell of a place.
    pub(crate) fn cell_at(self, number: usize) -> Cell
        requires { number < area self }
        ensures inside { is_inside self result ≡ true }
        ensures place { place self result ≡ number }
    {
        self.cell_of(number / self.wide, number % self.wide)
    }
}
