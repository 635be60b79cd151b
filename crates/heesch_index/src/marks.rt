//! Marks: a set of cells in a box.
ghost use Rattle.std.specs.Prelude.{◌≡◌, ◌||◌, true, false, IfOk};
ghost use Rattle.heesch_grid.specs.declared.Cell.{Cell};
ghost use Rattle.heesch_grid.specs.Cells.{has, same_cell, cell_before};
ghost use Rattle.heesch_grid.specs.Listing.{ListsExactly};
ghost use Rattle.heesch_index.specs.Marking.{IsBetween, is_marked};

use crate::cell_box::{CellBox, Corners};
use heesch_grid::Cell;
use heesch_io::NoMemory;
use std::alloc::Global;
use std::marker::Model;

/// A set of cells between two corners, as a mark for each cell between them.
#[derive(Drop)]
pub struct CellMarks {
    bounds: CellBox,
    marks: Vec<bool>,
}

impl Model for CellMarks {
    ghost use Rattle.std.specs.Prelude.{◌≡◌, length};
    ghost use Rattle.heesch_index.specs.Marking.{Marked};
    ghost use Rattle.heesch_index.specs.Boxes.{area};

    ghost Value = { Marked };

    ghost view = { λ s. record {
      low = s.bounds.low;
      high = s.bounds.high;
      wide = s.bounds.wide;
      marks = s.marks.items;
    } };

    ghost invariant = { λ s. length s.marks.items ≡ area s.bounds };
}

impl CellMarks {
    /// No cells, where those between the two corners can be added. If `low` lies past `high`, none lies between them.
    /// 2^32 cells or more between them count as want of memory. The cost is their number.
    pub fn within(alloc: Global, low: Cell, high: Cell) -> Result<CellMarks, NoMemory>
        ensures low { IfOk result (λ marks. marks.low ≡ low) }
        ensures high { IfOk result (λ marks. marks.high ≡ high) }
        ensures none { IfOk result (λ marks. (c : Cell) → is_marked marks c ≡ false) }
    {
        let bounds = CellBox::between(Corners { low, high })?;
        let marks = vec![in alloc; false; bounds.area()]?;
        Ok(CellMarks { bounds, marks })
    }

    /// The set of these cells, in any order. 2^32 cells or more in the box around them count as want of memory. The
    /// cost is the number of cells in that box.
    pub fn of(alloc: Global, cells: &[Cell]) -> Result<CellMarks, NoMemory>
        ensures { IfOk result (λ marks. (c : Cell) → is_marked marks c ≡ has cells.now c) }
    {
        let corners = Corners::around(cells);
        let mut marks = CellMarks::within(alloc, corners.low, corners.high)?;
        for cell in cells {
            marks.add(*cell);
        }
        Ok(marks)
    }

    /// Whether the set has the cell, which may be any. It takes a constant time.
    pub fn has(&self, cell: Cell) -> bool
        ensures { result ≡ is_marked self.now cell }
    {
        self.bounds.contains(cell) && self.marks[self.bounds.place(cell)]
    }

    /// Adds a cell that lies between the corners. It takes a constant time.
    pub fn add(&mut self, cell: Cell)
        requires { IsBetween self.old.low self.old.high cell }
        ensures low { self.new.low ≡ self.old.low }
        ensures high { self.new.high ≡ self.old.high }
        ensures cells { (c : Cell) → is_marked self.new c ≡ (is_marked self.old c || same_cell cell c) }
    {
        let place = self.bounds.place(cell);
        self.marks[place] = true;
    }

    /// The cells of the set, each once, in cell order. The cost is the number of cells between the corners.
    pub fn cells(&self, alloc: Global) -> Result<Vec<Cell>, NoMemory>
        ensures { IfOk result (λ cells. ListsExactly cell_before (λ c. is_marked self.now c ≡ true) cells.items) }
    {
        let mut cells = Vec::new(alloc);
        for (place, marked) in self.marks.iter().enumerate() {
            if *marked {
                cells.push(self.bounds.cell_at(place))?;
            }
        }
        Ok(cells)
    }
}
