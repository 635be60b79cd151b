//! Finite sets of cells.
ghost use Rattle.std.specs.Prelude.{◌≡◌, ◌<◌, ◌≤ℤ◌, ◌+ℤ◌, pos, true, length, IfOk, MatchOption};
ghost use Rattle.heesch_grid.specs.declared.Cell.{Cell};
ghost use Rattle.heesch_grid.specs.Cells.{has};
ghost use Rattle.heesch_grid.specs.Vectors.{IsWithin};
ghost use Rattle.heesch_grid.specs.Hole.{IsHoleFree, IsGreatestHole};

use crate::flood::enclosed;
use crate::window::Window;
use heesch_grid::{Cell, Grid};
use heesch_io::{NoMemory, Seq};
use std::alloc::Global;
use std::marker::{Model, PhantomData};

/// A finite set of cells. Contracts see the list that it was made from.
#[derive(Drop)]
pub struct Region<G: Grid> {
    cells: Vec<Cell>,
    window: Window,
    taken: Vec<u64>,
    grid: PhantomData<G>,
}

impl<G: Grid> Model for Region<G> {
    ghost use Rattle.std.specs.Prelude.{List};
    ghost use Rattle.heesch_grid.specs.declared.Cell.{Cell};
    ghost use Rattle.heesch_region.specs.Marks.{AreMarksOf};

    ghost Value = { List Cell };

    ghost view = { λ r. r.cells.items };

    ghost invariant = { λ r. AreMarksOf G.geometry r.window r.cells.items r.taken.items };
}

impl<G: Grid> Region<G> {
    /// The set of these cells.
    ///
    /// They lie within 1,000,000 of 0, and any two of them differ by at most 4,096 in each coordinate; cells within
    /// 2,048 of 0 do. A pair that is no cell of the grid is a member like others. Takes a step for each cell, and
    /// memory for the cells and for a window around them, a bit for each pair.
    pub fn from_cells(alloc: Global, cells: &[Cell]) -> Result<Region<G>, NoMemory>
        requires near { (c : Cell) → has cells.now c ≡ true → IsWithin 1000000 c }
        requires together { (c d : Cell) → has cells.now c ≡ true → has cells.now d ≡ true
            → (d.a ≤ℤ (c.a +ℤ pos 4096)) × (d.b ≤ℤ (c.b +ℤ pos 4096)) }
        ensures { IfOk result (λ region. region ≡ cells.now) }
    {
        let window = Window::around::<G>(cells);
        let taken = window.marked(alloc, cells)?;
        let cells = cells.to_vec(alloc)?;
        Ok(Region {
            cells,
            window,
            taken,
            grid: PhantomData,
        })
    }

    /// Whether c is in it. Any pair may be asked; takes a fixed number of steps and no memory.
    pub fn has(&self, c: Cell) -> bool
        ensures { result ≡ has self.now c }
    {
        self.window.is_marked(&self.taken, c)
    }

    /// The greatest hole, in cell order, or None where the set is hole-free.
    ///
    /// The window around the set is flooded from outside over adjacent cells, 64 at a time: a sweep takes ADJACENT
    /// steps for each 64 of its pairs. Sweeps go down and up by turns until one changes nothing. One sweep carries the
    /// flood any way down the rows, or up, and a step along them, so there are at most two for each step along a row
    /// and each change between up and down on the longest way out, and two more; each but the last reaches a cell.
    /// Then each row that has a cell of a hole is gone through once. Takes memory for the window's marks and for the
    /// hole.
    pub fn hole(&self, alloc: Global) -> Result<Option<Seq<Cell>>, NoMemory>
        ensures { IfOk result (λ hole. MatchOption hole (IsHoleFree G.geometry self.now)
            (λ hole. (0 < length hole) × IsGreatestHole G.geometry self.now hole)) }
    {
        let hole = enclosed::<G>(alloc, self.window, &self.taken)?;
        if hole.is_empty() {
            return Ok(None);
        }
        Ok(Some(hole))
    }
}
