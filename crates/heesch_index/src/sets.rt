//! Sets of cells in the order in which they were added.
ghost use Rattle.std.specs.Prelude.{◌≡◌, ◌<◌, ◌≤◌, [], ◌∷◌, ◌++◌, length, OnOk, OnErr, slice_index_or};
ghost use Rattle.heesch_io.specs.Pieces.{AreEnds, start_at};

use heesch_grid::Cell;
use heesch_io::NoMemory;
use std::alloc::Global;
use std::marker::Model;

/// Sets of cells, one after another in one array of cells, with the place where each of them ends.
#[derive(Drop)]
pub struct CellSets {
    cells: Vec<Cell>,
    ends: Vec<usize>,
}

impl Model for CellSets {
    ghost use Rattle.std.specs.Prelude.{List, length};
    ghost use Rattle.heesch_grid.specs.declared.Cell.{Cell};
    ghost use Rattle.heesch_io.specs.Pieces.{pieces, AreEnds};

    ghost Value = { List (List Cell) };

    ghost view = { λ s. pieces s.cells.items 0 s.ends.items };

    ghost invariant = { λ s. AreEnds 0 s.ends.items (length s.cells.items) };
}

/// Where the set of this index begins and ends: it begins where the one before it ends.
fn bounds(size: usize, ends: &[usize], index: usize) -> (usize, usize)
    requires ends { AreEnds 0 ends.now size }
    requires index { index < length ends.now }
    ensures start { result.0 ≡ start_at 0 ends.now index }
    ensures end { result.1 ≡ slice_index_or ends.now index 0 }
    ensures rising { result.0 ≤ result.1 }
    ensures within { result.1 ≤ size }
{
    let start = if index == 0 { 0 } else { ends[index - 1] };
    (start, ends[index])
}

impl CellSets {
    /// No sets. It takes no memory.
    pub fn new(alloc: Global) -> CellSets
        ensures { result ≡ [] }
    {
        CellSets {
            cells: Vec::new(alloc),
            ends: Vec::new(alloc),
        }
    }

    /// The number of sets.
    pub fn len(&self) -> usize
        ensures { result ≡ length self.now }
    {
        self.ends.len()
    }

    /// The set of an index, which counts from 0. Nothing is copied.
    pub fn set(&self, index: usize) -> &[Cell]
        requires { index < length self.now }
        ensures { result.now ≡ slice_index_or self.now index [] }
    {
        let (start, end) = bounds(self.cells.len(), &self.ends, index);
        &self.cells[start..end]
    }

    /// The set stands last, or nothing has changed. The cost is its length, as an average over many calls.
    pub fn push(&mut self, cells: &[Cell]) -> Result<(), NoMemory>
        ensures ok { OnOk result (self.new ≡ self.old ++ cells.now ∷ []) }
        ensures err { OnErr result (self.new ≡ self.old) }
    {
        let start = self.cells.len();
        if self.cells.extend_from_slice(cells).is_err() {
            return Err(NoMemory);
        }
        if self.ends.push(self.cells.len()).is_err() {
            self.cells.truncate(start);
            return Err(NoMemory);
        }
        Ok(())
    }
}
