//! The index: its public calls.
ghost use Rattle.std.specs.Prelude.{◌≡◌, ◌+◌, ◌-◌, ◌<◌, ◌≤◌, ◌^◌, [], ◌∷◌, ◌++◌, length, OnOk, OnErr, slice_index_or};
ghost use Rattle.heesch_grid.specs.Listing.{IsRising};
ghost use Rattle.heesch_grid.specs.Cells.{cell_before};
ghost use Rattle.heesch_index.specs.Covering.{numbers_with};

use crate::entries::{Numbers, enter, leave};
use crate::sets::CellSets;
use heesch_grid::Cell;
use heesch_io::NoMemory;
use indexmap::IndexMap;
use std::alloc::Global;
use std::marker::Model;

/// Sets of cells, numbered from 1 in the order in which they were added, with an index by cell.
#[derive(Drop)]
pub struct CellIndex {
    alloc: Global,
    sets: CellSets,
    numbers: Numbers,
}

impl Model for CellIndex {
    ghost use Rattle.std.specs.Prelude.{◌≡◌, ◌<◌, ◌^◌, List, length};
    ghost use Rattle.heesch_grid.specs.declared.Cell.{Cell};

    ghost Value = { List (List Cell) };

    ghost use Rattle.heesch_index.specs.Entries.{IsIndexOf};

    ghost view = { λ s. s.sets };

    ghost invariant = { λ s. IsIndexOf s.sets s.numbers };
}

impl CellIndex {
    /// No sets. It takes no memory.
    pub fn new(alloc: Global) -> CellIndex
        ensures { result ≡ [] }
    {
        CellIndex {
            alloc,
            sets: CellSets::new(alloc),
            numbers: IndexMap::new(alloc),
        }
    }

    /// The number of sets. It takes no memory.
    pub fn len(&self) -> u32
        ensures { result ≡ length self.now }
    {
        self.sets.len() as u32
    }

    /// The cells of the set of a number, which counts from 1, as they were added. Nothing is copied.
    pub fn cells(&self, number: u32) -> &[Cell]
        requires low { 1 ≤ number }
        requires high { number ≤ length self.now }
        ensures { result.now ≡ slice_index_or self.now (number - 1) [] }
    {
        self.sets.set(number as usize - 1)
    }

    /// The numbers of the sets that have this cell, in rising order. It takes no memory. The cost is one look-up.
    pub fn covering(&self, cell: Cell) -> &[u32]
        ensures { result.now ≡ numbers_with self.now cell }
    {
        match self.numbers.get(&cell) {
            Some(numbers) => numbers.as_slice(),
            None => &[],
        }
    }

    /// The set stands last, with the next number, or nothing has changed. A set past 2^32 - 1 of them counts as want
    /// of memory. The cost is one look-up for each cell.
    pub fn add(&mut self, cells: &[Cell]) -> Result<(), NoMemory>
        requires { IsRising cell_before cells.now }
        ensures ok { OnOk result (self.new ≡ self.old ++ cells.now ∷ []) }
        ensures err { OnErr result (self.new ≡ self.old) }
    {
        let count = self.len();
        if count == u32::MAX {
            return Err(NoMemory);
        }
        enter(&mut self.numbers, self.alloc, cells, count + 1)?;
        if self.sets.push(cells).is_err() {
            leave(&mut self.numbers, cells);
            return Err(NoMemory);
        }
        Ok(())
    }
}
