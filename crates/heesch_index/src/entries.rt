//! Entries of the index: a number is put in at each cell of a set, or taken out again.
ghost use Rattle.std.specs.Prelude.{OnOk, OnErr};
ghost use Rattle.heesch_grid.specs.Listing.{IsRising};
ghost use Rattle.heesch_grid.specs.Cells.{cell_before};
ghost use Rattle.heesch_index.specs.Entries.{AddsAt, AddsAtEach, RemovesAt, RemovesAtEach, KeepsNumbers};

use heesch_grid::Cell;
use heesch_io::NoMemory;
use indexmap::IndexMap;
use std::alloc::Global;

/// The numbers of the sets that have a cell, by cell.
pub type Numbers = IndexMap<Cell, Vec<u32>>;

/// The number stands last at this cell, or nothing has changed.
fn enter_at(numbers: &mut Numbers, alloc: Global, cell: Cell, number: u32) -> Result<(), NoMemory>
    ensures ok { OnOk result (AddsAt numbers.old numbers.new cell number) }
    ensures err { OnErr result (KeepsNumbers numbers.old numbers.new) }
{
    if let Some(at) = numbers.get_mut(&cell) {
        at.push(number)?;
        return Ok(());
    }
    let mut at = Vec::new(alloc);
    at.push(number)?;
    numbers.insert(cell, at)?;
    Ok(())
}

/// The last number at this cell is gone.
fn leave_at(numbers: &mut Numbers, cell: Cell)
    ensures { RemovesAt numbers.old numbers.new cell }
{
    if let Some(at) = numbers.get_mut(&cell) {
        let _ = at.pop();
    }
}

/// The last number at each of these cells is gone.
pub fn leave(numbers: &mut Numbers, cells: &[Cell])
    requires { IsRising cell_before cells.now }
    ensures { RemovesAtEach numbers.old numbers.new cells.now }
{
    for cell in cells {
        leave_at(numbers, *cell);
    }
}

/// The number stands last at each of these cells, or nothing has changed.
pub fn enter(
    numbers: &mut Numbers,
    alloc: Global,
    cells: &[Cell],
    number: u32,
) -> Result<(), NoMemory>
    requires { IsRising cell_before cells.now }
    ensures ok { OnOk result (AddsAtEach numbers.old numbers.new cells.now number) }
    ensures err { OnErr result (KeepsNumbers numbers.old numbers.new) }
{
    for (i, cell) in cells.iter().enumerate() {
        if enter_at(numbers, alloc, *cell, number).is_err() {
            leave(numbers, &cells[..i]);
            return Err(NoMemory);
        }
    }
    Ok(())
}
