//! The cover table of a torus formula.
ghost use Rattle.std.specs.Prelude.{◌≡◌, IfOk};

use heesch_cover::{CoverTable, NumberLists};
use heesch_io::{NoMemory, Seq};
use std::alloc::Global;

/// Lists the numbers, less one each, in place of what the list had.
fn write_indices(indices: &mut Vec<u32>, numbers: &[u32]) -> Result<(), NoMemory> {
    indices.clear();
    for number in numbers {
        indices.push(number.wrapping_sub(1))?;
    }
    Ok(())
}

/// The tiles of so many variables in number order, each by the numbers of its reduced cells, which count from 1. For
/// each cell the variables are listed that have it.
fn tiles_of(alloc: Global, vars: u32, lists: &[Seq<u32>]) -> Result<NumberLists, NoMemory>
    ensures { IfOk result (λ tiles. tiles.count ≡ vars) }
{
    let mut holders = NumberLists::new(alloc, vars);
    let mut indices = Vec::new(alloc);
    for list in lists {
        write_indices(&mut indices, list.as_slice())?;
        holders.push(&indices)?;
    }
    holders.transposed(alloc)
}

/// The table of so many variables, where for each reduced cell those are listed that have it, rising: each cell is
/// wanted from the start, and want i is for the cell of number i + 1. A step for each variable of each cell.
pub(crate) fn table_of(alloc: Global, vars: u32, lists: &[Seq<u32>]) -> Result<CoverTable, NoMemory>
    ensures { IfOk result (λ table. table.vars ≡ vars) }
{
    let tiles = tiles_of(alloc, vars, lists)?;
    let mut table = CoverTable::of(alloc, tiles)?;
    for index in 0..lists.len() {
        let cell = u32::try_from(index).map_err(|_| NoMemory)?;
        let want = table.want_cell(cell.saturating_add(1), u32::MAX)?;
        table.want_first(want)?;
    }
    Ok(table)
}
