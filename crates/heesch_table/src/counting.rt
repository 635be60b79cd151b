//! Counting the entries among items.
ghost use Rattle.std.specs.Prelude.{◌≡◌, ◌+◌, ◌<◌, ◌^◌, ◌++◌, length, List, IfOk};
ghost use Rattle.std.specs.List.{AllByRecursion};
ghost use Rattle.heesch_grid.specs.Names.{geometry_of};
ghost use Rattle.heesch_grid.specs.Vectors.{IsWithin};
ghost use Rattle.heesch_reader.specs.declared.item.Item.{Item};
ghost use Rattle.heesch_table.specs.Entries.{entry_in, entries_of};
ghost use Rattle.heesch_table.specs.TableSteps.{AreWithin, IsHeaded, grid_in, CountsEntries, CountsItem, CountsEntry};

use crate::answers::{Counted, EntryFault};
use crate::tally::Tally;
use heesch_cert::Verdict;
use heesch_grid::{Cell, Grid, GridName};
use heesch_kite::on_grid;
use heesch_reader::Item;
use heesch_shape::Shape;
use std::alloc::Global;

/// The grid of the header, if it was read or comes next.
pub fn grid_behind(grid: Option<GridName>, items: &[Item]) -> Option<GridName>
    ensures { (found : List Item) → grid ≡ grid_in found → IsHeaded (found ++ items.now)
        → result ≡ grid_in (found ++ items.now) }
{
    if grid.is_some() {
        return grid;
    }
    match items.first() {
        Some(Item::Header { header }) => Some(header.grid),
        _ => None,
    }
}

/// Counts the entries among the items of a catalogue of this grid, up to the first whose cells are no shape.
pub fn count_entries(grid: GridName, tally: &mut Tally, alloc: Global, items: &[Item]) -> Counted
    requires within { AllByRecursion AreWithin (entries_of items.now) }
    requires few { tally.old.shapes + length (entries_of items.now) < 2 ^ 32 }
    ensures { IfOk result (CountsEntries (geometry_of grid) tally.old tally.new items.now) }
{
    on_grid!(grid, count_entries_of::<_>(tally, alloc, items))
}

fn count_entries_of<G: Grid>(tally: &mut Tally, alloc: Global, items: &[Item]) -> Counted
    requires within { AllByRecursion AreWithin (entries_of items.now) }
    requires few { tally.old.shapes + length (entries_of items.now) < 2 ^ 32 }
    ensures { IfOk result (CountsEntries G.geometry tally.old tally.new items.now) }
{
    for item in items {
        if let Some(fault) = count_item::<G>(tally, alloc, item)? {
            return Ok(Some(fault));
        }
    }
    Ok(None)
}

/// Counts an item if it is an entry, unless its cells are no shape.
fn count_item<G: Grid>(tally: &mut Tally, alloc: Global, item: &Item) -> Counted
    requires within { AllByRecursion AreWithin (entry_in item.now) }
    requires few { tally.old.shapes + length (entry_in item.now) < 2 ^ 32 }
    ensures { IfOk result (CountsItem G.geometry tally.old tally.new item.now) }
{
    match item {
        Item::Entry { line, entry } => {
            count_entry::<G>(tally, alloc, *line, entry.cells.as_slice(), &entry.verdict)
        }
        Item::Brief {
            line,
            cells,
            verdict,
        } => count_entry::<G>(tally, alloc, *line, cells.as_slice(), verdict),
        Item::Header { .. } | Item::End { .. } => Ok(None),
    }
}

/// Counts an entry that begins on this line, unless its cells are no shape.
fn count_entry<G: Grid>(
    tally: &mut Tally,
    alloc: Global,
    line: u64,
    cells: &[Cell],
    verdict: &Verdict,
) -> Counted
    requires within { AllByRecursion (IsWithin 100000) cells.now }
    requires few { tally.old.shapes < 2 ^ 32 }
    ensures { IfOk result (CountsEntry G.geometry tally.old tally.new line cells.now verdict.now) }
{
    let shape = match Shape::<G>::of(cells) {
        Ok(shape) => shape,
        Err(fault) => {
            let number = fault.number();
            return Ok(Some(EntryFault { line, number }));
        }
    };
    tally.add_shape(alloc, &shape, verdict)?;
    Ok(None)
}
