//! The pairs of variables that share a cell, by the first of the two.
ghost use Rattle.std.specs.Prelude.{◌≡◌, ◌<◌, ◌≤◌, ◌*◌, ◌++◌, length, nat_lt, slice_index_or, slice_range, sum};
ghost use Rattle.std.specs.Prelude.{Contains, IfOk, MatchOption, OnOk};
ghost use Rattle.heesch_grid.specs.Listing.{IsRising};
ghost use Rattle.heesch_tori.specs.Later.{all_later, later_counts, later_numbers, variable_at};
ghost use Rattle.heesch_tori.specs.Shared.{IsVariable, tabled_sets};

use crate::table::CellTable;
use heesch_io::NoMemory;
use heesch_numbers::Prefix;
use std::alloc::Global;

/// The numbers from one place to before another.
pub(crate) fn part(numbers: &[u32], start: usize, end: usize) -> &[u32]
    requires order { start ≤ end }
    requires last { end ≤ length numbers.now }
    ensures { result.now ≡ slice_range numbers.now start end }
{
    &numbers[start..end]
}

/// The place of the number among these, which rise. A binary search.
pub(crate) fn place_of(numbers: &[u32], number: u32) -> Option<usize>
    requires { IsRising nat_lt numbers.now }
    ensures { MatchOption result (¬ Contains numbers.now number)
        (λ place. (place < length numbers.now) × (slice_index_or numbers.now place 0 ≡ number)) }
{
    numbers.binary_search(&number).ok()
}

/// For each variable in turn the later ones that share a cell with it: how many they are, and their numbers.
#[derive(Drop)]
pub(crate) struct LaterVariables {
    pub counts: Prefix,
    pub numbers: Vec<u32>,
}

/// The numbers of the later variables that share a cell with this one stand last.
fn add_later(table: &CellTable, first: u32, numbers: &mut Vec<u32>) -> Result<(), NoMemory>
    requires { IsVariable (length table.now.variables) first }
    ensures { OnOk result (numbers.new.items
        ≡ numbers.old.items ++ later_numbers (tabled_sets table.now) (variable_at (tabled_sets table.now) first)) }
{
    let last = table.count();
    for other in first + 1..last + 1 {
        if table.meets(first, other) {
            numbers.push(other)?;
        }
    }
    Ok(())
}

/// Those of the variables of a table. A step for each two variables and each 64 cells.
pub(crate) fn later_variables(alloc: Global, table: &CellTable) -> Result<LaterVariables, NoMemory>
    ensures counts { IfOk result (λ later. later.counts ≡ later_counts (tabled_sets table.now)) }
    ensures numbers { IfOk result (λ later. later.numbers.items ≡ all_later (tabled_sets table.now)) }
    ensures few { IfOk result (λ later. sum later.counts ≤ 4608 * 4608) }
{
    let mut counts = Prefix::new(alloc);
    let mut numbers = Vec::new(alloc);
    for i in 0..table.count() {
        let before = numbers.len();
        add_later(table, i + 1, &mut numbers)?;
        counts.push((numbers.len() - before) as u32)?;
    }
    Ok(LaterVariables { counts, numbers })
}
