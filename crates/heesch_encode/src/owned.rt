//! The cells that several variables have, and how many owner variables they have.
ghost use Rattle.std.specs.Prelude.{◌≡◌, ◌+◌, ◌-◌, ◌<◌, ◌≤◌, ◌++◌, ◌^◌, ℕ, length, filter, All, IfOk, OnOk, sum_by};
ghost use Rattle.heesch_grid.specs.Cells.{cell_before};
ghost use Rattle.heesch_grid.specs.CoronaFormula.{Variable, IsNumbered};
ghost use Rattle.heesch_grid.specs.Listing.{ListsExactly};
ghost use Rattle.heesch_grid.specs.OwnerFormula.{holders, IsOwned, digits, owner_count};
ghost use Rattle.heesch_place.specs.Universes.{IsUniverseOf};
ghost use Rattle.heesch_encode.specs.Owners.{is_first_of_some, is_first_holder};

use crate::lists::add;
use heesch_grid::{Cell, Grid};
use heesch_io::NoMemory;
use heesch_place::Universe;
use std::alloc::Global;

/// A formula has fewer variables than this.
const VARIABLES_MAX: u32 = 1 << 31;

/// The numbers, rising, of the variables of any level whose tile has the cell. One look-up; it takes no memory.
pub fn holders_of<G: Grid>(universe: &Universe<G>, c: Cell) -> &[u32]
    requires { IsUniverseOf G.geometry universe.now }
    ensures { result.now ≡ holders universe.now.vars c }
{
    universe.covered_by(c, universe.level())
}

/// How many binary digits the greatest rank of so many variables has, at least two, whose ranks count from 0. It takes
/// a fixed number of steps.
pub fn digits_of_ranks(number: usize) -> u32
    requires { 2 ≤ number }
    ensures digits { result ≡ digits (number - 1) }
    ensures bound { result ≤ 64 }
{
    usize::BITS - (number - 1).leading_zeros()
}

/// Whether the number is the first of at least two.
fn is_first(numbers: &[u32], number: u32) -> bool
    ensures { result ≡ is_first_of_some number numbers.now }
{
    numbers.len() >= 2 && numbers[0] == number
}

/// Adds the cells of the variable's tile that another has too and no earlier one.
fn add_owned<G: Grid>(
    cells: &mut Vec<Cell>,
    universe: &Universe<G>,
    var: u32,
) -> Result<(), NoMemory>
    requires universe { IsUniverseOf G.geometry universe.now }
    requires number { (1 ≤ var) × (var ≤ length universe.now.vars) }
    ensures { (x : Variable) → IsNumbered universe.now.vars var x
        → OnOk result (cells.new.items ≡ cells.old.items ++ filter (is_first_holder universe.now.vars var) x.tile) }
{
    for c in universe.placement_of(var).shape().cells() {
        if is_first(holders_of(universe, *c), var) {
            add(cells, *c)?;
        }
    }
    Ok(())
}

/// The cells that at least two variables have, in cell order. A look-up for each cell of each variable's tile, and a
/// sort of the cells found.
pub fn owned_cells<G: Grid>(alloc: Global, universe: &Universe<G>) -> Result<Vec<Cell>, NoMemory>
    requires { IsUniverseOf G.geometry universe.now }
    ensures { IfOk result (λ cells. ListsExactly cell_before (IsOwned universe.now.vars) cells.items) }
{
    let mut cells = Vec::new(alloc);
    for i in 0..universe.count() {
        add_owned(&mut cells, universe, i + 1)?;
    }
    cells.sort_unstable();
    cells.dedup();
    Ok(cells)
}

/// How many variables there are with the owner variables of these cells. 2^31 or more count as want of memory.
pub(crate) fn count_with_owners<G: Grid>(
    universe: &Universe<G>,
    owned: &[Cell],
) -> Result<u32, NoMemory>
    requires universe { IsUniverseOf G.geometry universe.now }
    requires few { length universe.now.vars < 2 ^ 31 }
    requires owned { All (IsOwned universe.now.vars) owned.now }
    ensures count { IfOk result
        (λ n. n ≡ length universe.now.vars + sum_by (owner_count universe.now.vars) owned.now) }
    ensures small { IfOk result (λ n. n < 2 ^ 31) }
{
    let mut count = universe.count();
    for c in owned {
        count += digits_of_ranks(holders_of(universe, *c).len());
        if count >= VARIABLES_MAX {
            return Err(NoMemory);
        }
    }
    Ok(count)
}
