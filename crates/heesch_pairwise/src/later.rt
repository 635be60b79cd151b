//! The later variables whose tiles meet that of a variable, one after another: the variables that have one of its
//! cells, merged.
ghost use Rattle.std.specs.Prelude.{◌≡◌, ◌<◌, ◌≤◌, ◌^◌, length, slice_index_or};
ghost use Rattle.heesch_grid.specs.CoronaFormula.{Variable, IsNumbered};
ghost use Rattle.heesch_place.specs.Universes.{IsUniverseOf};
ghost use Rattle.heesch_pairwise.specs.Later.{later_of, no_number, ArePassed, ArePassedAt, IsNextAfter};

use heesch_encode::holders_of;
use heesch_grid::{Cell, Grid};
use heesch_place::Universe;
use heesch_shape::CELLS_MAX;

/// More than any variable's number.
const NO_NUMBER: u32 = u32::MAX;

/// How many of the rising numbers are at most n, where the first `from` are. A step for each further one.
fn passed(numbers: &[u32], from: usize, n: u32) -> usize
    requires from { ArePassed numbers.now from n }
    requires small { n < no_number }
    ensures passed { ArePassed numbers.now result n }
    ensures next { n < slice_index_or numbers.now result no_number }
{
    for at in from..numbers.len() {
        if n < numbers[at] {
            return at;
        }
    }
    numbers.len()
}

/// The number at the place, or more than any where there is none.
fn number_at(numbers: &[u32], at: usize) -> u32
    ensures { result ≡ slice_index_or numbers.now at no_number }
{
    if at < numbers.len() {
        numbers[at]
    } else {
        NO_NUMBER
    }
}

/// The least number above n of a variable that has one of the cells, or more than any where there is none. Of the
/// variables that have each cell so many are passed. A look-up for each cell, and a step for each variable that is
/// passed besides.
fn next_after<G: Grid>(universe: &Universe<G>, cells: &[Cell], counts: &mut [usize], n: u32) -> u32
    requires universe { IsUniverseOf G.geometry universe.now }
    requires small { n < no_number }
    requires size { length cells.now ≤ length counts.old }
    requires passed { ArePassedAt universe.now.vars cells.now counts.old n }
    ensures size { length counts.new ≡ length counts.old }
    ensures passed { ArePassedAt universe.now.vars cells.now counts.new n }
    ensures next { IsNextAfter universe.now.vars cells.now n result }
{
    let mut least = NO_NUMBER;
    for i in 0..cells.len() {
        let numbers = holders_of(universe, cells[i]);
        let count = passed(numbers, counts[i], n);
        counts[i] = count;
        least = least.min(number_at(numbers, count));
    }
    least
}

/// The later variable at a place, from 0, of those whose tiles meet the variable's. It takes no memory, and for each
/// of those up to the place a look-up for each cell of the tile.
pub(crate) fn later_at<G: Grid>(universe: &Universe<G>, var: u32, place: u32) -> u32
    requires universe { IsUniverseOf G.geometry universe.now }
    requires few { length universe.now.vars < 2 ^ 31 }
    requires number { (1 ≤ var) × (var ≤ length universe.now.vars) }
    requires place { (x : Variable) → IsNumbered universe.now.vars var x
        → place < length (later_of universe.now.vars (var, x)) }
    ensures { (x : Variable) → IsNumbered universe.now.vars var x
        → result ≡ slice_index_or (later_of universe.now.vars (var, x)) place 0 }
{
    let cells = universe.placement_of(var).shape().cells();
    let mut counts = [0; CELLS_MAX];
    let mut now = next_after(universe, cells, &mut counts, var);
    for _rank in 0..place {
        now = next_after(universe, cells, &mut counts, now);
    }
    now
}
