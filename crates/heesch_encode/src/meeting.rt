//! The variables whose tiles have one of some cells.
ghost use Rattle.std.specs.Prelude.{◌≡◌, ◌≤◌, ◌<◌, ◌*◌, ◌^◌, ℕ, nat_lt, length, filter, flat_map, vec_len, OnOk};
ghost use Rattle.heesch_grid.specs.Cells.{cell_before};
ghost use Rattle.heesch_grid.specs.CoronaFormula.{Variable, IsNumbered};
ghost use Rattle.heesch_grid.specs.Geometry.{IsAround};
ghost use Rattle.heesch_grid.specs.Listing.{IsRising, ListsExactly};
ghost use Rattle.heesch_place.specs.Universes.{IsUniverseOf};
ghost use Rattle.heesch_encode.specs.Marks.{AreUnmarked, Changes};
ghost use Rattle.heesch_encode.specs.Meeting.{covering_after, meeting_after, supporting};

use crate::clauses::count_below;
use crate::marks::{Change, Marks};
use heesch_grid::{Cell, Grid};
use heesch_io::NoMemory;
use heesch_place::Universe;
use heesch_shape::Shape;

/// Those of the rising numbers that are above n. A binary search.
pub fn numbers_after(numbers: &[u32], n: u32) -> &[u32]
    requires rising { IsRising nat_lt numbers.now }
    requires small { n < 2 ^ 31 }
    ensures { result.now ≡ filter (nat_lt n) numbers.now }
{
    let at = count_below(numbers, n + 1);
    &numbers[at..]
}

/// Marks the variables with numbers above `above` and of level at most `most` whose tile has one of the cells, or
/// takes their marks away.
fn change_meeting<G: Grid>(
    marks: &mut Marks,
    change: Change,
    universe: &Universe<G>,
    cells: &[Cell],
    above: u32,
    most: u32,
)
    requires room { length universe.now.vars < 64 * vec_len marks.old.words }
    requires above { above < 2 ^ 31 }
    ensures { Changes change marks.old.words.items marks.new.words.items
        (flat_map (covering_after universe.now.vars above most) cells.now) }
{
    for c in cells {
        marks.change(change, numbers_after(universe.covered_by(*c, most), above));
    }
}

/// Lists the variables with numbers above `above` and of level at most `most`, rising, whose tile has one of the
/// cells. They are found by their cells and marked, so those that are found twice stand once.
pub fn list_meeting<G: Grid>(
    numbers: &mut Vec<u32>,
    marks: &mut Marks,
    universe: &Universe<G>,
    cells: &[Cell],
    above: u32,
    most: u32,
) -> Result<(), NoMemory>
    requires unmarked { AreUnmarked (length universe.now.vars) marks.old.words.items }
    requires above { above < 2 ^ 31 }
    ensures listed { OnOk result (numbers.new.items ≡ meeting_after universe.now.vars above most cells.now) }
    ensures unmarked { OnOk result (AreUnmarked (length universe.now.vars) marks.new.words.items) }
{
    change_meeting(marks, Change::Mark, universe, cells, above, most);
    marks.read_off(numbers)
}

/// The number of the last variable of a lower level than this, and 0 where there is none. A binary search.
pub fn last_below<G: Grid>(universe: &Universe<G>, level: u32) -> u32
    requires { IsUniverseOf G.geometry universe.now }
    ensures bound { result ≤ length universe.now.vars }
    ensures low { (n : ℕ) (x : Variable) → IsNumbered universe.now.vars n x → n ≤ result → x.level < level }
    ensures high { (n : ℕ) (x : Variable) → IsNumbered universe.now.vars n x → result < n → level ≤ x.level }
{
    let mut low = 0;
    let mut high = universe.count();
    while low < high {
        let middle = low + (high - low) / 2;
        if universe.level_of(middle + 1) < level {
            low = middle + 1;
        } else {
            high = middle;
        }
    }
    low
}

/// Lists the variables of a level, rising, whose tile touches the given one, by the cells around it: those that have
/// one of them and none of its own. They are marked and read off, and no mark is left. A look-up for each cell, and a
/// step for each variable found.
pub fn list_supporting<G: Grid>(
    numbers: &mut Vec<u32>,
    marks: &mut Marks,
    universe: &Universe<G>,
    tile: &Shape<G>,
    ring: &[Cell],
    level: u32,
) -> Result<(), NoMemory>
    requires universe { IsUniverseOf G.geometry universe.now }
    requires ring { ListsExactly cell_before (IsAround G.geometry tile.now) ring.now }
    requires few { length universe.now.vars < 2 ^ 31 }
    requires unmarked { AreUnmarked (length universe.now.vars) marks.old.words.items }
    ensures listed { OnOk result (numbers.new.items ≡ supporting G.geometry universe.now.vars level tile.now) }
    ensures unmarked { OnOk result (AreUnmarked (length universe.now.vars) marks.new.words.items) }
{
    let above = last_below(universe, level);
    change_meeting(marks, Change::Mark, universe, ring, above, level);
    change_meeting(marks, Change::Unmark, universe, tile.cells(), above, level);
    marks.read_off(numbers)
}
