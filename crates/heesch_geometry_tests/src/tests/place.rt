//! How many variables the universes of small shapes have.
ghost use Rattle.std.specs.Prelude.{◌≤◌};

use heesch_grid::{Cell, Grid, Hex, Iamond, Iso, Square};
use heesch_made::{canonical_of, cells, isos, same};
use heesch_place::{Placement, Universe};
use heesch_shape::Shape;
use std::alloc::Global;
use std::test::Fail;

/// The universe of the canonical shape of these cells.
fn universe_of<G: Grid>(alloc: Global, cells: &[Cell], level: u32) -> Result<Universe<G>, Fail>
    requires { (1 ≤ level) × (level ≤ 6) }
{
    let shape = canonical_of::<G>(cells)?;
    Ok(Universe::of(alloc, &shape, level)?)
}

/// How many variables the universe has, where each is found by its level and placement.
fn count<G: Grid>(alloc: Global, cells: &[Cell], level: u32) -> Result<u32, Fail>
    requires { (1 ≤ level) × (level ≤ 6) }
{
    let universe = universe_of::<G>(alloc, cells, level)?;
    for var in 1..universe.count() + 1 {
        let found = universe.number_of(universe.level_of(var), universe.placement_of(var));
        if found != Some(var) {
            return Err(Fail::new("another number"));
        }
    }
    Ok(universe.count())
}

/// The variables of small shapes, as the rows of formulas count them.
#[test]
fn universes_have_as_many_variables_as_the_rows(rt: HostRuntime) -> Result<(), Fail> {
    let alloc = rt.alloc();
    let counts = [
        count::<Square>(alloc, &cells![0, 0], 3)?,
        count::<Square>(alloc, &cells![0, 0; 1, 0; 2, 0; 0, 1], 2)?,
        count::<Hex>(alloc, &cells![0, 0; 1, 0], 3)?,
        count::<Iamond>(alloc, &cells![1, 1; 2, 2], 3)?,
    ];
    same("variables", counts, [64, 976, 444, 330])
}

/// A cell beside the single square, the variables up to this level that cover it, and the level.
const COVERED: [(&str, Cell, u32, &[u32]); 11] = [
    ("-1,-1", Cell { a: -1, b: -1 }, 2, &[1]),
    ("0,-1", Cell { a: 0, b: -1 }, 2, &[2]),
    ("1,-1", Cell { a: 1, b: -1 }, 2, &[3]),
    ("-1,0", Cell { a: -1, b: 0 }, 2, &[4]),
    ("1,0", Cell { a: 1, b: 0 }, 2, &[5]),
    ("-1,1", Cell { a: -1, b: 1 }, 2, &[6]),
    ("0,1", Cell { a: 0, b: 1 }, 2, &[7]),
    ("1,1", Cell { a: 1, b: 1 }, 2, &[8]),
    ("2,1", Cell { a: 2, b: 1 }, 2, &[19]),
    ("1,2", Cell { a: 1, b: 2 }, 2, &[23]),
    ("1,2 at level 1", Cell { a: 1, b: 2 }, 1, &[]),
];

/// Whether the placement of this variable has the cell, at level 1 where it is one of the first eight.
fn has(universe: &Universe<Square>, var: u32, cell: Cell) -> bool {
    1 <= var
        && var <= universe.count()
        && (universe.level_of(var) == 1) == (var <= 8)
        && universe.placement_of(var).shape().has(cell)
}

/// The 24 variables of the single square at level 2: the eight squares around it in cell order, then
/// the sixteen around these.
#[test]
fn squares_around_a_square_are_numbered_in_order(rt: HostRuntime) -> Result<(), Fail> {
    let universe = universe_of::<Square>(rt.alloc(), &cells![0, 0], 2)?;
    for (row, cell, level, numbers) in &COVERED {
        same(row, universe.covered_by(*cell, *level), numbers)?;
        for number in *numbers {
            same(row, has(&universe, *number, *cell), true)?;
        }
    }
    let listed = universe.covering(rt.alloc(), Cell { a: 2, b: 1 }, 2)?;
    same("listed", listed.as_slice(), [19].as_slice())?;
    same("variables", universe.count(), 24)
}

/// A square turned half round has the turn that does nothing, with another translation.
#[test]
fn placements_hold_the_isometry_of_least_turn(_rt: HostRuntime) -> Result<(), Fail> {
    let square = Shape::<Square>::single(Cell { a: 5, b: 7 });
    let half = Iso {
        turn: 2,
        da: -3,
        db: 11,
    };
    let place = Placement::new(&square, half);
    let least = isos![0, -13, -3];
    let has = place.shape().has(Cell { a: -8, b: 4 });
    same("placement", ([place.iso()], has), (least, true))?;
    same(
        "itself",
        (place.meets(&place), place.touches(&place)),
        (true, false),
    )
}
