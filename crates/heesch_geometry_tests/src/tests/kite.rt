//! Neighbours and isometries.
use heesch_grid::{Cell, Grid, Iso, cells};
use heesch_kite::Kite;
use heesch_made::same;
use std::test::Fail;

const FIRST: Cell = Cell { a: 1, b: 1 };

const LAST: Cell = Cell { a: 8, b: -7 };

/// The cells are those of six residues.
#[test]
fn cells_have_six_residues(_rt: HostRuntime) -> Result<(), Fail> {
    let found = [
        Kite::is_cell(FIRST),
        Kite::is_cell(LAST),
        Kite::is_cell(Cell { a: 4, b: 1 }),
        Kite::is_cell(Cell { a: 0, b: 0 }),
        Kite::is_cell(Cell { a: 1, b: 2 }),
    ];
    same("cells", found, [true, true, true, false, false])
}

/// The neighbours stand in cell order; a sixth of a turn takes a kite to the next one, and a translation goes by six.
#[test]
fn neighbours_and_isometries_follow_the_tables(_rt: HostRuntime) -> Result<(), Fail> {
    let sixth = Iso {
        turn: 1,
        da: 1,
        db: 0,
    };
    let found = [
        Kite::adjacent(FIRST, 0),
        Kite::adjacent(FIRST, 1),
        Kite::touching(FIRST, 8),
        Kite::adjacent(LAST, 3),
        Kite::touching(LAST, 0),
        sixth.apply::<Kite>(FIRST),
    ];
    same(
        "kites",
        found,
        cells![2, -1; 4, 1; -1, 5; 7, -5; 10, -11; 5, 2],
    )
}
