//! The regular grids: of squares, of hexagons and of triangles.
ghost use Rattle.std.specs.Prelude.{refl};
ghost use Rattle.heesch_grid.specs.GridTests.{square_passes, hex_passes, iamond_passes};
ghost use Rattle.heesch_grid.specs.Grids.{square, hex, iamond};
ghost use Rattle.heesch_grid.specs.Tabled.{numbers_of};

use crate::tables::is_congruent;
use crate::turns::{hex_turn, square_turn};
use crate::{Cell, Numbers, Tabled, Tables, cells};

static SQUARE: Tables = Tables {
    cell: Cell { a: 0, b: 0 },
    adjacent: &cells![0, -1; -1, 0; 1, 0; 0, 1],
    touching: &cells![-1, -1; 0, -1; 1, -1; -1, 0; 1, 0; -1, 1; 0, 1; 1, 1],
};

/// The grid of squares: every pair is a cell, with the four corners of a unit square.
#[derive(Clone, Copy, Debug)]
pub struct Square;

impl Tabled for Square {
    ghost pattern = { square };

    ghost NUMBERS = { numbers_of square };

    const NUMBERS: Numbers = Numbers {
        unit: 1,
        per: 1,
        turns: 8,
        half_turn: 2,
        adjacent: 4,
        touching: 8,
    };

    fn turned(k: u32, c: Cell) -> Cell {
        square_turn(k, c)
    }

    fn tables(_c: Cell) -> Option<&'static Tables> {
        Some(&SQUARE)
    }

    ghost numbers = { refl };

    ghost tests = { square_passes };

    ghost halves = { refl };
}

static HEXAGON: Tables = Tables {
    cell: Cell { a: 0, b: 0 },
    adjacent: &cells![0, -1; 1, -1; -1, 0; 1, 0; -1, 1; 0, 1],
    touching: &cells![0, -1; 1, -1; -1, 0; 1, 0; -1, 1; 0, 1],
};

/// The grid of hexagons: every pair is a cell, with six corners.
#[derive(Clone, Copy, Debug)]
pub struct Hex;

impl Tabled for Hex {
    ghost pattern = { hex };

    ghost NUMBERS = { numbers_of hex };

    const NUMBERS: Numbers = Numbers {
        unit: 1,
        per: 1,
        turns: 12,
        half_turn: 3,
        adjacent: 6,
        touching: 6,
    };

    fn turned(k: u32, c: Cell) -> Cell {
        hex_turn(k, c)
    }

    fn tables(_c: Cell) -> Option<&'static Tables> {
        Some(&HEXAGON)
    }

    ghost numbers = { refl };

    ghost tests = { hex_passes };

    ghost halves = { refl };
}

/// A triangle that points up.
static UP: Tables = Tables {
    cell: Cell { a: 1, b: 1 },
    adjacent: &cells![1, -2; -2, 1; 1, 1],
    touching: &cells![0, -3; 3, -3; -2, -2; 1, -2; 4, -2; -3, 0; 3, 0; -2, 1; 1, 1; -3, 3; 0, 3; -2, 4],
};

/// A triangle that points down.
static DOWN: Tables = Tables {
    cell: Cell { a: 2, b: 2 },
    adjacent: &cells![-1, -1; 2, -1; -1, 2],
    touching: &cells![2, -4; 0, -3; 3, -3; -1, -1; 2, -1; -3, 0; 3, 0; -4, 2; -1, 2; 2, 2; -3, 3; 0, 3],
};

/// The grid of triangles: the pairs with both coordinates 1 modulo 3 point up, those with both 2
/// modulo 3 point down, and no other pair is a cell.
#[derive(Clone, Copy, Debug)]
pub struct Iamond;

impl Tabled for Iamond {
    ghost pattern = { iamond };

    ghost NUMBERS = { numbers_of iamond };

    const NUMBERS: Numbers = Numbers {
        unit: 3,
        per: 2,
        turns: 12,
        half_turn: 3,
        adjacent: 3,
        touching: 12,
    };

    fn turned(k: u32, c: Cell) -> Cell {
        hex_turn(k, c)
    }

    fn tables(c: Cell) -> Option<&'static Tables> {
        if is_congruent(c, UP.cell, 3) {
            Some(&UP)
        } else if is_congruent(c, DOWN.cell, 3) {
            Some(&DOWN)
        } else {
            None
        }
    }

    ghost numbers = { refl };

    ghost tests = { iamond_passes };

    ghost halves = { refl };
}
