//! The grid of kites: the hexagonal grid with each hexagon cut into six by the lines from its centre to the middles of
//! its edges.
//!
//! Every command comes from the name of a grid to the grid by the macro `on_grid!`, so a grid is one arm here. It is
//! no trait with a method generic over the grid: such a method gets no proof where it starts threads.
#![tactic(auto)]

use heesch_grid::tables::is_congruent;
use heesch_grid::turns::hex_turn;
use heesch_grid::{Cell, Numbers, Tabled, Tables, cells};
pub use heesch_grid::{GridName, Hex, Iamond, Square};

/// What a function that is generic over the grid answers on the grid of a name: `on_grid!(name, f::<_, T, H>(x, y))`
/// is `f::<G, T, H>(x, y)` for that grid G. A match and no trait, since a trait's method that is generic over the grid
/// gets no proof where it starts threads.
#[macro_export]
macro_rules! on_grid {
    ($name:expr, $call:ident::<_ $(, $kind:ty)*>($($value:expr),* $(,)?)) => {
        match $name {
            $crate::GridName::Square => $call::<$crate::Square $(, $kind)*>($($value),*),
            $crate::GridName::Hex => $call::<$crate::Hex $(, $kind)*>($($value),*),
            $crate::GridName::Iamond => $call::<$crate::Iamond $(, $kind)*>($($value),*),
            $crate::GridName::Kite => $call::<$crate::Kite $(, $kind)*>($($value),*),
        }
    };
}

/// The six kites of the hexagon around (0, 0), each a sixth of a turn from the one before.
static KITE_0: Tables = Tables {
    cell: Cell { a: 1, b: 1 },
    adjacent: &cells![1, -2; 3, 0; -2, 1; 0, 3],
    touching: &cells![0, -3; -2, -2; 1, -2; 4, -2; -3, 0; 3, 0; -2, 1; 0, 3; -2, 4],
};

static KITE_1: Tables = Tables {
    cell: Cell { a: -1, b: 2 },
    adjacent: &cells![-1, -1; 2, -1; -3, 3; 0, 3],
    touching: &cells![2, -4; 0, -3; 3, -3; -1, -1; 2, -1; -4, 2; 2, 2; -3, 3; 0, 3],
};

static KITE_2: Tables = Tables {
    cell: Cell { a: -2, b: 1 },
    adjacent: &cells![1, -2; -3, 0; 1, 1; -3, 3],
    touching: &cells![3, -3; -2, -2; 1, -2; 4, -2; -3, 0; 3, 0; 1, 1; -3, 3; -2, 4],
};

static KITE_3: Tables = Tables {
    cell: Cell { a: -1, b: -1 },
    adjacent: &cells![0, -3; 2, -1; -3, 0; -1, 2],
    touching: &cells![2, -4; 0, -3; 2, -1; -3, 0; 3, 0; -4, 2; -1, 2; 2, 2; 0, 3],
};

static KITE_4: Tables = Tables {
    cell: Cell { a: 1, b: -2 },
    adjacent: &cells![0, -3; 3, -3; -2, 1; 1, 1],
    touching: &cells![0, -3; 3, -3; -2, -2; 4, -2; -2, 1; 1, 1; -3, 3; 0, 3; -2, 4],
};

static KITE_5: Tables = Tables {
    cell: Cell { a: 2, b: -1 },
    adjacent: &cells![3, -3; -1, -1; 3, 0; -1, 2],
    touching: &cells![2, -4; 3, -3; -1, -1; -3, 0; 3, 0; -4, 2; -1, 2; 2, 2; -3, 3],
};

/// The grid of kites: a cell is six times a pair of whole numbers, added to one of the six kites around (0, 0); no
/// other pair is a cell.
#[derive(Clone, Copy, Debug)]
pub struct Kite;

impl Tabled for Kite {
    ghost use Rattle.std.specs.Prelude.{refl};
    ghost use Rattle.heesch_grid.specs.Grids.{kite};
    ghost use Rattle.heesch_grid.specs.Tabled.{numbers_of};
    ghost use Rattle.heesch_kite.specs.KiteTests.{kite_passes};

    ghost pattern = { kite };

    ghost NUMBERS = { numbers_of kite };

    const NUMBERS: Numbers = Numbers {
        unit: 6,
        per: 6,
        turns: 12,
        half_turn: 3,
        adjacent: 4,
        touching: 9,
    };

    fn turned(k: u32, c: Cell) -> Cell {
        hex_turn(k, c)
    }

    fn tables(c: Cell) -> Option<&'static Tables> {
        if is_congruent(c, KITE_0.cell, 6) {
            Some(&KITE_0)
        } else if is_congruent(c, KITE_1.cell, 6) {
            Some(&KITE_1)
        } else if is_congruent(c, KITE_2.cell, 6) {
            Some(&KITE_2)
        } else if is_congruent(c, KITE_3.cell, 6) {
            Some(&KITE_3)
        } else if is_congruent(c, KITE_4.cell, 6) {
            Some(&KITE_4)
        } else if is_congruent(c, KITE_5.cell, 6) {
            Some(&KITE_5)
        } else {
            None
        }
    }

    ghost numbers = { refl };

    ghost tests = { kite_passes };

    ghost halves = { refl };
}
