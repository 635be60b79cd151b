//! What makes a grid of tables: its numbers, its turns, and the neighbours of a cell of each kind.
ghost use Rattle.std.specs.Prelude.{◌≡◌, ◌<◌, ◌*◌, true, is_some, IfSome, length, get_or};
ghost use Rattle.heesch_grid.specs.declared.tabled.Numbers.{Numbers};
ghost use Rattle.heesch_grid.specs.Geometry.{IsCell};
ghost use Rattle.heesch_grid.specs.Pattern.{Pattern, grid_of, identity, kind_of, turned};
ghost use Rattle.heesch_grid.specs.PatternTests.{passes};
ghost use Rattle.heesch_grid.specs.Tabled.{AreTablesAt, HasTables, numbers_of};
ghost use Rattle.heesch_grid.specs.Vectors.{IsWithin};

use crate::tables::neighbour;
use crate::turns::{composed_turn, inverted_turn};
use crate::{Cell, Grid, Sizes};

/// The numbers of a grid, each as the constant of `Sizes` that has its name.
#[derive(Clone, Copy)]
pub struct Numbers {
    pub unit: i32,
    pub per: u32,
    pub turns: u32,
    pub half_turn: u32,
    pub adjacent: u32,
    pub touching: u32,
}

/// The tables of a kind of cells: one of them, and the differences to its neighbours in cell order.
pub struct Tables {
    pub cell: Cell,
    pub adjacent: &'static [Cell],
    pub touching: &'static [Cell],
}

/// The cells of these coordinates: `cells![0, -1; 1, -1]` holds (0, -1) and (1, -1).
#[macro_export]
macro_rules! cells {
    ($($a:literal, $b:literal);*) => {
        [$($crate::Cell { a: $a, b: $b }),*]
    };
}

/// A grid by tables that pass the tests, half of whose turns are reflections.
pub trait Tabled: Copy {
    /// The tables as mathematics.
    ghost pattern: { Pattern };

    ghost NUMBERS: { Numbers };

    /// The grid's numbers.
    const NUMBERS: Numbers;

    /// The pair under turn k, which is below the number of turns.
    fn turned(k: u32, c: Cell) -> Cell
        requires below { k < length pattern.turns }
        requires within { IsWithin 1000000 c }
        ensures { result ≡ turned (get_or pattern.turns k identity) c };

    /// The tables of the kind of a cell, or None where the pair is no cell. Coordinates lie within 1,000,000 of 0.
    fn tables(c: Cell) -> Option<&'static Tables>
        requires { IsWithin 1000000 c }
        ensures cell { is_some result ≡ (grid_of pattern).is_cell c }
        ensures kind { IfSome result (λ t. HasTables (kind_of pattern.unit pattern.kinds c) t.now) };

    /// The numbers are the tables'.
    ghost numbers: { NUMBERS ≡ numbers_of pattern };

    /// The tables pass the tests.
    ghost tests: { passes pattern ≡ true };

    /// The turns are the rotations and as many reflections.
    ghost halves: { length pattern.turns ≡ 2 * pattern.rotations };
}

/// The tables of the kind of the cell c, whose coordinates lie within 1,000,000 of 0.
fn tables_at<T: Tabled>(c: Cell) -> &'static Tables
    requires cell { IsCell (grid_of T.pattern) c }
    requires within { IsWithin 1000000 c }
    ensures { AreTablesAt T.pattern c result.now }
{
    T::tables(c).unwrap()
}

impl<T: Tabled> Sizes for T {
    ghost UNIT = { T.NUMBERS.unit };

    ghost PER = { T.NUMBERS.per };

    ghost TURNS = { T.NUMBERS.turns };

    ghost HALF_TURN = { T.NUMBERS.half_turn };

    ghost ADJACENT = { T.NUMBERS.adjacent };

    ghost TOUCHING = { T.NUMBERS.touching };

    const UNIT: i32 = T::NUMBERS.unit;

    const PER: u32 = T::NUMBERS.per;

    const TURNS: u32 = T::NUMBERS.turns;

    const HALF_TURN: u32 = T::NUMBERS.half_turn;

    const ADJACENT: u32 = T::NUMBERS.adjacent;

    const TOUCHING: u32 = T::NUMBERS.touching;
}

impl<T: Tabled> Grid for T {
    ghost use Rattle.heesch_grid.specs.PatternLaws.{laws_by_tests};
    ghost use Rattle.heesch_grid.specs.Tabled.{sizes_of};

    ghost geometry = { grid_of T.pattern };

    ghost laws = { laws_by_tests T.pattern T.tests };

    ghost sizes = { sizes_of T.pattern T.NUMBERS T.numbers };

    fn is_cell(c: Cell) -> bool {
        T::tables(c).is_some()
    }

    fn turn(k: u32, c: Cell) -> Cell {
        T::turned(k, c)
    }

    fn inverse(k: u32) -> u32 {
        inverted_turn(T::NUMBERS.turns / 2, k)
    }

    fn compose(k: u32, l: u32) -> u32 {
        composed_turn(T::NUMBERS.turns / 2, k, l)
    }

    fn adjacent(c: Cell, i: u32) -> Cell {
        neighbour(c, tables_at::<T>(c).adjacent, i)
    }

    fn touching(c: Cell, i: u32) -> Cell {
        neighbour(c, tables_at::<T>(c).touching, i)
    }
}
