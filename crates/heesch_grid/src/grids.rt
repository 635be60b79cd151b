//! What a grid is.
ghost use Rattle.std.specs.Prelude.{◌≡◌, ◌<◌, ℕ, ℤ, true, slice_get};
ghost use Rattle.heesch_grid.specs.Geometry.{Geometry, IsCell, IsGrid, HasSizes};
ghost use Rattle.heesch_grid.specs.Vectors.{IsWithin};

use crate::Cell;

/// The numbers of a grid.
///
/// They stand in a trait of their own, since a name may not differ from that of a function beside
/// it in case alone.
pub trait Sizes {
    ghost UNIT: { ℤ };

    ghost PER: { ℕ };

    ghost TURNS: { ℕ };

    ghost HALF_TURN: { ℕ };

    ghost ADJACENT: { ℕ };

    ghost TOUCHING: { ℕ };

    /// Translations move by multiples of this, 1 to 6.
    const UNIT: i32;
    /// How many cells have both coordinates from 0 to below UNIT, 1 to 6.
    const PER: u32;
    /// How many turns there are, reflections included, 1 to 12.
    const TURNS: u32;
    /// The turn that sends each pair to its negative.
    const HALF_TURN: u32;
    /// How many cells are adjacent to a cell, at most 12.
    const ADJACENT: u32;
    /// How many cells touch a cell, at most 12.
    const TOUCHING: u32;
}

/// A grid of the plane: its cells, its turns and its neighbours. What goes to threads asks for `Send` and `Sync`
/// beside it: a method of a trait gets no proof where it calls a function whose bound has them among its supertraits.
///
/// Two different cells are adjacent where they share exactly two corners, and touch where they
/// share at least one. Coordinates of arguments lie within 1,000,000 of 0. Every call takes a fixed
/// number of steps, by a table or a `match`, and no memory.
pub trait Grid: Sizes + Copy {
    /// The grid as mathematics.
    ghost geometry: { Geometry };

    /// Whether the pair is a cell of the grid.
    fn is_cell(c: Cell) -> bool
        requires { IsWithin 1000000 c }
        ensures { result ≡ geometry.is_cell c };

    /// The pair under turn k, which is below TURNS. Its coordinates lie within 2,000,000 of 0.
    fn turn(k: u32, c: Cell) -> Cell
        requires below { k < geometry.turns }
        requires within { IsWithin 1000000 c }
        ensures { result ≡ geometry.turn k c };

    /// The turn that undoes turn k, which is below TURNS.
    fn inverse(k: u32) -> u32
        requires { k < geometry.turns }
        ensures { result ≡ geometry.inverse k };

    /// The turn that is turn k followed by turn l, both below TURNS.
    fn compose(k: u32, l: u32) -> u32
        requires first { k < geometry.turns }
        requires second { l < geometry.turns }
        ensures { result ≡ geometry.compose k l };

    /// The i-th cell that is adjacent to the cell c, from 0 to below ADJACENT in cell order.
    fn adjacent(c: Cell, i: u32) -> Cell
        requires cell { IsCell geometry c }
        requires within { IsWithin 1000000 c }
        requires below { i < geometry.adjacent_count }
        ensures { slice_get (geometry.adjacent c) i ≡ Some result };

    /// The i-th cell that touches the cell c, from 0 to below TOUCHING in cell order.
    fn touching(c: Cell, i: u32) -> Cell
        requires cell { IsCell geometry c }
        requires within { IsWithin 1000000 c }
        requires below { i < geometry.touching_count }
        ensures { slice_get (geometry.touching c) i ≡ Some result };

    /// The laws that the grid keeps.
    ghost laws: { IsGrid geometry };

    /// The constants are the grid's numbers.
    ghost sizes: { HasSizes geometry Self.UNIT Self.PER Self.TURNS Self.HALF_TURN Self.ADJACENT Self.TOUCHING };
}
