//! Grids of the plane: their cells, turns, neighbours and isometries, and the definitions of what is
//! said of sets of cells (polyforms, placements, holes, coronas, tilings and formulas).
//!
//! A cell is a pair of whole numbers. A grid says which pairs are cells and what their corners are.
//! Nothing here takes memory or refuses.
//!
//! `Iso::apply` is for translations within 100,000. `apply_far` takes any whose image lies within 1,000,000.
//! `hex_turn` says the sums of each turn in its arm, which takes less time than a table of matrices.
#![tactic(auto)]

ghost use Rattle.std.proofs.Common.{rules};
ghost use Rattle.std.specs.Cmp.{partial_order_from_own_ties};
ghost use Rattle.std.specs.Cmp.Rules.{comparing};
ghost use Rattle.std.specs.Ordering.{as_partial_cmp};
ghost use Rattle.heesch_grid.specs.Cells.{cell_cmp};

use std::cmp::Ordering;

mod grids;
mod isometries;
pub mod laws;
pub mod moves;
mod names;
mod regular;
mod tabled;
pub mod tables;
pub mod turns;

pub use grids::{Grid, Sizes};
pub use isometries::Iso;
pub use regular::{Hex, Iamond, Square};
pub use tabled::{Numbers, Tabled, Tables};

/// A cell of a grid, or any other pair of coordinates, in grid units.
#[derive(Clone, Copy, Debug, Default, PartialEq, Eq, Hash)]
pub struct Cell {
    pub a: i32,
    pub b: i32,
}

/// Cell order: by b, and then by a.
impl Ord for Cell {
    ghost cmp = { cell_cmp };

    ghost total = { Prim.search (comparing, rules) };

    ghost matches_partial_cmp = { Prim.search (comparing, rules) };

    ghost matches_eq = { Prim.search (comparing, rules) };

    fn cmp(&self, other: &Cell) -> Ordering {
        self.b.cmp(&other.b).then(self.a.cmp(&other.a))
    }
}

impl PartialOrd for Cell {
    ghost partial_cmp = { as_partial_cmp cell_cmp };

    ghost laws = { partial_order_from_own_ties (Prim.search (comparing, rules)) (Prim.search (comparing, rules)) };

    fn partial_cmp(&self, other: &Cell) -> Option<Ordering> {
        Some(self.cmp(other))
    }
}

/// The grids by name.
#[derive(Clone, Copy, Debug, PartialEq, Eq)]
pub enum GridName {
    Square,
    Hex,
    Iamond,
    Kite,
}
