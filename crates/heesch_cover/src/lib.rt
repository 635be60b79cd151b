//! Cover problems as tables: which cells the tile of each variable has, and of which variables one is wanted.
//!
//! A corona formula and a torus formula say the same two things. Two variables whose tiles have a cell in common
//! aren't both chosen. And of some lists of variables one has to be chosen: some from the start, some once another
//! variable is chosen. The table has these lists and no clause, so that a search walks from a variable to those that
//! it meets.
//!
//! Contracts say how many variables, cells and wants there are, and that the numbers of variables are in range. What
//! the table says of a shape has no contract: answers of a search over it are judged by checkers of the formula
//! itself.
#![tactic(auto)]

mod lists;
mod near;
mod table;

pub use lists::NumberLists;
pub use near::{Reach, Slots, Start};
pub use table::{CoverTable, Want};
