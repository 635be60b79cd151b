//! The clauses of a torus formula by their numbers: each is computed where it is asked for.
//!
//! Of each variable a row of bits tells which cells it has. So whether two variables share a cell takes an `and` for
//! each 64 cells. For each variable the numbers of the later ones that share a cell with it are kept, a word a pair.
#![tactic(auto)]

mod apart;
mod later;
mod lists;
mod rows;
mod source;
mod table;

pub use source::TorusSource;
