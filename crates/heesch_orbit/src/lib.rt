//! The classes of the tiles of a cover under the symmetries of the cover.
//!
//! Two tiles with the same reduced cells need not be translates of each other by a vector of the lattice. So classes
//! compare tiles up to a translation, never residue sets. Each turn is tried with the one translation that fits: two
//! tiles are in one class exactly where a symmetry takes one exactly to the other (`classes_take_exactly`).
//!
//! A symmetry need not carry the lattice into itself. The test is that each tile goes to a translate of a tile, and
//! that the two turned vectors of the lattice are periods of the tiles. The inverse of a symmetry is one because
//! turns repeat and p times q times a translation is a vector of the lattice. `classes` doesn't ask that the places
//! are a cover.
#![tactic(auto)]

mod classing;
pub mod laws;
mod steps;
mod symmetries;
mod turns;
mod vectors;

pub use classing::classes;
