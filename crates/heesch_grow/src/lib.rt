//! Growing polyforms cell by cell.
//!
//! `children` tries each adjacent cell once, sorts the canonical forms and drops repeats. Measured, that is no
//! slower than a hash set. It sorts in place, so only its pushes can want memory. The answer is exact for any
//! parents of at most 31 cells within 100,000 of 0, and all canonical shapes of at most 31 cells are such
//! (`free_lists_pass`).
//!
//! The generator keeps the list of adjacent cells without repeats as a shape grows, and sorts it once. The list has
//! at most 384 cells and takes no memory. The draws determine the shape, by a law.
#![tactic(auto)]

mod block;
mod draws;
mod growing;
pub mod laws;
mod neighbours;
mod random;

pub use block::first;
pub use draws::Draws;
pub use growing::children;
pub use random::grown;
