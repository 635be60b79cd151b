//! Tilings by a lattice.
//!
//! `check_cover` doesn't ask the equation of the domain. It counts every pair of the window, so each number of tiles
//! is decided exactly. Whether a cover is whole is seen from each cell's count, never from the number of cells. That
//! a cover has as many tiles as its triple's domain is a law (`covers_fill_their_triple`).
#![tactic(auto)]

mod check;
mod counts;
mod found;
pub mod laws;
mod search;
mod window;

pub use check::{Cover, check_cover};
pub use found::Plain;
pub use search::{area_of, plain};
pub use window::{number_of, pair_at, residue_of, window_size};
