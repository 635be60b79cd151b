//! The check of coronas: whether the layers of a certificate surround a polyform.
//!
//! `check_coronas` speaks of every list of tiles that the isometries give, and says that there is one; that it is
//! one list is a law.
#![tactic(auto)]

mod check;
mod gaps;
mod holes;
pub mod laws;
mod meetings;
mod patches;
mod touching;

pub use check::{CoronaAnswer, check_coronas};
