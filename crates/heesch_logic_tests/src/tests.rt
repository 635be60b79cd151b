//! A module for each crate that is tried.
mod beyond;
mod claims;
mod effort;
mod exact;
mod io;
mod lazy;
mod made;
mod rup;
mod solver;
mod trail;
