//! A module for each crate that is tried.
mod corona;
mod cuts;
mod grid;
mod grow;
mod index;
mod kite;
mod lattice;
mod made;
mod orbit;
mod place;
mod region;
mod shape;
mod tiling;
mod turned;
