//! A module for each crate that is tried.
mod audit;
mod chart;
mod encode;
mod levels;
mod made;
mod outer;
mod torus;
mod verdict;
