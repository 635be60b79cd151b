//! A module for each crate that is tried.
mod catalogue;
mod check;
mod outers;
mod sample;
