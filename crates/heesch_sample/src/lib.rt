//! Tallies of the verdicts of polyforms that are grown from a seed.
#![tactic(auto)]

mod samples;

pub use samples::sample;
