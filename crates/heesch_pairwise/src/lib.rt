//! The clauses of the first corona formula by their numbers: each is computed where it is asked for, and none is kept.
#![tactic(auto)]

mod later;
mod newness;
mod pairs;
mod source;

pub use source::PairwiseSource;
