//! The clauses of a corona formula by their numbers: each is computed where it is asked for, and none is kept.
#![tactic(auto)]

mod bound;
mod common;
mod counts;
mod owners;
mod prefix;
mod remain;
mod room;
mod seen;
mod source;
mod surround;
mod walks;

pub use common::CommonClauses;
pub use prefix::Prefix;
pub use seen::{left_with_all, remains};
pub use source::CoronaSource;
