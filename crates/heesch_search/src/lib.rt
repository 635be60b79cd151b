//! The search for coronas of one level: over the geometry, where the judge finds its answer true, and else by the
//! solver over the corona formula.
//!
//! The search over the geometry (`heesch_chart`) makes no formula, and nothing is proved of its answer. So each answer
//! is judged (`heesch_judge`), and `heesch_levels` is asked in its place where the judge says no, and for formulas of
//! the first version. The contracts are those of `heesch_levels`, word for word.
#![tactic(auto)]

mod levels;
mod proposals;
mod walls;

pub use levels::{level, level_up_to};
pub use walls::wall;
