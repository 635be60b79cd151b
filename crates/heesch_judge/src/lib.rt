//! The judge of what a search for coronas proposes, over the second corona formula, whose clauses are computed from
//! their numbers where they are asked for: no formula is made. It shares no code with any search.
//!
//! A proposal that it takes is an answer of `heesch_levels::level_up_to`, or of `heesch_levels::wall`, in the second
//! version: the contracts are those of these calls. A proposal that it refuses may be another right answer, or none.
#![tactic(auto)]

mod answers;
mod coronas;
mod empty;
mod propagation;
mod refuted;
mod spent;

pub use answers::{is_level_answer, is_wall_answer};
pub use coronas::spells_up_to;
pub use empty::first_empty;
pub use heesch_logs::has_no_cut;
pub use propagation::{ends_open, propagated};
pub use refuted::{refutes_anew, refutes_up_to};
pub use spent::{is_spent_open, is_spent_up_to};
