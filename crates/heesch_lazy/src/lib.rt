//! A solver over a cover table, which makes no clause but those that it learns.
//!
//! Assignments follow from the table itself. A chosen variable denies those that share a cell with it. A want holds
//! from the start, or once a variable that asks for it is chosen; two candidates that aren't denied watch it. The
//! wants of a variable that is still open aren't looked at, so a learnt clause may contain the clause of such a want.
//! Then no line is made: the variable is denied by that clause, late, and a copy of it is watched from then on.
//!
//! Decisions and learning are those of `heesch_cdcl`. What is proved is that the search is safe and ends, and that its
//! lines are clauses. Its answers are advice: whoever asks has them judged by checkers of the formula itself.
#![tactic(auto)]

mod analysis;
mod choice;
mod clause;
mod latest;
mod log;
mod marks;
mod reason;
mod search;
mod state;
mod store;
mod trail;
mod truth;
mod visits;
mod wants;

pub use log::CoverLog;
pub use reason::Reason;
pub use search::{Found, Search};
