//! The check of a log, line by line, and whether its lines are new. Of the solver it shares the types alone, and none
//! of its code.
//!
//! The log checker reads clauses and hints by code of its own, and shares types and definitions alone with the
//! solver. It reads lines by a trait whose meaning is a log, so a caller whose lines stand elsewhere copies none.
//! Long logs over a formula in memory are checked by chunks of lines, by rayon, whatever the number of workers.
#![tactic(auto)]

mod added;
mod assignment;
mod check;
mod chunks;
mod hints;
mod in_turn;
mod indexed;
mod newness;
mod numbers;
mod occurrences;
mod rarity;
mod spent;
mod status;
mod steps;

pub use check::{LogAnswer, check_log, check_steps};
pub use in_turn::{all_new_in_turn, check_steps_in_turn, is_spent_in_turn};
pub use newness::{all_new, all_new_steps};
pub use spent::is_spent;
pub use steps::Steps;
