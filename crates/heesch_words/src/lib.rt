//! The words of a command line, and what they ask for.
//!
//! Options are a list of settings in any order, whose values of each option are none or the one held: that says "at
//! most once" without an order. Which numbers an option takes is said by the ranges of the limits (`AreLimits` of
//! the default limits with this one in place). The options of `classify` are read before its subject, since the
//! range of N depends on the version.
#![tactic(auto)]

pub mod laws;
mod numbers;
mod options;
mod requests;
mod shared_forms;
mod subjects;

pub use requests::{Request, Usage, parse};
