//! Workers that claim the numbers of a stored job, each number once, and answer them.
//!
//! Nothing in it waits. Beside it `heesch_merge` and `heesch_rup` alone start threads for the program, by `join` and
//! by rayon. Each worker draws the next number as soon as it is free, and the answers come out in the order of their
//! numbers, whatever the schedule.
//!
//! A runtime, an allocator, a number of workers and a gate go from call to call as one value, `Crew`, which keeps
//! that the workers are 1 to 64. A job has no more workers than tickets: a thread that finds no ticket costs its
//! making and its end. What a gate is given is shown by a test.
//!
//! The caller's thread is one of the workers. By `run_span_behind` it first does something else while the others work,
//! so that there are never more threads than workers.
#![tactic(auto)]

mod crew;
mod gate;
mod gather;
mod job;
mod order;
mod run;
mod seats;
#[cfg(test)]
mod tests;
mod workers;

pub use crew::Crew;
pub use gate::{Gate, Open};
pub use job::{Answer, Job};
pub use workers::work;
