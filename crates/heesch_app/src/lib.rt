//! What the program `heesch` does, over any source and any sink.
//!
//! How a part of `run` leaves the sink is one definition by status (`EndsAs`). `put_reply` has it for the commands
//! with one text, and the writers have it for `classify`.
#![tactic(auto)]

mod bad_input;
mod catalogues;
mod checks;
mod exchanges;
mod given;
mod joins;
mod listing;
mod outers;
mod plains;
mod program;
mod reading;
mod reply;
mod status;
mod tables;
mod tilings;

pub use program::run;
pub use status::Status;
