//! Workers claim the numbers below a count, each number once.
//!
//! `ClaimCore` is the machine as plain data, and `Board` runs it among threads: whatever the schedule, its word and
//! the views of its seats show a state of that machine. `specs/Machine.antt` defines the machine, and
//! `specs/Views.antt` what holds of a board between any two steps, as `MeetsSixPoints`.
//!
//! The machine's Split has no bound on the number of workers. The bound of 64 is a condition of `ClaimCore::step`
//! and `Board::split` alone. `Board::split` answers a `Result` though it never refuses.
#![tactic(auto)]

mod board;
mod event;
mod machine;
mod view;

pub use board::{Board, Drawn, Seat};
pub use event::{Event, Told};
pub use machine::{ClaimCore, every_run_is_sound};
pub use view::board_is_machine;
