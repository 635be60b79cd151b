//! The tally of a catalogue: how many shapes tile, have a hole or a Heesch number, or are undecided.
//!
//! A tally is seen as counts, and its clauses speak of the list of what was added. So its text is a function of the
//! shapes and verdicts alone. Heesch numbers may be any of 32 bits in a text that wasn't checked, so an ordered map
//! counts them.
//!
//! `tabulate` makes the tally of a catalogue that is read from a source. It believes the verdicts. It asks of cells only
//! that they are a shape of the header's grid, in any order and place.
#![tactic(auto)]

mod answers;
mod counting;
mod fields;
mod heesch;
mod holes;
pub mod laws;
mod table;
mod tabulation;
mod tally;
mod verdicts;

pub use answers::Tabulated;
pub use tabulation::tabulate;
pub use tally::Tally;
