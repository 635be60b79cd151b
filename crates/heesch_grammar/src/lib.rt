//! The grammar of a catalogue as a machine over lines, and the making of an entry of its lines.
//!
//! The machine has no place before the header, which whoever reads the text reads. Whether a text is brief is no
//! part of what a line changes. The count of shapes is kept apart from the place, so a `shape` or `end` line is
//! judged alike wherever an entry may end. An entry's lines determine it where it holds nothing beyond them.
#![tactic(auto)]

mod entries;
pub mod laws;
mod next;
mod parts;
mod place;
mod searches;
mod spot;

pub use entries::{brief_of, entry_of};
pub use place::{AfterProof, Place};
pub use spot::Spot;
