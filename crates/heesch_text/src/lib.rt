//! The texts that the program writes, each a function of the value written.
//!
//! The typed line stands between a catalogue and its text: an entry is a list of lines, and each line has its words.
//! A number that other lines determine, as the level of a wall or the last number of a verdict, is computed where
//! the lines are made. So the text is a function of the value. A field's writer keeps what stood in the text before
//! it also at want of memory, so a line's writer has only to cut the text back.
#![tactic(auto)]

mod catalogue;
mod evidence;
pub mod fields;
mod line;
mod lines;
mod names;
mod shapes;

pub use catalogue::{write_brief, write_coronas, write_end, write_entry, write_header};
pub use evidence::{append_layers, append_proof};
pub use line::{BareOutcome, Line, Outcome};
pub use shapes::write_shape;
