//! The lines of a catalogue and of a list of shapes, read from their bytes.
//!
//! A line is read by one function over its bytes. Its answer is stated by texts alone: the line whose words these
//! are, or that no line has them. Fields and lines are read in a few ways: by the first of some words (`by_words`,
//! `names`), from one field (`made`), or from two fields with a word between (`parted`). `read_lines` is public
//! beside `read_list`, since the shapes before a faulty line matter too: the first faulty line decides over a list's
//! faults and a shape's.
//!
//! `ListLine` reads a line of a list byte by byte and keeps 33 cells and one word of it, so an endless line takes no
//! memory. `read_line` answers want of memory only for bytes that begin as a line with a list does.
#![tactic(auto)]

mod fault;
mod fields;
pub mod laws;
mod line_reading;
mod list;
mod list_line;
mod names;
mod stops;
mod words;

pub use fault::LineFault;
pub use line_reading::read_line;
pub use list::{ListLines, ListStop, read_lines, read_list};
pub use list_line::ListLine;
pub use stops::{InputStop, LineStop};
