//! Whether bytes are a valid outer text of a subject under limits.
//!
//! What the bytes are is said of blocks: that of a record runs to the next line that begins `shape ` or `end `, so a
//! record's lines stand inside the block of its entry. The whole input is held, and its blocks are judged by rounds: a
//! ticket of the pool is one block. An outer text has no header; the grid, the subject and the limits come with it as
//! those of a `Header`.
//!
//! A record is the text of an entry, and behind it that of the answer on its shape's outer number. The lines of a
//! catalogue at its front are those of the entry, since no line begins as an answer's text does. The entry is made of
//! them as the grammar of a catalogue says. Its first number says how the answer's text begins, and the lines behind
//! that are the answer's layers or proof.
#![tactic(auto)]

mod answer;
mod blocks;
mod checking;
mod entry;
mod front;
mod judging;
pub mod laws;
mod lines;
mod parts;
mod record;
mod rounds;

pub use checking::check_outers;
pub use record::read_record;
