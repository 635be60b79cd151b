//! Lists of shapes in strictly rising order, merged into one.
//!
//! Two lists are merged from their fronts, by moves: a `Shape` has 264 bytes and isn't copied. Many lists are merged
//! by halves, in two threads at once where each half has at least 4,096 shapes and more than one worker is left.
//! Below that a thread costs more than it saves. The last merge of all is one thread's, and all parts are held
//! before they are merged.
#![tactic(auto)]

mod merging;
#[cfg(test)]
mod tests;

pub use merging::{merge_all, merge_two};
