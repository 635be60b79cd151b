//! Shapes from input: the text of a list, read from a source line by line.
//!
//! The whole list is read before anything is classified or written, up to its first fault, so a catalogue is never
//! begun for a list that has one. A line is read on to its end or to 2^40 bytes, since where it ends decides between
//! its own fault and fault 8. A line that ends before that bound has its own fault even in a longer input; fault 7
//! of line 10,001 comes before fault 8. The bound is a const parameter of `shapes_given`, so that a test runs it at
//! 64 bytes.
#![tactic(auto)]

mod given;
pub mod laws;
mod lines;

pub use given::shapes_given;
pub use lines::canonical_of;
