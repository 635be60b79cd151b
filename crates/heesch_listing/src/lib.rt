//! All free polyforms of a size.
//!
//! A size is one job of the pool, with a ticket for each 64 consecutive parents. A free list of 2^32 shapes or more
//! counts as want of memory; a list that is answered has fewer.
#![tactic(auto)]

mod growing;
mod parts;

pub use growing::all_shapes;
