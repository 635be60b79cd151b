//! Finite sets of cells, and the greatest hole of such a set.
//!
//! A region asks that its cells lie within 1,000,000 of 0, and any two of them within 4,096 of each other; so a
//! patch need not be moved to the origin. A pair that is no cell is a harmless member. The window of the flood has a
//! strip of bits for each rest of the columns modulo the unit, and a border that is never set, so a word's
//! neighbours are read without a case at the end of a row. A sweep keeps a bit where it is taken or all its
//! neighbours are set. Sweeps go down and up until one changes nothing.
#![tactic(auto)]

mod bits;
mod flood;
mod region;
mod window;

pub use region::Region;
