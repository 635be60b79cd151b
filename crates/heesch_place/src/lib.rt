//! Placements of a shape, and those that the levels of a corona formula name.
//!
//! `Placement::new` states its condition over the image alone; the least isometry's translation may be longer than
//! the argument's. `number_of` is a binary search over the variables. `covered_by` answers from a table of their
//! cells, without memory.
//!
//! A placement is held by its spot: its form, which is one of the placements that begin near 0, and its first cell.
//! Spots in the order of first cells, and then of forms, are tiles in the order of their cell lists. For each form
//! the spots whose tiles touch it are listed once. A level is made from the one below it by one mark for each of
//! these spots around each of its tiles; the marks are then walked in order. Tiles are made once, for the variables.
#![tactic(auto)]

mod around;
mod forms;
mod images;
mod level;
mod lists;
mod placement;
mod prototile;
mod spots;
mod turned;
mod universe;

pub use placement::Placement;
pub use universe::Universe;
