//! Polyforms of at most 32 cells.
//!
//! `Shape::of` says both ways when it refuses: each refusal by `IsFault`, and Ok by `IsFaultless`. Without the
//! second a body that drops repeated cells would pass. `Shape::image` states its condition over the image alone: the
//! turn is one of the grid's, and every cell of the image lies within 1,000,000 of 0. It computes in 64 bits.
#![tactic(auto)]

mod contact;
mod faults;
mod lists;
mod places;
mod reach;
mod shapes;

pub use faults::ShapeFault;
pub use lists::CELLS_MAX;
pub use reach::is_next_to;
pub use shapes::Shape;
