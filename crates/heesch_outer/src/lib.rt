//! The outer number of a shape: how many coronas it has where the outermost one alone may have holes. Outer texts: for
//! each shape of a list its entry and what is known of its outer number, written as they are made.
//!
//! A ticket of the pool is one shape, which is classified and then searched for outer coronas.
//!
//! The definitions of outer coronas stand here and not below, so that nothing below is proved again with them.
#![tactic(auto)]

mod answer;
mod answering;
mod answers;
mod checking;
pub mod laws;
mod outers;
mod record;
mod same;
mod shaped;

pub use answer::OuterAnswer;
pub use answering::outer;
pub use answers::OuterEntry;
pub use checking::check_outer;
pub use outers::{write_outers, write_outers_of_size};
pub use record::write_answer;
