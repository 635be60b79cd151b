//! Shares of a catalogue, written and joined; laws on what all shares are joined to.
//!
//! The joiner reads share after share by the grammar of one catalogue, so no second grammar is written. It holds the
//! whole catalogue before anything is written, since a later line may be at fault. A line that is wholly a `brief`
//! or a `given` header has fault 10 wherever it stands.
#![tactic(auto)]

mod input;
mod joined_texts;
mod joiner;
pub mod laws;
mod part_line;
mod places;
mod scan;
mod shares;
mod stage;
mod written;

pub use input::joined;
pub use joined_texts::joined_text;
pub use joiner::Joiner;
pub use places::Span;
pub use shares::{SHARES_MAX, span};
pub use written::write_share;
