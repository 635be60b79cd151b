//! A catalogue read in whatever pieces its bytes come, and from a source piece by piece.
//!
//! Contracts speak of the text of items and of the lines held, never of how the bytes were cut. `Reader::new` takes
//! an allocator and never fails; `finish` has no condition. At want of memory `feed` leaves a front of the items
//! that are whole, and `finish` leaves none of its own. A piece is read line by line: the newline is found by
//! `memchr`, and the line is copied at once.
//!
//! `Stream` speaks of the whole input from its beginning, unread bytes included, so callers know nothing of what a
//! reader keeps. How much is read depends on how the source cuts its reads; what is pinned is that all but the last
//! piece, of at most 4,096 bytes, decides nothing. A stream that refused answers the same for good. After the end
//! nothing is said of it, since nothing is left to read.
#![tactic(auto)]

mod answers;
mod item;
pub mod laws;
mod newlines;
mod progress;
mod reader;
mod scan;
mod scanning;
mod stream;

pub use answers::{StreamStop, Taken};
pub use item::{Item, Part};
pub use progress::{AtHand, Progress};
pub use reader::Reader;
pub use scan::Appended;
pub use stream::{INPUT_MAX, Stream};
