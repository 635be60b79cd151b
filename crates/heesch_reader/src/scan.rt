//! The state of a reader that hasn't refused.

use crate::progress::Progress;
use heesch_cert::Header;
use heesch_text::Line;
use std::alloc::Global;
use std::collections::VecDeque;

/// What a reader has appended: the header if it was read, the number of entries, the number of lines of all items, and
/// whether an end was read.
#[derive(Clone, Copy, Debug, PartialEq, Eq)]
pub struct Appended {
    pub header: Option<Header>,
    pub entries: u32,
    pub lines: u64,
    pub ended: bool,
}

/// The lines of the entry at hand, and the bytes of the line at hand.
#[derive(Drop)]
pub struct Scan {
    pub alloc: Global,
    pub appended: Appended,
    pub lines: VecDeque<Line>,
    pub progress: Progress,
    pub line: Vec<u8>,
}
