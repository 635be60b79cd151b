//! The header of a catalogue.

use crate::Limits;
use heesch_grid::GridName;

/// What a catalogue is of: all polyforms of a size, or those that were given.
#[derive(Clone, Copy, Debug, PartialEq, Eq)]
pub enum Subject {
    /// All free polyforms of so many cells.
    Size { n: u32 },
    /// Those that were given.
    Given,
}

/// The first line of a catalogue: whether it is brief (verdicts without evidence), of which grid and polyforms, and
/// under which limits.
#[derive(Clone, Copy, Debug, PartialEq, Eq)]
pub struct Header {
    pub brief: bool,
    pub grid: GridName,
    pub subject: Subject,
    pub limits: Limits,
}
