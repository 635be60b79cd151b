//! What a reader appends, and the part of a catalogue at which it stops.

use heesch_cert::{Cells, Entry, Header, Verdict};

/// A part of a catalogue that is whole. `line` is the line of its word `shape`, from 1.
#[derive(Drop)]
pub enum Item {
    /// The first line.
    Header {
        header: Header,
    },
    /// An entry of a full text. It holds nothing beyond its lines.
    Entry {
        line: u64,
        entry: Entry,
    },
    /// An entry of a brief text.
    Brief {
        line: u64,
        cells: Cells,
        verdict: Verdict,
    },
    /// The last line.
    End {
        count: u32,
    },
}

/// The part of a catalogue that is at fault.
#[derive(Clone, Copy, Debug, PartialEq, Eq)]
pub enum Part {
    Header,
    /// The entry behind those that stand before the fault.
    Entry,
    End,
}
