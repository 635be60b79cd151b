//! What may happen to the machine, and what it tells.

/// An event. Workers are numbered from 0, in the order in which they are made.
#[derive(Clone, Copy, Debug, PartialEq, Eq)]
pub enum Event {
    /// A new worker is made, with one of the shares of `from`.
    Split { from: u32 },
    /// `who` claims the next number, or is told that there is none.
    Draw { who: u32 },
    /// `into` gets what `from` has, and `from` is no more.
    Join { into: u32, from: u32 },
}

/// What an event tells.
#[derive(Clone, Copy, Debug, PartialEq, Eq)]
pub enum Told {
    /// A split made this worker.
    Made { who: u32 },
    /// A draw claimed this number.
    Ticket { number: u32 },
    /// A draw found no number left.
    End,
    /// A join was made.
    Joined,
}
