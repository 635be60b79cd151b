//! What an assignment follows from.

/// A clause that follows from the table, or that stands in the log.
#[derive(Debug, Clone, Copy, PartialEq, Eq)]
pub enum Reason {
    /// One of the candidates of a want that holds from the start.
    First { want: u32 },
    /// Not the variable, or one of the candidates of a want that it asks for.
    Asked { variable: u32, want: u32 },
    /// Not the one or not the other, since their tiles have a cell in common. The first one is true where a checker
    /// comes to the clause.
    Apart { tile: u32, other: u32 },
    /// The clause of a line, which was learnt or given, by its index from 0.
    Line { index: u32 },
}
