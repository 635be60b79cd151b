//! The versions of corona formulas.

/// Which corona formula is meant: how it says that no cell has two tiles.
#[derive(Clone, Copy, Debug, PartialEq, Eq)]
pub enum Version {
    /// By a clause for each two variables whose tiles meet.
    One,
    /// By owner variables of each cell, which tell its tile.
    Two,
}
