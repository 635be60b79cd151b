//! The grids by their names.
ghost use Rattle.std.specs.Prelude.{◌≡◌, ◌≢◌, MatchOption};
ghost use Rattle.heesch_grid.specs.Names.{grid_word};

use crate::GridName;

impl GridName {
    /// The word for the grid, on the command line and in catalogues.
    pub fn word(self) -> &'static str
        ensures { result.now ≡ grid_word self }
    {
        match self {
            GridName::Square => "square",
            GridName::Hex => "hex",
            GridName::Iamond => "iamond",
            GridName::Kite => "kite",
        }
    }

    /// The grid that a word names. None exactly where the word is of no grid.
    pub fn named(word: &str) -> Option<GridName>
        ensures { MatchOption result ((grid : GridName) → word.now ≢ grid_word grid)
            (λ grid. word.now ≡ grid_word grid) }
    {
        match word {
            "square" => Some(GridName::Square),
            "hex" => Some(GridName::Hex),
            "iamond" => Some(GridName::Iamond),
            "kite" => Some(GridName::Kite),
            _ => None,
        }
    }
}
