//! The lines of a catalogue as values.
ghost use Rattle.std.specs.Prelude.{◌≡◌};
ghost use Rattle.heesch_text.specs.Names.{outcome_text};

use heesch_cert::{Cells, Cut, Header, Isos, Member, Verdict};
use heesch_cnf::{Hints, Lits};
use heesch_grid::Iso;
use heesch_lattice::Triple;

/// How a search for coronas ended, and what follows.
#[derive(Clone, Copy, Debug, PartialEq, Eq)]
pub enum Outcome {
    /// By a refutation, which follows.
    Refuted,
    /// With all its turns taken, by the steps that follow.
    Spent,
    /// Before it began, since the formula is too large.
    Size,
}

impl Outcome {
    /// The word that names it in a line.
    pub(crate) fn word(self) -> &'static [u8]
        ensures { result.now ≡ outcome_text self }
    {
        match self {
            Outcome::Refuted => b"refuted",
            Outcome::Spent => b"spent",
            Outcome::Size => b"size",
        }
    }
}

/// How the search for coronas with holes allowed ended.
#[derive(Clone, Copy, Debug, PartialEq, Eq)]
pub enum BareOutcome {
    /// The proof of the wall serves here too.
    Same,
    /// Coronas were found up to the limit on levels.
    Open,
    /// As a search of its own.
    Searched { outcome: Outcome },
}

/// One line of a catalogue.
#[derive(Drop)]
pub enum Line {
    Header { header: Header },
    Shape { cells: Cells },
    Verdict { verdict: Verdict },
    Lattice { triple: Triple },
    Tile { place: Iso, member: Member },
    Coronas { count: u32 },
    Layer { places: Isos },
    Wall { level: u32, outcome: Outcome },
    Bare { level: u32, outcome: BareOutcome },
    Open { count: u32 },
    Triple { triple: Triple, refuted: bool },
    Learn { clause: Lits, hints: Hints },
    Cut { cut: Cut },
    Empty { hints: Hints },
    Spent,
    End { count: u32 },
}
