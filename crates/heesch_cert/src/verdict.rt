//! Verdicts.
ghost use Rattle.std.specs.Prelude.{◌≡◌};
ghost use Rattle.heesch_cert.specs.TrueEntry.{first_number, last_number};

/// The kind of a tiling.
#[derive(Clone, Copy, Debug, PartialEq, Eq)]
pub enum Kind {
    /// The translates of one tile.
    Translation,
    /// The translates of one tile and of its image under a half-turn.
    HalfTurn,
    /// The translates of two tiles or more, under any isometries.
    Periodic,
}

/// The search that met a limit.
#[derive(Clone, Copy, Debug, PartialEq, Eq)]
pub enum Phase {
    /// Holes forbidden.
    Free,
    /// Holes allowed.
    Bare,
}

/// What was found of a polyform.
#[derive(Clone, Copy, Debug, PartialEq, Eq)]
pub enum Verdict {
    /// It tiles the plane: by a cover of this kind, with so many tiles in a domain, in so many classes.
    Tiles {
        kind: Kind,
        domain: u32,
        classes: u32,
    },
    /// Its Heesch number is h, and m is the least number of coronas, holes allowed, that it doesn't have. It doesn't
    /// tile.
    Heesch {
        h: u32,
        m: u32,
    },
    /// Undecided: h hole-free coronas were found, and h is the limit on levels.
    Levels {
        h: u32,
    },
    /// Undecided: its Heesch number is h, and it has as many coronas with holes as the limit on levels.
    Holes {
        h: u32,
    },
    /// Undecided: h hole-free coronas were found, and the search at level `at` took all its turns.
    Turns {
        h: u32,
        phase: Phase,
        at: u32,
    },
    /// Undecided: h hole-free coronas were found, and the corona formula at level `at` is above the limit on size.
    Size {
        h: u32,
        phase: Phase,
        at: u32,
    },
}

impl Verdict {
    /// How many hole-free coronas it tells; a tiling tells none.
    pub fn first_number(self) -> u32
        ensures { result ≡ first_number self }
    {
        match self {
            Verdict::Tiles { .. } => 0,
            Verdict::Heesch { h, .. }
            | Verdict::Levels { h }
            | Verdict::Holes { h }
            | Verdict::Turns { h, .. }
            | Verdict::Size { h, .. } => h,
        }
    }

    /// The last number of its line: the classes of a tiling, else the last number of coronas that was sought.
    pub fn last_number(self) -> u32
        ensures { result ≡ last_number self }
    {
        match self {
            Verdict::Tiles { classes, .. } => classes,
            Verdict::Heesch { m, .. } => m,
            Verdict::Levels { h } | Verdict::Holes { h } => h,
            Verdict::Turns { at, .. } | Verdict::Size { at, .. } => at,
        }
    }
}
