//! Counts of verdicts, but for Heesch numbers.
ghost use Rattle.std.specs.Prelude.{◌≡◌, ◌^◌};
ghost use Rattle.heesch_table.specs.Steps.{VerdictsAreWithin, with_verdict};

use heesch_cert::{Kind, Verdict};

/// How many shapes tile by each kind of tiling, how many with one class of tiles, and how many are undecided, by the
/// limit that was met.
#[derive(Clone, Copy, Debug, Default)]
pub struct VerdictCounts {
    pub translation: u64,
    pub halfturn: u64,
    pub periodic: u64,
    pub isohedral: u64,
    pub levels: u64,
    pub holes: u64,
    pub turns: u64,
    pub size: u64,
}

impl VerdictCounts {
    /// One more verdict.
    pub fn add(&mut self, verdict: &Verdict)
        requires { VerdictsAreWithin (2 ^ 32) self.old }
        ensures { self.new ≡ with_verdict verdict.now self.old }
    {
        match verdict {
            Verdict::Tiles { kind, classes, .. } => {
                match kind {
                    Kind::Translation => self.translation += 1,
                    Kind::HalfTurn => self.halfturn += 1,
                    Kind::Periodic => self.periodic += 1,
                }
                if *classes == 1 {
                    self.isohedral += 1;
                }
            }
            Verdict::Heesch { .. } => {}
            Verdict::Levels { .. } => self.levels += 1,
            Verdict::Holes { .. } => self.holes += 1,
            Verdict::Turns { .. } => self.turns += 1,
            Verdict::Size { .. } => self.size += 1,
        }
    }
}
