//! The verdict that the ends of the searches give.
ghost use Rattle.std.specs.Prelude.{◌≡◌, List, Option};
ghost use Rattle.heesch_grid.specs.declared.Cell.{Cell};
ghost use Rattle.heesch_grid.specs.Geometry.{Geometry};
ghost use Rattle.heesch_cert.specs.declared.limits.Limits.{Limits as Bounds};
ghost use Rattle.heesch_cert.specs.declared.entry.Layers.{Layers as Found};
ghost use Rattle.heesch_cert.specs.TrueEntry.{BareShows, FitsVerdict, first_number, last_number};
ghost use Rattle.heesch_verdict.specs.Ends.{EndsAt, OpenFits};

use heesch_cert::{Bare, Phase, Verdict, Wall};

/// The verdict where h hole-free coronas were found and the search for one more ended at the wall,
/// and that with holes allowed ended at level m.
pub fn verdict_of(h: u32, wall: &Wall, m: u32, bare: &Bare) -> Verdict
    ensures fits { (limits : Bounds) (wider : Option Found) → EndsAt limits h wall.now
        → OpenFits limits h m wall.now wider bare.now
        → FitsVerdict limits wall.now bare.now wider result }
    ensures first { first_number result ≡ h }
    ensures last { (g : Geometry) (limits : Bounds) (shape : List Cell)
        → BareShows g limits shape m bare.now
        → BareShows g limits shape (last_number result) bare.now }
{
    match bare {
        Bare::Absent => match wall {
            Wall::Absent => Verdict::Levels { h },
            Wall::Spent { .. } => Verdict::Turns {
                h,
                phase: Phase::Free,
                at: m,
            },
            // Behind a refutation there is always one of the ends below.
            Wall::Size | Wall::Refuted { .. } => Verdict::Size {
                h,
                phase: Phase::Free,
                at: m,
            },
        },
        Bare::Same | Bare::Refuted { .. } => Verdict::Heesch { h, m },
        Bare::Spent { .. } => Verdict::Turns {
            h,
            phase: Phase::Bare,
            at: m,
        },
        Bare::Size => Verdict::Size {
            h,
            phase: Phase::Bare,
            at: m,
        },
        Bare::Open => Verdict::Holes { h },
    }
}
