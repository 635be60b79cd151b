//! The search for coronas with holes allowed, after a refutation with holes forbidden.
ghost use Rattle.std.specs.Prelude.{◌≤◌, ◌+◌, false, IfOk};
ghost use Rattle.heesch_cert.specs.Limits.{AreLimits};
ghost use Rattle.heesch_verdict.specs.Shapes.{IsCanonicalShape};
ghost use Rattle.heesch_levels.specs.Answer.{SpellsCoronas};
ghost use Rattle.heesch_verdict.specs.Ends.{EndsAt, HoledBehind, IsOpenEnd, IsOpened};

use crate::subject::Subject;
use heesch_cert::{Bare, Layers, Wall};
use heesch_grid::Grid;
use heesch_io::NoMemory;
use heesch_levels::LevelAnswer;
use heesch_search::level;
use std::alloc::Global;

/// How the search with holes allowed ended at level m, and the m - 1 coronas that it found, where
/// they are more than the hole-free ones.
#[derive(Drop)]
pub struct Opened {
    pub m: u32,
    pub bare: Bare,
    pub wider: Option<Layers>,
}

impl<'a, G: Grid> Subject<'a, G> {
    /// Coronas with holes allowed of level h + 2, h + 3 and so on up to the limit, until a search
    /// doesn't find them. Those of level h + 1 are known.
    fn holes_allowed(&self, alloc: Global, h: u32, holed: Layers) -> Result<Opened, NoMemory>
        requires shape { IsCanonicalShape G.geometry self.now.shape.now }
        requires limits { AreLimits self.now.limits }
        requires below { h + 1 ≤ self.now.limits.levels }
        requires holed { SpellsCoronas G.geometry self.now.shape.now (h + 1) false holed }
        ensures { IfOk result (IsOpenEnd G.geometry self.now.limits self.now.shape.now h) }
    {
        let limits = self.limits;
        let mut wider = holed;
        for m in h + 2..limits.levels + 1 {
            let answer = level(
                alloc,
                self.shape,
                m,
                false,
                limits.turns,
                limits.size,
                limits.version,
            )?;
            let bare = match answer {
                LevelAnswer::Coronas { layers } => {
                    wider = layers;
                    continue;
                }
                LevelAnswer::Refuted { proof } => Bare::Refuted { proof },
                LevelAnswer::Spent { proof } => Bare::Spent { proof },
                LevelAnswer::TooLarge => Bare::Size,
            };
            return Ok(Opened {
                m,
                bare,
                wider: Some(wider),
            });
        }
        Ok(Opened {
            m: limits.levels,
            bare: Bare::Open,
            wider: Some(wider),
        })
    }

    /// What the search with holes allowed finds behind a wall, and behind the h + 1 coronas that one with
    /// cuts found. There is none to make where the wall isn't a refutation, or is one without cuts.
    pub fn open_behind(
        &self,
        alloc: Global,
        h: u32,
        wall: &Wall,
        holed: Option<Layers>,
    ) -> Result<Opened, NoMemory>
        requires shape { IsCanonicalShape G.geometry self.now.shape.now }
        requires limits { AreLimits self.now.limits }
        requires ends { EndsAt self.now.limits h wall.now }
        requires holed { HoledBehind G.geometry self.now.shape.now (h + 1) wall.now holed }
        ensures { IfOk result (IsOpened G.geometry self.now.limits self.now.shape.now h wall.now) }
    {
        if let Some(layers) = holed {
            return self.holes_allowed(alloc, h, layers);
        }
        let bare = match wall {
            Wall::Refuted { .. } => Bare::Same,
            _ => Bare::Absent,
        };
        Ok(Opened {
            m: h + 1,
            bare,
            wider: None,
        })
    }
}
