//! The search for hole-free coronas, level by level.
ghost use Rattle.std.specs.Prelude.{IfOk};
ghost use Rattle.heesch_cert.specs.Limits.{AreLimits};
ghost use Rattle.heesch_verdict.specs.Shapes.{IsCanonicalShape};
ghost use Rattle.heesch_verdict.specs.Ends.{IsWalled};

use crate::subject::Subject;
use heesch_cert::{Layers, Wall};
use heesch_grid::Grid;
use heesch_io::{NoMemory, Seq};
use heesch_levels::WallAnswer;
use heesch_search::wall;
use std::alloc::Global;

/// The hole-free coronas that were found, h of them, and how the search for one more ended; and h + 1
/// coronas with holes allowed, where it ended with a refutation that has cuts.
#[derive(Drop)]
pub struct Walled {
    pub h: u32,
    pub free: Layers,
    pub wall: Wall,
    pub holed: Option<Layers>,
}

impl<'a, G: Grid> Subject<'a, G> {
    /// Hole-free coronas of level 1, 2 and so on up to the limit, until a search doesn't find them.
    pub fn hole_free(&self, alloc: Global) -> Result<Walled, NoMemory>
        requires shape { IsCanonicalShape G.geometry self.now.shape.now }
        requires limits { AreLimits self.now.limits }
        ensures { IfOk result (IsWalled G.geometry self.now.limits self.now.shape.now) }
    {
        let limits = self.limits;
        let mut free = Layers {
            layers: Seq::new(alloc),
        };
        for h in 0..limits.levels {
            let answer = wall(
                alloc,
                self.shape,
                h + 1,
                limits.turns,
                limits.size,
                limits.version,
            )?;
            let (wall, holed) = match answer {
                WallAnswer::Coronas { layers } => {
                    free = layers;
                    continue;
                }
                WallAnswer::Refuted { proof } => (Wall::Refuted { proof }, None),
                WallAnswer::Holed { proof, layers } => (Wall::Refuted { proof }, Some(layers)),
                WallAnswer::Spent { proof } => (Wall::Spent { proof }, None),
                WallAnswer::TooLarge => (Wall::Size, None),
            };
            return Ok(Walled {
                h,
                free,
                wall,
                holed,
            });
        }
        Ok(Walled {
            h: limits.levels,
            free,
            wall: Wall::Absent,
            holed: None,
        })
    }
}
