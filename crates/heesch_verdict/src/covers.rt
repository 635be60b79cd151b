//! The search for the first periodic cover, which keeps no log.
ghost use Rattle.std.specs.Prelude.{◌∷◌, ◌++◌, List, length, All, IfOk};
ghost use Rattle.heesch_grid.specs.Lattice.{Triple as Lattice};
ghost use Rattle.heesch_torus.specs.Domain.{HasDomain};
ghost use Rattle.heesch_cert.specs.Limits.{AreLimits};
ghost use Rattle.heesch_verdict.specs.Shapes.{IsCanonicalShape};
ghost use Rattle.heesch_torus.specs.Domains.{AreUpTo};
ghost use Rattle.heesch_verdict.specs.Domains.{AreLeftOpen, IsFirstFound, IsFirstOf};
ghost use Rattle.heesch_verdict.specs.Tilings.{IsCoverOf};

use crate::alike::is_alike;
use crate::subject::Subject;
use heesch_cert::Tiling;
use heesch_grid::Grid;
use heesch_io::NoMemory;
use heesch_lattice::Triple;
use heesch_periods::search;
use heesch_torus::{CoverAnswer, TorusAnswer, find_cover};
use std::alloc::Global;

/// How many nodes the search without a log may visit for one triple, before it leaves it open.
const NODES: u32 = 1_000_000;

impl<'a, G: Grid> Subject<'a, G> {
    /// The cover of the first of these open triples for which the logged search finds one; else the one
    /// that was found for a triple behind them.
    fn earliest(&self, alloc: Global, left: &[Triple], found: Tiling) -> Result<Tiling, NoMemory>
        requires shape { IsCanonicalShape G.geometry self.now.shape.now }
        requires limits { AreLimits self.now.limits }
        requires domains { All (HasDomain G.geometry (length self.now.shape.now)) left.now }
        requires found { IsCoverOf G.geometry self.now.shape.now found }
        ensures { IfOk result (λ tiling. (before after : List Lattice)
            → AreLeftOpen G.geometry self.now.shape.now before left.now
            → IsFirstOf G.geometry self.now.shape.now self.now.limits.turns (before ++ found.triple ∷ after) tiling) }
    {
        for triple in left {
            let answer = search(alloc, self.shape, *triple, self.limits.turns)?;
            if let TorusAnswer::Tiles { tiling } = answer {
                return Ok(tiling);
            }
        }
        Ok(found)
    }

    /// The first cover of the domains whose triples these are, where the search without a log finds one.
    /// The triples before it that this search leaves open are settled by the logged one. Of triples whose
    /// lattices a turn carries to each other, one is searched: where it has no cover, neither have the others.
    pub fn first_cover(&self, alloc: Global, triples: &[Triple]) -> Result<Option<Tiling>, NoMemory>
        requires shape { IsCanonicalShape G.geometry self.now.shape.now }
        requires limits { AreLimits self.now.limits }
        requires triples { AreUpTo G.geometry (length self.now.shape.now) self.now.limits.domain triples.now }
        ensures { IfOk result (IsFirstFound G.geometry self.now.limits self.now.shape.now 1000000 triples.now) }
    {
        let mut left = Vec::new(alloc);
        let mut uncovered = Vec::new(alloc);
        for triple in triples {
            if is_alike::<G>(*triple, &uncovered) {
                continue;
            }
            match find_cover(alloc, self.shape, *triple, NODES)? {
                CoverAnswer::Tiles { tiling } => {
                    let tiling = self.earliest(alloc, left.as_slice(), tiling)?;
                    return Ok(Some(tiling));
                }
                CoverAnswer::None => uncovered.push(*triple)?,
                CoverAnswer::Open => left.push(*triple)?,
            }
        }
        Ok(None)
    }
}
