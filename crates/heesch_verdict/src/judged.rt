//! Verdicts with their evidence, put together from what was found.
ghost use Rattle.std.specs.Prelude.{length, IfOk};
ghost use Rattle.heesch_cert.specs.Limits.{AreLimits};
ghost use Rattle.heesch_cert.specs.TrueEntry.{HasNoPlain};
ghost use Rattle.heesch_torus.specs.Domains.{AreUpTo};
ghost use Rattle.heesch_verdict.specs.Judged.{IsJudged};
ghost use Rattle.heesch_verdict.specs.Shapes.{IsCanonicalShape};
ghost use Rattle.heesch_verdict.specs.Tilings.{IsFirstCover, IsTiled};

use crate::bare::Opened;
use crate::ends::verdict_of;
use crate::settled::Settled;
use crate::subject::Subject;
use crate::tiled::Tiled;
use crate::walled::Walled;
use heesch_cert::{Evidence, Kind, Tiling, Verdict};
use heesch_grid::Grid;
use heesch_io::NoMemory;
use heesch_lattice::Triple;
use heesch_orbit::classes;
use heesch_torus::triples_up_to;
use std::alloc::Global;

/// A verdict, and the evidence for it.
#[derive(Drop)]
pub struct Judged {
    pub verdict: Verdict,
    pub evidence: Evidence,
}

impl<'a, G: Grid> Subject<'a, G> {
    /// That the shape tiles.
    fn judge_tiled(&self, alloc: Global, tiled: Tiled) -> Result<Judged, NoMemory>
        requires shape { IsCanonicalShape G.geometry self.now.shape.now }
        requires limits { AreLimits self.now.limits }
        requires tiled { IsTiled G.geometry self.now.limits self.now.shape.now tiled }
        ensures { IfOk result (IsJudged G.geometry self.now.limits self.now.shape.now) }
    {
        let Tiled { kind, tiling } = tiled;
        let classes = classes(alloc, self.shape, &tiling)?;
        Ok(Judged {
            verdict: Verdict::Tiles {
                kind,
                domain: tiling.places.len() as u32,
                classes: classes.count,
            },
            evidence: Evidence::Cover { tiling, classes },
        })
    }

    /// That the shape tiles by a periodic cover, the first of its domains.
    fn judge_periodic(&self, alloc: Global, tiling: Tiling) -> Result<Judged, NoMemory>
        requires shape { IsCanonicalShape G.geometry self.now.shape.now }
        requires limits { AreLimits self.now.limits }
        requires no_plain { HasNoPlain G.geometry self.now.limits self.now.shape.now }
        requires first { IsFirstCover G.geometry self.now.limits self.now.shape.now tiling }
        ensures { IfOk result (IsJudged G.geometry self.now.limits self.now.shape.now) }
    {
        let kind = Kind::Periodic;
        self.judge_tiled(alloc, Tiled { kind, tiling })
    }

    /// The verdict of a shape for which no cover was found without a log. Hole-free coronas are sought,
    /// and behind a refutation that has cuts those with holes allowed; where they leave the verdict
    /// undecided, each of these triples is settled.
    fn judge_coronas(&self, alloc: Global, triples: &[Triple]) -> Result<Judged, NoMemory>
        requires shape { IsCanonicalShape G.geometry self.now.shape.now }
        requires limits { AreLimits self.now.limits }
        requires no_plain { HasNoPlain G.geometry self.now.limits self.now.shape.now }
        requires triples { AreUpTo G.geometry (length self.now.shape.now) self.now.limits.domain triples.now }
        ensures { IfOk result (IsJudged G.geometry self.now.limits self.now.shape.now) }
    {
        let Walled {
            h,
            free,
            wall,
            holed,
        } = self.hole_free(alloc)?;
        let Opened { m, bare, wider } = self.open_behind(alloc, h, &wall, holed)?;
        let verdict = verdict_of(h, &wall, m, &bare);
        let triples = match self.settled_for(alloc, triples, verdict)? {
            Settled::Cover { tiling } => return self.judge_periodic(alloc, tiling),
            Settled::Triples { triples } => triples,
        };
        let evidence = Evidence::Search {
            free,
            wall,
            bare,
            wider,
            triples,
        };
        Ok(Judged { verdict, evidence })
    }

    /// The verdict of the shape, with what shows it.
    pub fn judge(&self, alloc: Global) -> Result<Judged, NoMemory>
        requires shape { IsCanonicalShape G.geometry self.now.shape.now }
        requires limits { AreLimits self.now.limits }
        ensures { IfOk result (IsJudged G.geometry self.now.limits self.now.shape.now) }
    {
        if let Some(tiled) = self.plain_tiling(alloc)? {
            return self.judge_tiled(alloc, tiled);
        }
        let count = self.shape.cells().len() as u32;
        let triples = triples_up_to::<G>(alloc, count, self.limits.domain)?;
        match self.first_cover(alloc, triples.as_slice())? {
            Some(tiling) => self.judge_periodic(alloc, tiling),
            None => self.judge_coronas(alloc, triples.as_slice()),
        }
    }
}
