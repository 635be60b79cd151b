//! The logged searches for covers, whose logs are the evidence of an undecided entry.
ghost use Rattle.std.specs.Prelude.{length, IfOk};
ghost use Rattle.heesch_torus.specs.Domain.{HasDomain};
ghost use Rattle.heesch_cert.specs.Limits.{AreLimits};
ghost use Rattle.heesch_verdict.specs.Shapes.{IsCanonicalShape};
ghost use Rattle.heesch_torus.specs.Domains.{AreUpTo};
ghost use Rattle.heesch_verdict.specs.Domains.{AreDomains, IsSettledFor, IsTripleEnd};

use crate::steps::proof_of;
use crate::subject::Subject;
use heesch_cert::{Tiling, TripleProof, Verdict};
use heesch_grid::Grid;
use heesch_io::{NoMemory, Seq};
use heesch_lattice::Triple;
use heesch_periods::search;
use heesch_torus::TorusAnswer;
use std::alloc::Global;

/// How the logged searches for covers ended.
#[derive(Drop)]
pub enum Settled {
    /// The first cover, which one of them found.
    Cover { tiling: Tiling },
    /// None was found: the triples, each with its refutation or its spent log.
    Triples { triples: Seq<TripleProof> },
}

impl<'a, G: Grid> Subject<'a, G> {
    /// A cover for the triple, or how the search for one ended stands last.
    fn settle(
        &self,
        alloc: Global,
        triple: Triple,
        settled: &mut Seq<TripleProof>,
    ) -> Result<Option<Tiling>, NoMemory>
        requires shape { IsCanonicalShape G.geometry self.now.shape.now }
        requires limits { AreLimits self.now.limits }
        requires domain { HasDomain G.geometry (length self.now.shape.now) triple }
        ensures { IfOk result
            (IsTripleEnd G.geometry self.now.shape.now self.now.limits.turns triple settled.old settled.new) }
    {
        let log = match search(alloc, self.shape, triple, self.limits.turns)? {
            TorusAnswer::Tiles { tiling } => return Ok(Some(tiling)),
            TorusAnswer::None { log } | TorusAnswer::Spent { log } => log,
        };
        settled.push(TripleProof {
            triple,
            proof: proof_of(alloc, log)?,
        })?;
        Ok(None)
    }

    /// The first cover of the domains whose triples these are, or all of them, settled. A triple whose
    /// search spent its turns is passed over.
    fn settle_all(&self, alloc: Global, triples: &[Triple]) -> Result<Settled, NoMemory>
        requires shape { IsCanonicalShape G.geometry self.now.shape.now }
        requires limits { AreLimits self.now.limits }
        requires triples { AreUpTo G.geometry (length self.now.shape.now) self.now.limits.domain triples.now }
        ensures { IfOk result (AreDomains G.geometry self.now.limits self.now.shape.now triples.now) }
    {
        let mut settled = Seq::new(alloc);
        for triple in triples {
            if let Some(tiling) = self.settle(alloc, *triple, &mut settled)? {
                return Ok(Settled::Cover { tiling });
            }
        }
        Ok(Settled::Triples { triples: settled })
    }

    /// The settled triples, where the verdict is undecided, or the first cover, if a logged search finds
    /// one. For any other verdict no search is made, and no triple is settled.
    pub fn settled_for(
        &self,
        alloc: Global,
        triples: &[Triple],
        verdict: Verdict,
    ) -> Result<Settled, NoMemory>
        requires shape { IsCanonicalShape G.geometry self.now.shape.now }
        requires limits { AreLimits self.now.limits }
        requires triples { AreUpTo G.geometry (length self.now.shape.now) self.now.limits.domain triples.now }
        ensures { IfOk result (IsSettledFor G.geometry self.now.limits self.now.shape.now verdict) }
    {
        match verdict {
            Verdict::Tiles { .. } | Verdict::Heesch { .. } => Ok(Settled::Triples {
                triples: Seq::new(alloc),
            }),
            _ => self.settle_all(alloc, triples),
        }
    }
}
