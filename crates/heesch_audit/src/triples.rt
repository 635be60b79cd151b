//! Part 9, the triples of larger domains.
ghost use Rattle.std.specs.Prelude.{◌≡◌, ◌<◌, ◌↔◌, map, length, All, IsTrue, IfOk};
ghost use Rattle.heesch_torus.specs.Domain.{HasDomain};
ghost use Rattle.heesch_cert.specs.declared.entry.TripleProof.{TripleProof as Written};
ghost use Rattle.heesch_cert.specs.Limits.{AreLimits};
ghost use Rattle.heesch_cert.specs.Proofs.{SettlesTriple};
ghost use Rattle.heesch_cert.specs.TrueEntry.{IsUndecided, TriplesHold};
ghost use Rattle.heesch_audit.specs.Portions.{triples_of, AreProved, AreTriplesAsked};
ghost use Rattle.heesch_audit.specs.Shapes.{IsCanonicalShape};

use crate::audited::Audited;
use crate::logs::{end_of, is_ended};
use heesch_cert::{Evidence, TripleProof, Verdict};
use heesch_grid::Grid;
use heesch_io::NoMemory;
use heesch_lattice::Triple;
use heesch_logs::learnt_log;
use heesch_tori::TorusSource;
use heesch_torus::triples_up_to;

/// Whether the verdict leaves open whether the shape tiles.
fn is_undecided(verdict: Verdict) -> bool
    ensures { IsTrue result ↔ IsUndecided verdict }
{
    match verdict {
        Verdict::Tiles { .. } | Verdict::Heesch { .. } => false,
        Verdict::Levels { .. }
        | Verdict::Holes { .. }
        | Verdict::Turns { .. }
        | Verdict::Size { .. } => true,
    }
}

/// Whether these are the triples that proofs are written of, one after the other.
fn are_triples_of(written: &[TripleProof], all: &[Triple]) -> bool
    ensures { IsTrue result ↔ (map (λ (x : Written). x.triple) written.now ≡ all.now) }
{
    if written.len() != all.len() {
        return false;
    }
    for i in 0..all.len() {
        if written[i].triple != all[i] {
            return false;
        }
    }
    true
}

/// The triples whose proofs the evidence has.
pub(crate) fn triples_of(evidence: &Evidence) -> &[TripleProof]
    ensures { result.now ≡ triples_of evidence.now }
{
    match evidence {
        Evidence::Cover { .. } => &[],
        Evidence::Search { triples, .. } => triples.as_slice(),
    }
}

impl<'a, G: Grid> Audited<'a, G> {
    /// Whether the proof has no cut, and refutes the torus formula of its triple or is spent for the limit on turns
    /// over it.
    fn is_settled(&self, written: &TripleProof) -> Result<bool, NoMemory>
        requires shape { IsCanonicalShape G.geometry self.now.shape.now }
        requires domain { HasDomain G.geometry (length self.now.shape.now) written.now.triple }
        ensures { IfOk result
            (λ yes. IsTrue yes ↔ SettlesTriple G.geometry self.now.shape.now self.now.limits.turns written.now.triple
            written.now.proof) }
    {
        let Some(log) = learnt_log(self.alloc, &written.proof) else {
            return Ok(false);
        };
        let source = TorusSource::of(self.alloc, self.shape, written.triple)?;
        is_ended(self.alloc, &source, &log, end_of(&log), self.limits.turns)
    }

    /// Whether the proof of each so many-th of these triples, from the portion's first on, settles it.
    pub(crate) fn are_proved(
        &self,
        written: &[TripleProof],
        portion: u32,
        portions: u32,
    ) -> Result<bool, NoMemory>
        requires shape { IsCanonicalShape G.geometry self.now.shape.now }
        requires domains { All
            (λ (x : Written). HasDomain G.geometry (length self.now.shape.now) x.triple) written.now }
        requires portion { portion < portions }
        ensures { IfOk result
            (λ yes. IsTrue yes ↔ AreProved G.geometry self.now.shape.now self.now.limits.turns written.now portion
            portions) }
    {
        let mut at = portion as usize;
        while at < written.len() {
            if !self.is_settled(&written[at])? {
                return Ok(false);
            }
            at += portions as usize;
        }
        Ok(true)
    }

    /// Whether for an undecided verdict all triples of the domains from 2 to the limit are written, in order, and for
    /// any other none.
    pub(crate) fn are_asked(&self) -> Result<bool, NoMemory>
        requires shape { IsCanonicalShape G.geometry self.now.shape.now }
        requires limits { AreLimits self.now.limits }
        ensures { IfOk result
            (λ yes. IsTrue yes ↔ AreTriplesAsked G.geometry self.now.limits self.now.shape.now
            self.now.entry.now.verdict self.now.entry.now.evidence) }
    {
        let Evidence::Search {
            triples: written,
            ..
        } = &self.entry.evidence
        else {
            return Ok(true);
        };
        if !is_undecided(self.entry.verdict) {
            return Ok(written.is_empty());
        }
        let count = self.shape.cells().len() as u32;
        let all = triples_up_to::<G>(self.alloc, count, self.limits.domain)?;
        Ok(are_triples_of(written.as_slice(), all.as_slice()))
    }

    /// Whether the triples are those that are asked for, each settled.
    pub(crate) fn triples_hold(&self) -> Result<bool, NoMemory>
        requires shape { IsCanonicalShape G.geometry self.now.shape.now }
        requires limits { AreLimits self.now.limits }
        ensures { IfOk result
            (λ yes. IsTrue yes ↔ TriplesHold G.geometry self.now.limits self.now.shape.now self.now.entry.now.verdict
            self.now.entry.now.evidence) }
    {
        if !self.are_asked()? {
            return Ok(false);
        }
        let written = triples_of(&self.entry.evidence);
        self.are_proved(written, 0, 1)
    }
}
