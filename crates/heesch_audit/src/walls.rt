//! Parts 6 to 8, the ends of the searches for coronas.
ghost use Rattle.std.specs.Prelude.{◌≡◌, ◌≤◌, ◌↔◌, IsTrue, IfOk, IfSome, MatchOption, length};
ghost use Rattle.heesch_cert.specs.Limits.{AreLimits};
ghost use Rattle.heesch_cert.specs.TrueEntry.{FormFits, SameWhereNoCut, BareShows};
ghost use Rattle.heesch_audit.specs.Formulas.{IsLevelFormula, AsksFormula};
ghost use Rattle.heesch_audit.specs.Near.{IsNearEvidence, IsNearBare};
ghost use Rattle.heesch_audit.specs.Shapes.{IsCanonicalShape};
ghost use Rattle.heesch_audit.specs.Walls.{IsSearchFailure};

use crate::audited::Audited;
use crate::corona_formula::CoronaFormula;
use crate::coronas::is_open;
use crate::formula::{LevelFormula, level_formula};
use crate::proof_end::ended_of;
use heesch_cert::{Bare, Evidence, Wall};
use heesch_cnf::Version;
use heesch_grid::Grid;
use heesch_io::NoMemory;
use heesch_logs::has_no_cut;
use heesch_numbers::CoronaSource;
use heesch_pairwise::PairwiseSource;
use heesch_shape::Shape;
use std::alloc::Global;

/// Whether both hold or neither.
fn agree(one: bool, other: bool) -> bool
    ensures { IsTrue result ↔ (IsTrue one ↔ IsTrue other) }
{
    one == other
}

/// Whether the refutation of the wall serves with holes allowed too.
fn is_same(bare: &Bare) -> bool
    ensures { IsTrue result ↔ (bare.now ≡ Bare.Same) }
{
    matches!(bare, Bare::Same)
}

/// Whether the search with holes allowed is the same as that with holes forbidden exactly where a refutation has no
/// cut.
fn fits_same(wall: &Wall, bare: &Bare) -> bool
    ensures { IsTrue result ↔ SameWhereNoCut wall.now bare.now }
{
    match wall {
        Wall::Refuted { proof } => agree(is_same(bare), has_no_cut(proof)),
        _ => true,
    }
}

/// Whether the search is one that a formula is needed for.
fn asks_formula(bare: &Bare) -> bool
    ensures { IsTrue result ↔ AsksFormula bare.now }
{
    match bare {
        Bare::Absent | Bare::Same | Bare::Open => false,
        Bare::Refuted { .. } | Bare::Spent { .. } | Bare::Size => true,
    }
}

/// Whether the search with holes allowed ended at level m as is written, its proofs have no cut, and it is the same as
/// that with holes forbidden exactly where a refutation has no cut. The formula of another level, or of m, is at hand.
fn bare_holds<G: Grid, F: CoronaFormula<G>>(
    alloc: Global,
    shape: &Shape<G>,
    at_hand: LevelFormula<F>,
    m: u32,
    wall: &Wall,
    bare: &Bare,
) -> Result<bool, NoMemory>
    requires shape { IsCanonicalShape G.geometry shape.now }
    requires limits { AreLimits at_hand.limits }
    requires version { F.version ≡ at_hand.limits.version }
    requires at_hand { IsLevelFormula F.seen G.geometry at_hand.limits shape.now at_hand.level at_hand.formula }
    requires level { AsksFormula bare.now → (1 ≤ m) × (m ≤ 6) }
    requires near { IsNearBare bare.now }
    ensures { IfOk result (λ yes. IsTrue yes
        ↔ (SameWhereNoCut wall.now bare.now × BareShows G.geometry at_hand.limits shape.now m bare.now)) }
{
    if !fits_same(wall, bare) {
        return Ok(false);
    }
    if !asks_formula(bare) {
        return Ok(true);
    }
    let limits = at_hand.limits;
    let formula = level_formula(alloc, shape, limits, m, Some(at_hand))?;
    let Some(ended) = ended_of(bare) else {
        return Ok(formula.is_too_large(shape));
    };
    if !has_no_cut(ended.proof) {
        return Ok(false);
    }
    formula.is_ended_by(alloc, shape, ended.end, ended.proof)
}

impl<'a, G: Grid> Audited<'a, G> {
    /// The first of the parts 6 to 8 that fails, as `failing_search` says, over the formulas of this version.
    fn failing_over<F: CoronaFormula<G>>(&self) -> Result<Option<u32>, NoMemory>
        requires shape { IsCanonicalShape G.geometry self.now.shape.now }
        requires limits { AreLimits self.now.limits }
        requires version { F.version ≡ self.now.limits.version }
        requires form { FormFits G.geometry self.now.limits self.now.shape.now
            self.now.entry.now.verdict self.now.entry.now.evidence }
        requires near { IsNearEvidence self.now.entry.now.evidence }
        ensures { IfOk result (IsSearchFailure G.geometry self.now.limits self.now.shape.now
            self.now.entry.now.verdict self.now.entry.now.evidence) }
    {
        let Evidence::Search {
            wall,
            bare,
            wider,
            ..
        } = &self.entry.evidence
        else {
            return Ok(None);
        };
        if let Wall::Absent = wall {
            return Ok(None);
        }
        let (alloc, shape, verdict) = (self.alloc, self.shape, self.entry.verdict);
        let level = verdict.first_number() + 1;
        let formula: LevelFormula<F> = level_formula(alloc, shape, self.limits, level, None)?;
        if !formula.shows_wall(alloc, shape, wall)? {
            return Ok(Some(6));
        }
        if !is_open(alloc, shape, wider)? {
            return Ok(Some(7));
        }
        if !bare_holds(alloc, shape, formula, verdict.last_number(), wall, bare)? {
            return Ok(Some(8));
        }
        Ok(None)
    }

    /// The first of the parts 6 to 8 that fails, the form being right: the wall, the open coronas, the search behind
    /// the wall. The formula of the wall serves for the search behind it, where they are of one level.
    pub(crate) fn failing_search(&self) -> Result<Option<u32>, NoMemory>
        requires shape { IsCanonicalShape G.geometry self.now.shape.now }
        requires limits { AreLimits self.now.limits }
        requires form { FormFits G.geometry self.now.limits self.now.shape.now
            self.now.entry.now.verdict self.now.entry.now.evidence }
        requires near { IsNearEvidence self.now.entry.now.evidence }
        ensures { IfOk result (IsSearchFailure G.geometry self.now.limits self.now.shape.now
            self.now.entry.now.verdict self.now.entry.now.evidence) }
    {
        match self.limits.version {
            Version::One => self.failing_over::<PairwiseSource<G>>(),
            Version::Two => self.failing_over::<CoronaSource<G>>(),
        }
    }
}
