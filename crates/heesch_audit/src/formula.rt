//! The corona formulas that proofs are checked over, by their levels.
ghost use Rattle.std.specs.Prelude.{◌≡◌, ◌≤◌, ◌↔◌, IsTrue, IfOk, IfSome};
ghost use Rattle.heesch_cert.specs.Limits.{AreLimits};
ghost use Rattle.heesch_cert.specs.Proofs.{IsTooLarge};
ghost use Rattle.heesch_cert.specs.TrueEntry.{WallShows};
ghost use Rattle.heesch_audit.specs.Ends.{EndsCoronas};
ghost use Rattle.heesch_audit.specs.Formulas.{IsLevelFormula};
ghost use Rattle.heesch_audit.specs.Near.{IsNearWall};
ghost use Rattle.heesch_audit.specs.Shapes.{IsCanonicalShape};
ghost use Rattle.heesch_logs.specs.Near.{IsNearProof};

use crate::corona_formula::CoronaFormula;
use crate::proof_end::ProofEnd;
use heesch_cert::{Limits, Proof, Wall};
use heesch_grid::Grid;
use heesch_io::NoMemory;
use heesch_logs::admitted_log;
use heesch_shape::Shape;
use std::alloc::Global;

/// The corona formula of a level, where it has no more literals than the limits allow.
#[derive(Drop)]
pub(crate) struct LevelFormula<F> {
    pub limits: Limits,
    pub level: u32,
    pub formula: Option<F>,
}

/// The formula of a level. It is the one at hand where that is of this level; else that one is let go before this is
/// made.
pub(crate) fn level_formula<G: Grid, F: CoronaFormula<G>>(
    alloc: Global,
    shape: &Shape<G>,
    limits: Limits,
    level: u32,
    at_hand: Option<LevelFormula<F>>,
) -> Result<LevelFormula<F>, NoMemory>
    requires shape { IsCanonicalShape G.geometry shape.now }
    requires limits { AreLimits limits }
    requires version { F.version ≡ limits.version }
    requires level { (1 ≤ level) × (level ≤ 6) }
    requires same { IfSome at_hand (λ f. f.limits ≡ limits) }
    requires at_hand { IfSome at_hand (λ f. IsLevelFormula F.seen G.geometry f.limits shape.now f.level f.formula) }
    ensures limits { IfOk result (λ f. f.limits ≡ limits) }
    ensures level { IfOk result (λ f. f.level ≡ level) }
    ensures formula { IfOk result (λ f. IsLevelFormula F.seen G.geometry limits shape.now level f.formula) }
{
    if let Some(formula) = at_hand {
        if formula.level == level {
            return Ok(formula);
        }
    }
    let formula = F::of_level(alloc, shape, level, limits.size)?;
    Ok(LevelFormula {
        limits,
        level,
        formula,
    })
}

impl<F> LevelFormula<F> {
    /// Whether the formula has more literals than the limits allow.
    pub(crate) fn is_too_large<G: Grid>(&self, shape: &Shape<G>) -> bool
    where
        F: CoronaFormula<G>,
        requires shape { IsCanonicalShape G.geometry shape.now }
        requires formula { IsLevelFormula F.seen G.geometry self.now.limits shape.now self.now.level self.now.formula }
        ensures { IsTrue result
            ↔ IsTooLarge self.now.limits.version G.geometry shape.now self.now.level self.now.limits.size }
    {
        // Reading the cells tells the proof that they are a polyform.
        let _cells = shape.cells();
        match &self.formula {
            None => true,
            Some(_) => false,
        }
    }

    /// Whether the proof refutes the formula, or is spent over it for the limit on turns, and its cuts are lawful.
    pub(crate) fn is_ended_by<G: Grid>(
        &self,
        alloc: Global,
        shape: &Shape<G>,
        end: ProofEnd,
        proof: &Proof,
    ) -> Result<bool, NoMemory>
    where
        F: CoronaFormula<G>,
        requires shape { IsCanonicalShape G.geometry shape.now }
        requires formula { IsLevelFormula F.seen G.geometry self.now.limits shape.now self.now.level self.now.formula }
        requires near { IsNearProof proof.now }
        ensures { IfOk result (λ yes. IsTrue yes
            ↔ EndsCoronas end G.geometry self.now.limits shape.now self.now.level proof.now) }
    {
        let Some(formula) = &self.formula else {
            return Ok(false);
        };
        let universe = formula.variables();
        let Some(log) = admitted_log(alloc, shape, universe, universe.level(), proof)? else {
            return Ok(false);
        };
        formula.is_ended(alloc, &log, end, self.limits.turns)
    }

    /// Whether the search for one corona more, which is over the formula, ended as is written.
    pub(crate) fn shows_wall<G: Grid>(
        &self,
        alloc: Global,
        shape: &Shape<G>,
        wall: &Wall,
    ) -> Result<bool, NoMemory>
    where
        F: CoronaFormula<G>,
        requires shape { IsCanonicalShape G.geometry shape.now }
        requires formula { IsLevelFormula F.seen G.geometry self.now.limits shape.now self.now.level self.now.formula }
        requires near { IsNearWall wall.now }
        ensures { IfOk result (λ yes. IsTrue yes
            ↔ WallShows G.geometry self.now.limits shape.now self.now.level wall.now) }
    {
        match wall {
            Wall::Absent => Ok(true),
            Wall::Refuted { proof } => self.is_ended_by(alloc, shape, ProofEnd::Refuted, proof),
            Wall::Spent { proof } => self.is_ended_by(alloc, shape, ProofEnd::Spent, proof),
            Wall::Size => Ok(self.is_too_large(shape)),
        }
    }
}
