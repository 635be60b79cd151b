//! Whether a proof ends a search for coronas.
ghost use Rattle.std.specs.Prelude.{◌≡◌, ◌≤◌, ◌↔◌, IsTrue, IfOk};
ghost use Rattle.heesch_cert.specs.Limits.{AreLimits};
ghost use Rattle.heesch_audit.specs.Ends.{EndsCoronas};
ghost use Rattle.heesch_audit.specs.Shapes.{IsCanonicalShape};
ghost use Rattle.heesch_logs.specs.Near.{IsNearProof};

use crate::corona_formula::CoronaFormula;
use crate::formula::{LevelFormula, level_formula};
use crate::proof_end::ProofEnd;
use heesch_cert::{Limits, Proof};
use heesch_cnf::Version;
use heesch_grid::Grid;
use heesch_io::NoMemory;
use heesch_numbers::CoronaSource;
use heesch_pairwise::PairwiseSource;
use heesch_shape::Shape;
use std::alloc::Global;

/// The answer of `ends_coronas`, over the formulas of this version.
fn ends_over<G: Grid, F: CoronaFormula<G>>(
    alloc: Global,
    shape: &Shape<G>,
    limits: Limits,
    level: u32,
    end: ProofEnd,
    proof: &Proof,
) -> Result<bool, NoMemory>
    requires shape { IsCanonicalShape G.geometry shape.now }
    requires limits { AreLimits limits }
    requires version { F.version ≡ limits.version }
    requires level { (1 ≤ level) × (level ≤ 6) }
    requires near { IsNearProof proof.now }
    ensures { IfOk result (λ yes. IsTrue yes ↔ EndsCoronas end G.geometry limits shape.now level proof.now) }
{
    let formula: LevelFormula<F> = level_formula(alloc, shape, limits, level, None)?;
    formula.is_ended_by(alloc, shape, end, proof)
}

/// Whether the proof, whose cuts have to be lawful, refutes the corona formula of the level in the limits' version, or
/// is spent over it for their turns, as asked. Where the formula has more literals than the limits allow, no proof
/// does.
///
/// Condition: the shape is its own canonical list, the limits lie in their ranges, the level is 1 to 6, and the cells
/// of the cuts' holes lie within 100,000 of 0. Levels, borders, clauses and hints of the proof may be any.
///
/// What the clauses are computed from is made once, and a proof costs what it does in `audit`.
pub fn ends_coronas<G: Grid>(
    alloc: Global,
    shape: &Shape<G>,
    limits: Limits,
    level: u32,
    end: ProofEnd,
    proof: &Proof,
) -> Result<bool, NoMemory>
    requires shape { IsCanonicalShape G.geometry shape.now }
    requires limits { AreLimits limits }
    requires level { (1 ≤ level) × (level ≤ 6) }
    requires near { IsNearProof proof.now }
    ensures { IfOk result (λ yes. IsTrue yes ↔ EndsCoronas end G.geometry limits shape.now level proof.now) }
{
    match limits.version {
        Version::One => {
            ends_over::<G, PairwiseSource<G>>(alloc, shape, limits, level, end, proof)
        }
        Version::Two => ends_over::<G, CoronaSource<G>>(alloc, shape, limits, level, end, proof),
    }
}
