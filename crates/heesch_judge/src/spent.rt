//! Whether a log is spent and leaves clauses open, and a proof the formula.
ghost use Rattle.std.specs.Prelude.{◌≤◌, ◌↔◌, ℕ, IsTrue, IfOk};
ghost use Rattle.heesch_cnf.specs.declared.version.Version.TheVariants.{Two};
ghost use Rattle.heesch_grid.specs.Clauses.{formula_size};
ghost use Rattle.heesch_levels.specs.UpTo.{IsSpentUpTo};
ghost use Rattle.heesch_judge.specs.Closed.{IsSpentOpen};
ghost use Rattle.heesch_judge.specs.Judged.{IsSourceOf, IsSpentProof};

use crate::propagation::ends_open;
use heesch_cert::Proof;
use heesch_cnf::NewnessSource;
use heesch_grid::Grid;
use heesch_io::NoMemory;
use heesch_logs::admitted_log;
use heesch_numbers::CoronaSource;
use heesch_rup::{Steps, is_spent_in_turn};
use heesch_shape::Shape;
use std::alloc::Global;

/// Whether the log is spent for so many turns over the clauses, wherever they stand, and unit propagation over both
/// ends without a conflict: so no final line holds. The cost is that of `refutes_anew`, and that of `propagated`.
pub fn is_spent_open<N: NewnessSource, S: Steps>(
    alloc: Global,
    formula: &N,
    steps: &S,
    turns: u32,
) -> Result<bool, NoMemory>
    ensures { let f = N.listed formula.now in
        IfOk result (λ yes. IsTrue yes ↔ IsSpentOpen f.vars f.clauses turns (S.written steps.now)) }
{
    let spent = is_spent_in_turn(alloc, formula, steps, turns)?;
    if !spent {
        return Ok(false);
    }
    ends_open(alloc, formula, steps)
}

/// Whether the proof is a spent one that `heesch_levels::level_up_to` may answer for so many turns, with holes
/// forbidden at the levels 1 to `free_levels`: its cuts are lawful, of these levels, with holes within 100,000 of 0;
/// it has exactly so many lines, each of which holds and is new, and no final line; and no final line holds over them,
/// since unit propagation over the formula and the lines ends without a conflict.
///
/// Condition: the source is that of this shape. The proof may be any. The cost is that of `refutes_up_to`, and that of
/// `propagated` over the clauses of the formula, each of which is found by its number.
pub fn is_spent_up_to<G: Grid>(
    alloc: Global,
    shape: &Shape<G>,
    source: &CoronaSource<G>,
    free_levels: u32,
    turns: u32,
    proof: &Proof,
) -> Result<bool, NoMemory>
    requires source { IsSourceOf G.geometry shape.now source.now }
    ensures judged { IfOk result (λ yes. IsTrue yes
        ↔ IsSpentProof G.geometry source.now free_levels turns proof.now) }
    ensures spent { IfOk result (λ yes. IsTrue yes → (size : ℕ) → formula_size source.now.formula.clauses ≤ size
        → IsSpentUpTo Two G.geometry shape.now source.now.universe.level free_levels turns size proof.now) }
{
    let Some(log) = admitted_log(alloc, shape, source.universe(), free_levels, proof)? else {
        return Ok(false);
    };
    is_spent_open(alloc, source, &log, turns)
}
