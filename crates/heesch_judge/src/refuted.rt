//! Whether a log refutes clauses by new lines, and a proof the formula.
ghost use Rattle.std.specs.Prelude.{◌≤◌, ◌↔◌, ℕ, IsTrue, IfOk};
ghost use Rattle.heesch_cnf.specs.declared.version.Version.TheVariants.{Two};
ghost use Rattle.heesch_grid.specs.Clauses.{formula_size};
ghost use Rattle.heesch_levels.specs.UpTo.{RefutesUpTo};
ghost use Rattle.heesch_judge.specs.Closed.{RefutesAnew};
ghost use Rattle.heesch_judge.specs.Judged.{IsRefutation, IsSourceOf};

use heesch_cert::Proof;
use heesch_cnf::NewnessSource;
use heesch_grid::Grid;
use heesch_io::NoMemory;
use heesch_logs::admitted_log;
use heesch_numbers::CoronaSource;
use heesch_rup::{LogAnswer, Steps, all_new_in_turn, check_steps_in_turn};
use heesch_shape::Shape;
use std::alloc::Global;

/// Whether the log refutes the clauses, wherever they stand, and each of its lines is new. The cost is a look at each
/// hinted clause, and for each line the question whether it is new; the clauses of the lines are copied twice, one copy
/// after the other.
pub fn refutes_anew<N: NewnessSource, S: Steps>(
    alloc: Global,
    formula: &N,
    steps: &S,
) -> Result<bool, NoMemory>
    ensures { let f = N.listed formula.now in
        IfOk result (λ yes. IsTrue yes ↔ RefutesAnew f.vars f.clauses (S.written steps.now)) }
{
    match check_steps_in_turn(alloc, formula, steps)? {
        LogAnswer::Refuted => all_new_in_turn(alloc, formula, steps),
        LogAnswer::Open => Ok(false),
        LogAnswer::BadLine { .. } => Ok(false),
    }
}

/// Whether the proof is a refutation that `heesch_levels::level_up_to` may answer, with holes forbidden at the levels
/// 1 to `free_levels`: its cuts are lawful, of these levels, with holes within 100,000 of 0; each line holds and is
/// new; and the final line is there and holds.
///
/// Condition: the source is that of this shape. The proof may be any. The cost is that of `refutes_anew`, and that of
/// `lawful` and `clause_of` for each cut.
pub fn refutes_up_to<G: Grid>(
    alloc: Global,
    shape: &Shape<G>,
    source: &CoronaSource<G>,
    free_levels: u32,
    proof: &Proof,
) -> Result<bool, NoMemory>
    requires source { IsSourceOf G.geometry shape.now source.now }
    ensures judged { IfOk result (λ yes. IsTrue yes ↔ IsRefutation G.geometry source.now free_levels proof.now) }
    ensures refutes { IfOk result (λ yes. IsTrue yes → (size : ℕ) → formula_size source.now.formula.clauses ≤ size
        → RefutesUpTo Two G.geometry shape.now source.now.universe.level free_levels size proof.now) }
{
    let Some(log) = admitted_log(alloc, shape, source.universe(), free_levels, proof)? else {
        return Ok(false);
    };
    refutes_anew(alloc, source, &log)
}
