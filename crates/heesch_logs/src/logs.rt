//! The logs of proofs whose cuts are admitted, and whether they refute.
ghost use Rattle.std.specs.Prelude.{◌≡◌, ◌↔◌, ℕ, List, [], IsTrue, IfOk, MatchOption};
ghost use Rattle.heesch_cnf.specs.declared.literal.Lit.{Lit as Literal};
ghost use Rattle.heesch_cnf.specs.declared.log.Log.{Log as TheLog};
ghost use Rattle.heesch_cnf.specs.Lines.{Refutes};
ghost use Rattle.heesch_rup.specs.Answer.{IsLogAnswer};
ghost use Rattle.heesch_cert.specs.Proofs.{HasNoCut, log_of};
ghost use Rattle.heesch_place.specs.Universes.{IsUniverseOf};
ghost use Rattle.heesch_logs.specs.Admitted.{given_clause, IsAdmitted, IsAdmittedCut, IsAdmittedStep, IsLogOf};

use crate::near::are_near_cells;
use crate::proof_log::ProofLog;
use heesch_cert::{Cut, Proof, Step};
use heesch_cnf::{ClauseSource, Lits};
use heesch_cuts::{clause_of, lawful};
use heesch_grid::Grid;
use heesch_io::{NoMemory, Seq};
use heesch_place::Universe;
use heesch_rup::{LogAnswer, check_steps_in_turn};
use heesch_shape::Shape;
use std::alloc::Global;

/// Whether no step of the proof is a cut. It looks at each step once.
pub fn has_no_cut(proof: &Proof) -> bool
    ensures { IsTrue result ↔ HasNoCut proof.now }
{
    for step in proof.steps.as_slice() {
        if let Step::Cut { .. } = step {
            return false;
        }
    }
    true
}

/// Whether the cut is lawful, of a level up to this one, and its hole lies near 0.
fn is_admitted_cut<G: Grid>(
    alloc: Global,
    shape: &Shape<G>,
    universe: &Universe<G>,
    free_levels: u32,
    cut: &Cut,
) -> Result<bool, NoMemory>
    requires universe { IsUniverseOf G.geometry universe.now }
    requires shape { universe.now.shape ≡ shape.now }
    ensures { IfOk result (λ yes. IsTrue yes ↔ IsAdmittedCut G.geometry universe.now free_levels cut.now) }
{
    if cut.level > free_levels || !are_near_cells(cut.hole.as_slice()) {
        return Ok(false);
    }
    lawful(alloc, shape, universe, cut)
}

/// The clause that a step gives over the universe, where the step is admitted: a learnt step gives none, which takes
/// no memory.
fn admitted_clause<G: Grid>(
    alloc: Global,
    shape: &Shape<G>,
    universe: &Universe<G>,
    free_levels: u32,
    step: &Step,
) -> Result<Option<Lits>, NoMemory>
    requires universe { IsUniverseOf G.geometry universe.now }
    requires shape { universe.now.shape ≡ shape.now }
    ensures { let admitted = IsAdmittedStep G.geometry universe.now free_levels step.now in
        let given = given_clause universe.now.vars step.now in
        IfOk result (λ clause. MatchOption clause (¬ admitted) (λ c. admitted × (c ≡ given))) }
{
    match step {
        Step::Learn { .. } => Ok(Some(Seq::new(alloc))),
        Step::Cut { cut } => {
            if !is_admitted_cut(alloc, shape, universe, free_levels, cut)? {
                return Ok(None);
            }
            Ok(Some(clause_of(alloc, universe, cut)?))
        }
    }
}

/// The log of a proof without cuts, read where the proof stands, and None where there is a cut. It takes no memory.
pub fn learnt_log(alloc: Global, proof: &Proof) -> Option<ProofLog<'_>>
    ensures { MatchOption result (¬ HasNoCut proof.now) (λ l. HasNoCut proof.now × (l ≡ log_of [] proof.now)) }
{
    if !has_no_cut(proof) {
        return None;
    }
    Some(ProofLog {
        proof,
        given: Seq::new(alloc),
    })
}

/// The log of a proof over the universe, where its cuts are admitted: lawful, of levels up to `free_levels`, with
/// holes near 0; else None. The clauses of the cuts are made, and the learnt ones read where the proof stands. Without
/// cuts it takes no memory.
///
/// Condition: the universe is one of this shape. The proof may be any. The cost is that of `lawful` and `clause_of` for
/// each cut.
pub fn admitted_log<'a, G: Grid>(
    alloc: Global,
    shape: &Shape<G>,
    universe: &Universe<G>,
    free_levels: u32,
    proof: &'a Proof,
) -> Result<Option<ProofLog<'a>>, NoMemory>
    requires universe { IsUniverseOf G.geometry universe.now }
    requires shape { universe.now.shape ≡ shape.now }
    ensures { IfOk result (λ log. MatchOption log (¬ IsAdmitted G.geometry universe.now free_levels proof.now)
        (IsLogOf G.geometry universe.now free_levels proof.now)) }
{
    if let Some(log) = learnt_log(alloc, proof) {
        return Ok(Some(log));
    }
    let mut given = Seq::new(alloc);
    for step in proof.steps.as_slice() {
        let Some(clause) = admitted_clause(alloc, shape, universe, free_levels, step)? else {
            return Ok(None);
        };
        given.push(clause)?;
    }
    Ok(Some(ProofLog { proof, given }))
}

/// Whether the answer on a log is that it refutes.
fn is_refutation(answer: LogAnswer) -> bool
    ensures { (vars : ℕ) (clauses : List (List Literal)) (log : TheLog) → IsLogAnswer vars clauses log answer
        → IsTrue result ↔ Refutes vars clauses log }
{
    match answer {
        LogAnswer::Refuted => true,
        LogAnswer::Open => false,
        LogAnswer::BadLine { .. } => false,
    }
}

/// Whether the log refutes the clauses, wherever they stand. The cost is that of `check_steps_in_turn`, in the caller's
/// thread.
pub fn is_refuted<C: ClauseSource>(
    alloc: Global,
    formula: &C,
    log: &ProofLog<'_>,
) -> Result<bool, NoMemory>
    ensures { let f = C.listed formula.now in
        IfOk result (λ yes. IsTrue yes ↔ Refutes f.vars f.clauses log.now) }
{
    Ok(is_refutation(check_steps_in_turn(alloc, formula, log)?))
}
