//! The check of a log line after line in the caller's thread, for sources of clauses that need not be shared by
//! threads.
ghost use Rattle.std.specs.Prelude.{◌≡◌, ◌<◌, [], IsTrue, ◌↔◌, IfOk, MatchOption, ⊤, vec_len};
ghost use Rattle.heesch_cnf.specs.Literals.{held};
ghost use Rattle.heesch_cnf.specs.Lines.{IsSpent, LinesHold, LinesAreNew, clauses_of};
ghost use Rattle.heesch_rup.specs.Answer.{IsFirstBad, IsLogAnswer};
ghost use Rattle.heesch_rup.specs.Assigned.{all_open};

use crate::added::{add_formed, clauses_of};
use crate::assignment::Assignment;
use crate::check::{LogAnswer, final_answer, first_failing};
use crate::newness::are_new_in_turn;
use crate::steps::Steps;
use heesch_cnf::{ClauseSource, FlatFormula, NewnessSource};
use heesch_io::NoMemory;
use std::alloc::Global;

/// The least line, from 1, that doesn't hold, if there is one. Else the clauses of all lines stand in `added`. The
/// assignment is all open before and after.
fn bad_line_in_turn<C: ClauseSource, S: Steps>(
    assignment: &mut Assignment,
    formula: &C,
    added: &mut FlatFormula,
    steps: &S,
) -> Result<Option<usize>, NoMemory>
    requires room { (C.listed formula.now).vars < vec_len assignment.old.values }
    requires open { held assignment.old.values.items ≡ all_open }
    requires none { added.old ≡ record { vars = (C.listed formula.now).vars; clauses = [] } }
    ensures room { vec_len assignment.new.values ≡ vec_len assignment.old.values }
    ensures open { IfOk result (λ bad. held assignment.new.values.items ≡ all_open) }
    ensures added { let f = C.listed formula.now in let lines = (S.written steps.now).lines in
        IfOk result (λ bad. MatchOption bad (added.new ≡ record { vars = f.vars; clauses = clauses_of lines })
        (λ at. ⊤)) }
    ensures bad { let f = C.listed formula.now in let log = S.written steps.now in
        IfOk result (λ bad. MatchOption bad (LinesHold f.vars f.clauses log.lines)
        (λ at. IsFirstBad f.vars f.clauses log at)) }
{
    add_formed(added, steps)?;
    let formed = added.len();
    if let Some(at) = first_failing(assignment, formula, added, steps, 0, formed)? {
        return Ok(Some(at + 1));
    }
    if formed < steps.count() {
        return Ok(Some(formed + 1));
    }
    Ok(None)
}

/// What `check_steps` finds, in the caller's thread alone, and at the same cost.
pub fn check_steps_in_turn<C: ClauseSource, S: Steps>(
    alloc: Global,
    formula: &C,
    steps: &S,
) -> Result<LogAnswer, NoMemory>
    ensures { IfOk result
        (IsLogAnswer (C.listed formula.now).vars (C.listed formula.now).clauses (S.written steps.now)) }
{
    let vars = formula.vars();
    let mut assignment = Assignment::new(alloc, vars)?;
    let mut added = FlatFormula::new(alloc, vars);
    match bad_line_in_turn(&mut assignment, formula, &mut added, steps)? {
        Some(at) => Ok(LogAnswer::BadLine { at }),
        None => final_answer(&mut assignment, formula, &added, steps),
    }
}

/// The clauses of the lines, if there are just so many lines, each of which holds, and no final line. The log is spent
/// then where they are new, and else it isn't.
fn used_up_in_turn<C: ClauseSource, S: Steps>(
    alloc: Global,
    formula: &C,
    steps: &S,
    turns: u32,
) -> Result<Option<FlatFormula>, NoMemory>
    ensures added { let f = C.listed formula.now in
        IfOk result (λ used. MatchOption used ⊤
        (λ added. added ≡ record { vars = f.vars; clauses = clauses_of (S.written steps.now).lines })) }
    ensures lines { let f = C.listed formula.now in
        IfOk result (λ used. MatchOption used ⊤ (λ added. LinesHold f.vars f.clauses (S.written steps.now).lines)) }
    ensures spent { let f = C.listed formula.now in let log = S.written steps.now in
        IfOk result (λ used. MatchOption used (IsSpent f.vars f.clauses turns log → ⊥)
        (λ added. LinesAreNew f.clauses log.lines ↔ IsSpent f.vars f.clauses turns log)) }
{
    if steps.count() != turns as usize {
        return Ok(None);
    }
    let None = steps.last() else {
        return Ok(None);
    };
    let vars = formula.vars();
    let mut assignment = Assignment::new(alloc, vars)?;
    let mut added = FlatFormula::new(alloc, vars);
    match bad_line_in_turn(&mut assignment, formula, &mut added, steps)? {
        Some(_) => Ok(None),
        None => Ok(Some(added)),
    }
}

/// Whether the log is spent for so many turns over the clauses, wherever they and its lines stand, as `is_spent` tells
/// it, but in the caller's thread alone. It costs what `check_steps_in_turn` does, and for each line the question
/// whether it is new; the clauses of the lines are copied once.
pub fn is_spent_in_turn<N: NewnessSource, S: Steps>(
    alloc: Global,
    formula: &N,
    steps: &S,
    turns: u32,
) -> Result<bool, NoMemory>
    ensures { let f = N.listed formula.now in
        IfOk result (λ yes. IsTrue yes ↔ IsSpent f.vars f.clauses turns (S.written steps.now)) }
{
    let Some(added) = used_up_in_turn(alloc, formula, steps, turns)? else {
        return Ok(false);
    };
    are_new_in_turn(alloc, formula, &added, steps)
}

/// Whether no line contains an earlier clause, wherever the clauses and the lines stand, as `all_new_steps` tells it,
/// but in the caller's thread alone. It asks for each line whether it is new; the clauses of the lines are copied
/// once.
pub fn all_new_in_turn<N: NewnessSource, S: Steps>(
    alloc: Global,
    formula: &N,
    steps: &S,
) -> Result<bool, NoMemory>
    requires { let f = N.listed formula.now in LinesHold f.vars f.clauses (S.written steps.now).lines }
    ensures { IfOk result
        (λ yes. IsTrue yes ↔ LinesAreNew (N.listed formula.now).clauses (S.written steps.now).lines) }
{
    let added = clauses_of(alloc, formula.vars(), steps)?;
    are_new_in_turn(alloc, formula, &added, steps)
}
