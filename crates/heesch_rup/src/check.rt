//! Whether the lines of a log hold, one after the other.
ghost use Rattle.std.specs.Prelude.{◌≡◌, ◌≢◌, ◌<◌, ◌≤◌, ◌+◌, ◌*◌, ◌++◌, [], IsTrue, ◌↔◌, IfOk, MatchOption, ⊤, length};
ghost use Rattle.std.specs.Prelude.{min, take, vec_len};
ghost use Rattle.std.specs.Option.{option_copied};
ghost use Rattle.heesch_cnf.specs.declared.log.Line.{Line};
ghost use Rattle.heesch_cnf.specs.Literals.{held};
ghost use Rattle.heesch_cnf.specs.Clauses.{AreClauses, IsClause};
ghost use Rattle.heesch_cnf.specs.Lines.{clause_of, clauses_of, IsShown, LineHolds, LinesHold};
ghost use Rattle.heesch_rup.specs.Answer.{AddsFirst, IsFirstBad, IsFirstFailing, IsLogAnswer};
ghost use Rattle.heesch_rup.specs.Assigned.{all_open};
ghost use Rattle.heesch_rup.specs.Hints.{hints_of};

use crate::added::add_formed;
use crate::assignment::Assignment;
use crate::chunks::{CHUNK, LEAST_SPLIT, by_chunks};
use crate::hints::{reaches_conflict, refute};
use crate::numbers::are_numbers;
use crate::steps::Steps;
use heesch_cnf::{ClauseSource, FlatFormula, Formula, Lit, Log, is_clause};
use heesch_io::NoMemory;
use std::alloc::Global;
use std::thread::Threads;

/// What the check of a log found.
#[derive(Debug, Clone, Copy, PartialEq, Eq)]
pub enum LogAnswer {
    /// All lines hold, and the final line is there and holds.
    Refuted,
    /// All lines hold, and there is no final line.
    Open,
    /// The least line, from 1, that doesn't hold. The final line counts after the others.
    BadLine { at: usize },
}

/// Whether the hints show that the clause follows from the first clauses, so many, of the formula and of what lines
/// added. The assignment is all open before and after.
fn is_shown<C: ClauseSource>(
    assignment: &mut Assignment,
    formula: &C,
    added: &FlatFormula,
    count: usize,
    clause: &[Lit],
    hints: &[u32],
) -> Result<bool, NoMemory>
    requires room { (C.listed formula.now).vars < vec_len assignment.old.values }
    requires open { held assignment.old.values.items ≡ all_open }
    requires clauses { AreClauses (C.listed formula.now).vars ((C.listed formula.now).clauses ++ added.now.clauses) }
    requires count { count ≤ length ((C.listed formula.now).clauses ++ added.now.clauses) }
    requires form { IsClause (C.listed formula.now).vars clause.now }
    ensures room { vec_len assignment.new.values ≡ vec_len assignment.old.values }
    ensures open { IfOk result (λ yes. held assignment.new.values.items ≡ all_open) }
    ensures shown { let clauses = take count ((C.listed formula.now).clauses ++ added.now.clauses) in
        IfOk result (λ yes. IsTrue yes ↔ IsShown clauses clause.now hints.now) }
{
    if !are_numbers(count, hints) {
        return Ok(false);
    }
    refute(assignment, clause)?;
    let shown = reaches_conflict(assignment, formula, added, hints)?;
    assignment.reset();
    Ok(shown)
}

fn is_learnable(vars: u32, clause: &[Lit]) -> bool
    ensures { IsTrue result ↔ (clause.now ≢ []) × IsClause vars clause.now }
{
    if clause.is_empty() {
        return false;
    }
    is_clause(vars, clause)
}

/// Whether a line holds, before which so many clauses stand: a learnt one by its hints, a given one where there are
/// none.
fn line_holds<C: ClauseSource>(
    assignment: &mut Assignment,
    formula: &C,
    added: &FlatFormula,
    count: usize,
    clause: &[Lit],
    hints: Option<&[u32]>,
) -> Result<bool, NoMemory>
    requires room { (C.listed formula.now).vars < vec_len assignment.old.values }
    requires open { held assignment.old.values.items ≡ all_open }
    requires clauses { AreClauses (C.listed formula.now).vars ((C.listed formula.now).clauses ++ added.now.clauses) }
    requires count { count ≤ length ((C.listed formula.now).clauses ++ added.now.clauses) }
    ensures room { vec_len assignment.new.values ≡ vec_len assignment.old.values }
    ensures open { IfOk result (λ yes. held assignment.new.values.items ≡ all_open) }
    ensures holds { let clauses = take count ((C.listed formula.now).clauses ++ added.now.clauses) in
        IfOk result (λ yes. (line : Line) → clause.now ≡ clause_of line → option_copied hints.entry ≡ hints_of line
        → IsTrue yes ↔ LineHolds (C.listed formula.now).vars clauses line) }
{
    let Some(hints) = hints else {
        return Ok(is_clause(formula.vars(), clause));
    };
    if !is_learnable(formula.vars(), clause) {
        return Ok(false);
    }
    is_shown(assignment, formula, added, count, clause, hints)
}

/// The first line from one to before another, counted from 0, that doesn't hold, if there is one. The clauses of all
/// these lines stand in `added`. The assignment is all open before and after.
pub fn first_failing<C: ClauseSource, S: Steps>(
    assignment: &mut Assignment,
    formula: &C,
    added: &FlatFormula,
    steps: &S,
    from: usize,
    until: usize,
) -> Result<Option<usize>, NoMemory>
    requires room { (C.listed formula.now).vars < vec_len assignment.old.values }
    requires open { held assignment.old.values.items ≡ all_open }
    requires added { AddsFirst (C.listed formula.now).vars (S.written steps.now).lines added.now }
    requires until { until ≤ length added.now.clauses }
    ensures room { vec_len assignment.new.values ≡ vec_len assignment.old.values }
    ensures open { IfOk result (λ failing. held assignment.new.values.items ≡ all_open) }
    ensures first { IfOk result
        (IsFirstFailing (C.listed formula.now).vars (C.listed formula.now).clauses
        (S.written steps.now).lines from until) }
{
    // Reading these numbers tells the proof that the clauses are over the variables, and how few they are.
    let (_vars, _same, _few) = (formula.vars(), added.vars(), added.len());
    let count = formula.count();
    for i in from..until {
        if !line_holds(
            assignment,
            formula,
            added,
            count + i,
            steps.clause(i),
            steps.hints(i),
        )? {
            return Ok(Some(i));
        }
    }
    Ok(None)
}

/// `first_failing` of one chunk of the lines, under an assignment of its own.
fn first_failing_of<C: ClauseSource, S: Steps>(
    alloc: Global,
    formula: &C,
    added: &FlatFormula,
    steps: &S,
    chunk: usize,
) -> Result<Option<usize>, NoMemory>
    requires added { AddsFirst (C.listed formula.now).vars (S.written steps.now).lines added.now }
    requires chunk { chunk * 1024 < length added.now.clauses }
    ensures { IfOk result
        (IsFirstFailing (C.listed formula.now).vars (C.listed formula.now).clauses (S.written steps.now).lines
        (chunk * 1024) (min (chunk * 1024 + 1024) (length added.now.clauses))) }
{
    let count = added.len();
    let from = chunk * CHUNK;
    let until = (from + CHUNK).min(count);
    let mut assignment = Assignment::new(alloc, formula.vars())?;
    first_failing(&mut assignment, formula, added, steps, from, until)
}

/// `first_failing` of all lines whose clauses stand in `added`, by chunks, in as many threads as there are processors.
fn first_failing_in_chunks<R: Threads + Sync, C: ClauseSource + Sync, S: Steps + Sync>(
    rt: &R,
    alloc: Global,
    formula: &C,
    added: &FlatFormula,
    steps: &S,
) -> Result<Option<usize>, NoMemory>
    requires added { AddsFirst (C.listed formula.now).vars (S.written steps.now).lines added.now }
    ensures { IfOk result
        (IsFirstFailing (C.listed formula.now).vars (C.listed formula.now).clauses (S.written steps.now).lines 0
        (length added.now.clauses)) }
{
    let found = by_chunks(
        rt,
        alloc,
        added.len(),
        move |chunk: usize| -> Result<Option<usize>, NoMemory>
            requires { AddsFirst (C.listed formula.now).vars (S.written steps.now).lines added.now
                × (chunk * 1024 < length added.now.clauses) }
            ensures { IfOk result
                (IsFirstFailing (C.listed formula.entry.now).vars (C.listed formula.entry.now).clauses
                (S.written steps.entry.now).lines (chunk * 1024)
                (min (chunk * 1024 + 1024) (length added.entry.now.clauses))) }
        { first_failing_of(alloc, formula, added, steps, chunk) },
    )?;
    for answer in found.iter() {
        let Ok(failing) = answer else {
            return Err(NoMemory);
        };
        if let Some(at) = failing {
            return Ok(Some(*at));
        }
    }
    Ok(None)
}

/// `first_failing` of all lines whose clauses stand in `added`: of `LEAST_SPLIT` or more by chunks, and of fewer in
/// one piece, in the caller's thread.
fn first_failing_line<R: Threads + Sync, C: ClauseSource + Sync, S: Steps + Sync>(
    rt: &R,
    alloc: Global,
    assignment: &mut Assignment,
    formula: &C,
    added: &FlatFormula,
    steps: &S,
) -> Result<Option<usize>, NoMemory>
    requires room { (C.listed formula.now).vars < vec_len assignment.old.values }
    requires open { held assignment.old.values.items ≡ all_open }
    requires added { AddsFirst (C.listed formula.now).vars (S.written steps.now).lines added.now }
    ensures room { vec_len assignment.new.values ≡ vec_len assignment.old.values }
    ensures open { IfOk result (λ failing. held assignment.new.values.items ≡ all_open) }
    ensures first { IfOk result
        (IsFirstFailing (C.listed formula.now).vars (C.listed formula.now).clauses (S.written steps.now).lines 0
        (length added.now.clauses)) }
{
    let count = added.len();
    if count < LEAST_SPLIT {
        return first_failing(assignment, formula, added, steps, 0, count);
    }
    first_failing_in_chunks(rt, alloc, formula, added, steps)
}

/// The least line, from 1, that doesn't hold, if there is one. Else the clauses of all lines stand in `added`. The
/// assignment is all open before and after.
pub fn bad_line<R: Threads + Sync, C: ClauseSource + Sync, S: Steps + Sync>(
    rt: &R,
    alloc: Global,
    assignment: &mut Assignment,
    formula: &C,
    added: &mut FlatFormula,
    steps: &S,
) -> Result<Option<usize>, NoMemory>
    requires room { (C.listed formula.now).vars < vec_len assignment.old.values }
    requires open { held assignment.old.values.items ≡ all_open }
    requires none { added.old ≡ record { vars = (C.listed formula.now).vars; clauses = [] } }
    ensures room { vec_len assignment.new.values ≡ vec_len assignment.old.values }
    ensures open { IfOk result (λ bad. held assignment.new.values.items ≡ all_open) }
    ensures added { IfOk result
        (λ bad. MatchOption bad
        (added.new ≡ record { vars = (C.listed formula.now).vars; clauses = clauses_of (S.written steps.now).lines })
        (λ at. ⊤)) }
    ensures bad { IfOk result
        (λ bad. MatchOption bad
        (LinesHold (C.listed formula.now).vars (C.listed formula.now).clauses (S.written steps.now).lines)
        (λ at. IsFirstBad (C.listed formula.now).vars (C.listed formula.now).clauses (S.written steps.now) at)) }
{
    add_formed(added, steps)?;
    let formed = added.len();
    if let Some(at) = first_failing_line(rt, alloc, assignment, formula, added, steps)? {
        return Ok(Some(at + 1));
    }
    if formed < steps.count() {
        return Ok(Some(formed + 1));
    }
    Ok(None)
}

/// The answer where all lines hold, by the final line.
pub fn final_answer<C: ClauseSource, S: Steps>(
    assignment: &mut Assignment,
    formula: &C,
    added: &FlatFormula,
    steps: &S,
) -> Result<LogAnswer, NoMemory>
    requires room { (C.listed formula.now).vars < vec_len assignment.old.values }
    requires open { held assignment.old.values.items ≡ all_open }
    requires lines { LinesHold (C.listed formula.now).vars (C.listed formula.now).clauses (S.written steps.now).lines }
    requires added { added.now
        ≡ record { vars = (C.listed formula.now).vars; clauses = clauses_of (S.written steps.now).lines } }
    ensures { IfOk result
        (IsLogAnswer (C.listed formula.now).vars (C.listed formula.now).clauses (S.written steps.now)) }
{
    // Reading the number of the variables tells the proof that the clauses are over them.
    let _vars = formula.vars();
    let Some(hints) = steps.last() else {
        return Ok(LogAnswer::Open);
    };
    let count = formula.count() + added.len();
    if is_shown(assignment, formula, added, count, &[], hints)? {
        Ok(LogAnswer::Refuted)
    } else {
        Ok(LogAnswer::BadLine {
            at: added.len() + 1,
        })
    }
}

/// What the check of a log over the formula finds, wherever its lines stand: the least line, from 1, that doesn't
/// hold, where there is one; the final line counts after the others. A Learn line costs as many steps as its clause
/// and its hinted clauses have literals, a Given line as many as its clause has. The clauses of the lines are copied
/// into one array.
pub fn check_steps<R: Threads + Sync, C: ClauseSource + Sync, S: Steps + Sync>(
    rt: &R,
    alloc: Global,
    formula: &C,
    steps: &S,
) -> Result<LogAnswer, NoMemory>
    ensures { IfOk result
        (IsLogAnswer (C.listed formula.now).vars (C.listed formula.now).clauses (S.written steps.now)) }
{
    let vars = formula.vars();
    let mut assignment = Assignment::new(alloc, vars)?;
    let mut added = FlatFormula::new(alloc, vars);
    match bad_line(rt, alloc, &mut assignment, formula, &mut added, steps)? {
        Some(at) => Ok(LogAnswer::BadLine { at }),
        None => final_answer(&mut assignment, formula, &added, steps),
    }
}

/// The least line, from 1, that doesn't hold, where there is one; the final line counts after the others. A Learn line
/// costs as many steps as its clause and its hinted clauses have literals, a Given line as many as its clause has. The
/// formula is copied into one array first; one of 2^31 variables or more counts as want of memory.
pub fn check_log<R: Threads + Sync>(
    rt: &R,
    alloc: Global,
    formula: &Formula,
    log: &Log,
) -> Result<LogAnswer, NoMemory>
    ensures { IfOk result (IsLogAnswer formula.now.vars formula.now.clauses log.now) }
{
    let flat = FlatFormula::of(alloc, formula)?;
    check_steps(rt, alloc, &flat, log)
}
