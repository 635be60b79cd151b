//! Whether the clauses of a log are new: whether none contains an earlier one.
ghost use Rattle.std.specs.Prelude.{◌≡◌, ◌+◌, ◌++◌, ◌*◌, ◌<◌, ◌≤◌, length, min, take, IsTrue, ◌↔◌, IfOk, vec_len};
ghost use Rattle.heesch_cnf.specs.Literals.{held};
ghost use Rattle.heesch_cnf.specs.Clauses.{AreClauses, IsClause, IsNew};
ghost use Rattle.heesch_cnf.specs.Lines.{clauses_of, refuting, LinesHold, LinesAreNew};
ghost use Rattle.heesch_rup.specs.Assigned.{all_open};
ghost use Rattle.heesch_rup.specs.Answer.{AreNewBetween};
ghost use Rattle.heesch_rup.specs.Listed.{AreAllListed, ListsFirst};

use crate::added::clauses_of;
use crate::assignment::Assignment;
use crate::chunks::{CHUNK, LEAST_SPLIT, by_chunks};
use crate::hints::refute;
use crate::indexed::IndexedFormula;
use crate::occurrences::{Occurrences, occurrences_of};
use crate::steps::Steps;
use heesch_cnf::{FlatFormula, Formula, Lit, Log, NewnessSource};
use heesch_io::NoMemory;
use std::alloc::Global;
use std::thread::Threads;

/// Whether the clause, whose literals the values make false, contains none of the formula, and none of the first, so
/// many, that lines added, which are listed.
fn is_new_under<N: NewnessSource>(
    listed: &Occurrences,
    values: &[Option<bool>],
    formula: &N,
    added: &FlatFormula,
    count: usize,
    clause: &[Lit],
) -> bool
    requires slots { 2 * added.now.vars + 1 < vec_len listed.now.last }
    requires vars { added.now.vars ≡ (N.listed formula.now).vars }
    requires room { added.now.vars < length values.now }
    requires refuted { held values.now ≡ refuting clause.now }
    requires form { AreClauses added.now.vars added.now.clauses }
    requires clause { IsClause added.now.vars clause.now }
    requires lists { ListsFirst added.now.clauses listed.now }
    requires count { count ≤ vec_len listed.now.earlier }
    ensures { let before = (N.listed formula.now).clauses ++ take count added.now.clauses in IsTrue result
        ↔ IsNew before clause.now }
{
    if listed.contains_listed(values, added, count, clause) {
        return false;
    }
    formula.is_new(clause, values)
}

/// Whether the clause contains none of the formula, and none of the first, so many, that lines added, which are
/// listed. The assignment is all open before and after.
fn is_new<N: NewnessSource>(
    listed: &Occurrences,
    assignment: &mut Assignment,
    formula: &N,
    added: &FlatFormula,
    count: usize,
    clause: &[Lit],
) -> Result<bool, NoMemory>
    requires slots { 2 * added.now.vars + 1 < vec_len listed.now.last }
    requires vars { added.now.vars ≡ (N.listed formula.now).vars }
    requires room { added.now.vars < vec_len assignment.old.values }
    requires open { held assignment.old.values.items ≡ all_open }
    requires form { AreClauses added.now.vars added.now.clauses }
    requires clause { IsClause added.now.vars clause.now }
    requires lists { ListsFirst added.now.clauses listed.now }
    requires count { count ≤ vec_len listed.now.earlier }
    ensures room { vec_len assignment.new.values ≡ vec_len assignment.old.values }
    ensures open { IfOk result (λ yes. held assignment.new.values.items ≡ all_open) }
    ensures fresh { let before = (N.listed formula.now).clauses ++ take count added.now.clauses in
        IfOk result (λ yes. IsTrue yes ↔ IsNew before clause.now) }
{
    refute(assignment, clause)?;
    let fresh = is_new_under(listed, &assignment.values, formula, added, count, clause);
    assignment.reset();
    Ok(fresh)
}

/// Whether each line of one chunk contains no earlier clause. The clauses of all lines are listed.
fn are_new_of<N: NewnessSource, S: Steps>(
    alloc: Global,
    listed: &Occurrences,
    formula: &N,
    added: &FlatFormula,
    steps: &S,
    chunk: usize,
) -> Result<bool, NoMemory>
    requires listed { AreAllListed added.now listed.now }
    requires vars { added.now.vars ≡ (N.listed formula.now).vars }
    requires added { added.now.clauses ≡ clauses_of (S.written steps.now).lines }
    requires chunk { chunk * 1024 < length added.now.clauses }
    ensures { let clauses = (N.listed formula.now).clauses in
        IfOk result (λ yes. IsTrue yes
        ↔ AreNewBetween clauses (S.written steps.now).lines (chunk * 1024)
        (min (chunk * 1024 + 1024) (length added.now.clauses))) }
{
    let from = chunk * CHUNK;
    let until = (from + CHUNK).min(added.len());
    let mut assignment = Assignment::new(alloc, added.vars())?;
    for i in from..until {
        if !is_new(listed, &mut assignment, formula, added, i, steps.clause(i))? {
            return Ok(false);
        }
    }
    Ok(true)
}

/// Whether no line contains an earlier clause, by chunks, in as many threads as there are processors. The clauses of
/// all lines are listed, and a search passes over those that don't stand before its line.
fn are_new_in_chunks<R: Threads + Sync, N: NewnessSource + Sync, S: Steps + Sync>(
    rt: &R,
    alloc: Global,
    listed: &Occurrences,
    formula: &N,
    added: &FlatFormula,
    steps: &S,
) -> Result<bool, NoMemory>
    requires listed { AreAllListed added.now listed.now }
    requires vars { added.now.vars ≡ (N.listed formula.now).vars }
    requires added { added.now.clauses ≡ clauses_of (S.written steps.now).lines }
    ensures { IfOk result
        (λ yes. IsTrue yes ↔ LinesAreNew (N.listed formula.now).clauses (S.written steps.now).lines) }
{
    let found = by_chunks(
        rt,
        alloc,
        added.len(),
        move |chunk: usize| -> Result<bool, NoMemory>
            requires { AreAllListed added.now listed.now × (added.now.vars ≡ (N.listed formula.now).vars)
                × (added.now.clauses ≡ clauses_of (S.written steps.now).lines)
                × (chunk * 1024 < length added.now.clauses) }
            ensures { IfOk result
                (λ yes. IsTrue yes ↔ AreNewBetween (N.listed formula.entry.now).clauses
                (S.written steps.entry.now).lines (chunk * 1024)
                (min (chunk * 1024 + 1024) (length added.entry.now.clauses))) }
        { are_new_of(alloc, listed, formula, added, steps, chunk) },
    )?;
    for answer in found.iter() {
        let Ok(fresh) = answer else {
            return Err(NoMemory);
        };
        if !*fresh {
            return Ok(false);
        }
    }
    Ok(true)
}

/// Whether no line contains an earlier clause, where the clauses that the lines add are these. The lines are checked
/// in their order, in the caller's thread; each is listed after its check.
pub fn are_new_in_turn<N: NewnessSource, S: Steps>(
    alloc: Global,
    formula: &N,
    added: &FlatFormula,
    steps: &S,
) -> Result<bool, NoMemory>
    requires lines { let f = N.listed formula.now in LinesHold f.vars f.clauses (S.written steps.now).lines }
    requires added { added.now
        ≡ record { vars = (N.listed formula.now).vars; clauses = clauses_of (S.written steps.now).lines } }
    ensures { IfOk result
        (λ yes. IsTrue yes ↔ LinesAreNew (N.listed formula.now).clauses (S.written steps.now).lines) }
{
    let vars = added.vars();
    let mut listed = occurrences_of(alloc, added, 0, added)?;
    let mut assignment = Assignment::new(alloc, vars)?;
    for i in 0..steps.count() {
        if !is_new(&listed, &mut assignment, formula, added, i, steps.clause(i))? {
            return Ok(false);
        }
        listed.list_next(added)?;
    }
    Ok(true)
}

/// The same, where the lines are checked by chunks where they are `LEAST_SPLIT` or more.
pub fn are_new<R: Threads + Sync, N: NewnessSource + Sync, S: Steps + Sync>(
    rt: &R,
    alloc: Global,
    formula: &N,
    added: &FlatFormula,
    steps: &S,
) -> Result<bool, NoMemory>
    requires lines { let f = N.listed formula.now in LinesHold f.vars f.clauses (S.written steps.now).lines }
    requires added { added.now
        ≡ record { vars = (N.listed formula.now).vars; clauses = clauses_of (S.written steps.now).lines } }
    ensures { IfOk result
        (λ yes. IsTrue yes ↔ LinesAreNew (N.listed formula.now).clauses (S.written steps.now).lines) }
{
    let (_vars, count) = (added.vars(), added.len());
    if count < LEAST_SPLIT {
        return are_new_in_turn(alloc, formula, added, steps);
    }
    let listed = occurrences_of(alloc, added, count, added)?;
    are_new_in_chunks(rt, alloc, &listed, formula, added, steps)
}

/// Whether no line contains an earlier clause, be it of the formula or of a line, wherever the lines stand. It costs
/// as many steps as all clauses have literals, and for each line the lengths of the clauses of which the line has the
/// literal that is rarest in lines, each read up to its first literal that the line lacks. The clauses of the lines
/// are copied into one array.
pub fn all_new_steps<R: Threads + Sync, S: Steps + Sync>(
    rt: &R,
    alloc: Global,
    formula: &FlatFormula,
    steps: &S,
) -> Result<bool, NoMemory>
    requires { LinesHold formula.now.vars formula.now.clauses (S.written steps.now).lines }
    ensures { IfOk result (λ yes. IsTrue yes ↔ LinesAreNew formula.now.clauses (S.written steps.now).lines) }
{
    let added = clauses_of(alloc, formula.vars(), steps)?;
    let indexed = IndexedFormula::of(alloc, formula, &added)?;
    are_new(rt, alloc, &indexed, &added, steps)
}

/// Whether no line contains an earlier clause, be it of the formula or of a line. It costs as many steps as all
/// clauses have literals, and for each line the lengths of the clauses of which the line has the literal that is
/// rarest in lines. The formula is copied into one array first; one of 2^31 variables or more counts as want of
/// memory.
pub fn all_new<R: Threads + Sync>(
    rt: &R,
    alloc: Global,
    formula: &Formula,
    log: &Log,
) -> Result<bool, NoMemory>
    requires { LinesHold formula.now.vars formula.now.clauses log.now.lines }
    ensures { IfOk result (λ yes. IsTrue yes ↔ LinesAreNew formula.now.clauses log.now.lines) }
{
    let flat = FlatFormula::of(alloc, formula)?;
    all_new_steps(rt, alloc, &flat, log)
}
