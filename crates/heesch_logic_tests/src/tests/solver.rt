//! Small formulas that are solved, and the logs of those that have no model.
ghost use Rattle.std.specs.Prelude.{◌≡◌};

use super::made::{Judged, formula_of, judged};
use heesch_cdcl::{Found, Solver, makes_false};
use heesch_cnf::{Formula, Lits, Log, is_clause};
use heesch_io::{NoMemory, Seq};
use heesch_made::{lits, same};
use heesch_rup::LogAnswer;
use std::alloc::Global;
use std::test::Fail;
use std::thread::Threads;

/// The eight clauses of three literals on three variables.
const ALL_EIGHT: [&[i32]; 8] = [
    &[1, 2, 3],
    &[1, 2, -3],
    &[1, -2, 3],
    &[1, -2, -3],
    &[-1, 2, 3],
    &[-1, 2, -3],
    &[-1, -2, 3],
    &[-1, -2, -3],
];

/// A clause of one literal, and two without any.
const EMPTY: [&[i32]; 3] = [&[1], &[], &[]];

/// A solver of so many turns; a test fails where the formula or the turns are too many.
pub(crate) fn solver_of(alloc: Global, formula: Formula, turns: u32) -> Result<Solver, Fail> {
    if formula.clauses.len() > 100_000 || turns == 0 || turns > 1000 {
        return Err(Fail::new("too many"));
    }
    Ok(Solver::open(alloc, formula, turns)?)
}

/// What was found, in a word.
pub(crate) fn word_of(found: &Found) -> &'static str {
    match found {
        Found::Model { .. } => "model",
        Found::Refuted => "refuted",
        Found::Spent => "spent",
    }
}

/// The first that a solver of so many turns finds, and its log.
pub(crate) fn found_of(
    alloc: Global,
    formula: Formula,
    turns: u32,
) -> Result<(&'static str, Log), Fail> {
    let mut solver = solver_of(alloc, formula, turns)?;
    let found = solver.next()?;
    Ok((word_of(&found), solver.into_log()))
}

/// What is found of these clauses, what is judged of the log, how many lines it has, and the hints of its last one.
type Solved = (&'static str, Judged, usize, Option<Vec<u32>>);

/// What a solver of so many turns finds of these clauses over so many variables.
fn solved<R: Threads + Sync>(
    rt: &R,
    alloc: Global,
    vars: u32,
    clauses: &[&[i32]],
    turns: u32,
) -> Result<Solved, Fail> {
    let (word, log) = found_of(alloc, formula_of(alloc, vars, clauses)?, turns)?;
    let answer = judged(rt, alloc, &formula_of(alloc, vars, clauses)?, &log)?;
    let Log { lines, last } = log;
    Ok((
        word,
        answer,
        lines.len(),
        last.map(|hints| hints.into_vec()),
    ))
}

/// One turn is spent behind a first line.
#[test]
fn one_turn_is_spent(rt: HostRuntime) -> Result<(), Fail> {
    let found = solved(&rt, rt.alloc(), 3, &ALL_EIGHT, 1)?;
    same(
        "eight clauses",
        found,
        ("spent", (LogAnswer::Open, Some(true)), 1, None),
    )
}

/// 27 turns are enough.
#[test]
fn eight_clauses_are_refuted(rt: HostRuntime) -> Result<(), Fail> {
    let (word, answer, _, _) = solved(&rt, rt.alloc(), 3, &ALL_EIGHT, 27)?;
    same(
        "eight clauses",
        (word, answer),
        ("refuted", (LogAnswer::Refuted, Some(true))),
    )
}

#[test]
fn an_empty_clause_refutes_at_once(rt: HostRuntime) -> Result<(), Fail> {
    let (word, answer, lines, last) = solved(&rt, rt.alloc(), 1, &EMPTY, 1)?;
    same(
        "empty",
        (word, answer, lines),
        ("refuted", (LogAnswer::Refuted, Some(true)), 0),
    )?;
    same("hints", last, Some([2].to_vec(rt.alloc())?))
}

/// The model that a solver of one variable and one turn finds first, once a clause is given that it makes false.
fn denied(solver: &mut Solver, clause: Lits) -> Result<Option<Seq<bool>>, NoMemory>
    requires { (solver.old.vars ≡ 1) × (solver.old.turns ≡ 1) }
{
    if let Found::Model { values } = solver.next()? {
        if is_clause(1, clause.as_slice())
            && makes_false(values.as_slice(), clause.as_slice())
            && solver.log().lines.len() < 1
        {
            solver.give(clause)?;
            return Ok(Some(values));
        }
    }
    Ok(None)
}

/// The first model of the one clause, what is found once it is denied, and the log.
fn found_twice(alloc: Global) -> Result<(Option<Seq<bool>>, &'static str, Log), Fail> {
    let formula = formula_of(alloc, 1, &[&[1]])?;
    if formula.clauses.len() > 1000 {
        return Err(Fail::new("too many"));
    }
    let mut solver = Solver::open(alloc, formula, 1)?;
    let values = denied(&mut solver, lits(alloc, &[-1])?)?;
    let found = solver.next()?;
    Ok((values, word_of(&found), solver.into_log()))
}

#[test]
fn a_given_clause_refutes(rt: HostRuntime) -> Result<(), Fail> {
    let alloc = rt.alloc();
    let (values, word, log) = found_twice(alloc)?;
    same(
        "values",
        values.map(|values| values.into_vec()),
        Some([true].to_vec(alloc)?),
    )?;
    let answer = judged(&rt, alloc, &formula_of(alloc, 1, &[&[1]])?, &log)?;
    let wanted = ("refuted", 1, (LogAnswer::Refuted, Some(true)));
    same("log", (word, log.lines.len(), answer), wanted)
}
