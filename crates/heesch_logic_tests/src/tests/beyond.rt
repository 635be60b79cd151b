//! A formula of more than 2^16 variables and clauses, and a refutation of as many hints. No clause rules out want of
//! memory.
use super::made::judged;
use super::solver::{found_of, solver_of};
use heesch_cdcl::Found;
use heesch_cnf::{Formula, Lit, Lits, is_clause};
use heesch_io::{NoMemory, Seq};
use heesch_made::same;
use heesch_rup::LogAnswer;
use std::alloc::Global;
use std::test::Fail;

/// How many variables the chain has.
const VARS: u32 = 70_000;

/// The clause of this number from 0: the first variable is true, each other one where the one before it is, and the
/// last one isn't.
fn link(alloc: Global, number: u32) -> Result<Lits, NoMemory> {
    let mut literals = Seq::new(alloc);
    if number > 0 {
        literals.push(Lit {
            var: number,
            positive: false,
        })?;
    }
    if number < VARS {
        literals.push(Lit {
            var: number + 1,
            positive: true,
        })?;
    }
    Ok(literals)
}

/// The first clauses of the chain, over its variables. With all of them but the last it has one model; with the last
/// too it has none, and every clause is needed to see that.
fn chain(alloc: Global, links: u32) -> Result<Formula, NoMemory> {
    let mut formula = Formula::new(alloc, VARS);
    for number in 0..links {
        let clause = link(alloc, number)?;
        if formula.clauses.len() < 100_000 && is_clause(formula.vars, clause.as_slice()) {
            formula.add(clause)?;
        }
    }
    Ok(formula)
}

/// How many values the model has, where all are true.
fn true_values(found: &Found) -> Option<usize> {
    match found {
        Found::Model { values } if values.as_slice().iter().all(|value| *value) => {
            Some(values.len())
        }
        _ => None,
    }
}

#[test]
fn a_long_chain_has_one_model(rt: HostRuntime) -> Result<(), Fail> {
    let formula = chain(rt.alloc(), VARS)?;
    same("clauses", formula.clauses.len(), 70_000)?;
    let found = solver_of(rt.alloc(), formula, 1)?.next()?;
    same("values", true_values(&found), Some(70_000))
}

#[test]
fn a_broken_chain_is_refuted(rt: HostRuntime) -> Result<(), Fail> {
    let alloc = rt.alloc();
    let formula = chain(alloc, VARS + 1)?;
    same("clauses", formula.clauses.len(), 70_001)?;
    let (word, log) = found_of(alloc, formula, 1)?;
    same("found", (word, log.lines.len()), ("refuted", 0))?;
    let answer = judged(&rt, alloc, &chain(alloc, VARS + 1)?, &log)?;
    same("log", answer, (LogAnswer::Refuted, Some(true)))
}
