//! Formulas, and what is found of a log over one.
ghost use Rattle.std.specs.Prelude.{◌≡◌, IfOk};

use heesch_cnf::{Formula, Log, is_clause};
use heesch_made::lits;
use heesch_rup::{LogAnswer, all_new, check_log};
use std::alloc::Global;
use std::test::Fail;
use std::thread::Threads;

/// The formula of these clauses over so many variables.
pub(crate) fn formula_of(alloc: Global, vars: u32, clauses: &[&[i32]]) -> Result<Formula, Fail>
    ensures { IfOk result (λ formula. formula.vars ≡ vars) }
{
    let mut formula = Formula::new(alloc, vars);
    for numbers in clauses {
        let clause = lits(alloc, numbers)?;
        if formula.clauses.len() > 1000 || !is_clause(formula.vars, clause.as_slice()) {
            return Err(Fail::new("no clause"));
        }
        formula.add(clause)?;
    }
    Ok(formula)
}

/// The answer of the check, and whether all lines are new, where they hold.
pub(crate) type Judged = (LogAnswer, Option<bool>);

/// What is judged of a log over a formula.
pub(crate) fn judged<R: Threads + Sync>(
    rt: &R,
    alloc: Global,
    formula: &Formula,
    log: &Log,
) -> Result<Judged, Fail> {
    match check_log(rt, alloc, formula, log)? {
        LogAnswer::Refuted => Ok((LogAnswer::Refuted, Some(all_new(rt, alloc, formula, log)?))),
        LogAnswer::Open => Ok((LogAnswer::Open, Some(all_new(rt, alloc, formula, log)?))),
        answer => Ok((answer, None)),
    }
}
