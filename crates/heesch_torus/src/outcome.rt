//! What the solver finds of a formula in so many turns.
ghost use Rattle.std.specs.Prelude.{◌+◌, ◌<◌, ◌≤◌, ◌^◌, length, IfOk};
ghost use Rattle.heesch_torus.specs.Outcome.{IsOutcome};

use heesch_cdcl::{Found, Solver};
use heesch_cnf::{FlatFormula, Log};
use heesch_io::{NoMemory, Seq};
use std::alloc::Global;

/// A model of the formula, or the log of the search.
#[derive(Drop)]
pub(crate) enum Outcome {
    Model { values: Seq<bool> },
    Refuted { log: Log },
    Spent { log: Log },
}

/// Asks the solver once.
pub(crate) fn solve(alloc: Global, formula: FlatFormula, turns: u32) -> Result<Outcome, NoMemory>
    requires some { 1 ≤ turns }
    requires room { length formula.clauses + turns < 2 ^ 31 }
    ensures { IfOk result (IsOutcome formula.vars formula.clauses turns) }
{
    let mut solver = Solver::over(alloc, formula, turns)?;
    let found = solver.next()?;
    match found {
        Found::Model { values } => Ok(Outcome::Model { values }),
        Found::Refuted => Ok(Outcome::Refuted {
            log: solver.into_log(),
        }),
        Found::Spent => Ok(Outcome::Spent {
            log: solver.into_log(),
        }),
    }
}
