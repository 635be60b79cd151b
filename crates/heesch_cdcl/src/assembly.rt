//! The clause of the marked variables.
ghost use Rattle.std.specs.Prelude.{◌≡◌, ◌+◌, ◌≤◌, IfOk, length};
ghost use Rattle.heesch_cdcl.specs.Marked.{IsClauseOfMarked, falsified};

use crate::marks::Marks;
use heesch_cnf::{Lit, Lits};
use heesch_io::{NoMemory, Seq};
use heesch_trail::Trail;
use std::alloc::Global;

/// The literal of a variable that its value makes false.
fn false_literal(trail: &Trail, var: u32) -> Lit
    requires { var ≤ trail.now.vars }
    ensures { result ≡ falsified trail.now.steps var }
{
    Lit {
        var,
        positive: !trail.value(var).unwrap_or(false),
    }
}

/// The clause of the marked variables, whose literals are false. They are sorted, since the variables of a clause
/// rise.
pub fn clause_of_marks(
    alloc: Global,
    trail: &Trail,
    marks: &Marks,
    kept: &mut Vec<u32>,
) -> Result<Lits, NoMemory>
    requires { length marks.now.seen ≡ trail.now.vars + 1 }
    ensures { IfOk result (IsClauseOfMarked trail.now.vars trail.now.steps marks.now.seen) }
{
    marks.keep(kept)?;
    kept.sort_unstable();
    let mut clause = Vec::with_capacity(alloc, kept.len())?;
    let mut last = 0;
    for var in &*kept {
        if last < *var {
            clause
                .push(false_literal(trail, *var))
                .map_err(|_| NoMemory)?;
            last = *var;
        }
    }
    Ok(Seq::from_vec(clause))
}
