//! Whether a log is spent for a number of turns.
ghost use Rattle.std.specs.Prelude.{◌≡◌, IsTrue, ◌↔◌, IfOk, MatchOption, ⊤};
ghost use Rattle.heesch_cnf.specs.Lines.{IsSpent, LinesHold, LinesAreNew, clauses_of};

use crate::assignment::Assignment;
use crate::check::bad_line;
use crate::indexed::IndexedFormula;
use crate::newness::are_new;
use crate::steps::Steps;
use heesch_cnf::{ClauseSource, FlatFormula};
use heesch_io::NoMemory;
use std::alloc::Global;
use std::thread::Threads;

/// The clauses of the lines, if there are just so many lines, each of which holds, and no final line. The log is spent
/// then where they are new, and else it isn't.
fn used_up<R: Threads + Sync, C: ClauseSource + Sync, S: Steps + Sync>(
    rt: &R,
    alloc: Global,
    formula: &C,
    steps: &S,
    turns: u32,
) -> Result<Option<FlatFormula>, NoMemory>
    ensures added { let f = C.listed formula.now in
        IfOk result (λ used. MatchOption used ⊤
        (λ added. added ≡ record { vars = f.vars; clauses = clauses_of (S.written steps.now).lines })) }
    ensures lines { let f = C.listed formula.now in
        IfOk result (λ used. MatchOption used ⊤ (λ added. LinesHold f.vars f.clauses (S.written steps.now).lines)) }
    ensures spent { let f = C.listed formula.now in let log = S.written steps.now in
        IfOk result (λ used. MatchOption used (IsSpent f.vars f.clauses turns log → ⊥)
        (λ added. LinesAreNew f.clauses log.lines ↔ IsSpent f.vars f.clauses turns log)) }
{
    if steps.count() != turns as usize {
        return Ok(None);
    }
    let None = steps.last() else {
        return Ok(None);
    };
    let vars = formula.vars();
    let mut assignment = Assignment::new(alloc, vars)?;
    let mut added = FlatFormula::new(alloc, vars);
    match bad_line(rt, alloc, &mut assignment, formula, &mut added, steps)? {
        Some(_) => Ok(None),
        None => Ok(Some(added)),
    }
}

/// Whether the log is spent for so many turns over the formula, wherever its lines stand: it has just so many lines,
/// each of which holds and is new, and no final line. It costs what `check_steps` and `all_new_steps` cost, but the
/// clauses of the lines are copied once.
pub fn is_spent<R: Threads + Sync, S: Steps + Sync>(
    rt: &R,
    alloc: Global,
    formula: &FlatFormula,
    steps: &S,
    turns: u32,
) -> Result<bool, NoMemory>
    ensures { IfOk result
        (λ yes. IsTrue yes ↔ IsSpent formula.now.vars formula.now.clauses turns (S.written steps.now)) }
{
    let Some(added) = used_up(rt, alloc, formula, steps, turns)? else {
        return Ok(false);
    };
    let indexed = IndexedFormula::of(alloc, formula, &added)?;
    are_new(rt, alloc, &indexed, &added, steps)
}
