//! The values that unit propagation gives.
ghost use Rattle.std.specs.Prelude.{◌≡◌, ◌≢◌, ◌<◌, ◌+◌, ◌∷◌, ◌↔◌, [], None, Some, List, length, slice_set, vec_len};
ghost use Rattle.std.specs.Prelude.{IfOk, IfSome, IsFalse, IsTrue, MatchOption};
ghost use Rattle.heesch_cnf.specs.declared.literal.Lit.{Lit as Literal};
ghost use Rattle.heesch_cnf.specs.Clauses.{AreClauses, IsClause};
ghost use Rattle.heesch_cnf.specs.Left.{IsLeft};
ghost use Rattle.heesch_cnf.specs.Lines.{clauses_of, clauses_with};
ghost use Rattle.heesch_cnf.specs.Literals.{held};
ghost use Rattle.heesch_trail.specs.Fixpoint.{IsFixpoint};
ghost use Rattle.heesch_judge.specs.Propagation.{ConflictOrExtension, EndsOpen, Forces, HasConflict};
ghost use Rattle.heesch_judge.specs.Propagation.{HasConflictOver, IsPropagated};

use crate::empty::all_open;
use heesch_cnf::{ClauseSource, Left, Lit, left_in};
use heesch_io::NoMemory;
use heesch_rup::Steps;
use std::alloc::Global;

/// Makes the literal true where its variable is open. Whether it was.
fn assign(values: &mut [Option<bool>], lit: Lit) -> bool
    requires { lit.var < length values.old }
    ensures made { IsTrue result → (held values.old lit.var ≡ None)
        × (values.new ≡ slice_set values.old lit.var (Some lit.positive)) }
    ensures kept { IsFalse result → (held values.old lit.var ≢ None) × (values.new ≡ values.old) }
{
    let var = lit.var as usize;
    if values[var].is_some() {
        return false;
    }
    values[var] = Some(lit.positive);
    true
}

/// Makes the literal true that alone is left of a clause, where it is open. None where none is left, else whether it
/// was.
fn force(vars: u32, values: &mut [Option<bool>], left: Left) -> Option<bool>
    requires { vars < length values.old }
    ensures { (clause : List Literal) → IsClause vars clause → IsLeft (held values.old) clause left
        → ConflictOrExtension (clause ∷ []) values.old result values.new }
{
    match left {
        Left::Nothing => None,
        Left::One(lit) => {
            if lit.var > vars {
                return Some(false);
            }
            Some(assign(values, lit))
        }
        Left::More => Some(false),
    }
}

/// The same of each clause of the formula, one after the other. None at a conflict, else whether a value came.
fn pass_over<C: ClauseSource>(formula: &C, values: &mut [Option<bool>]) -> Option<bool>
    requires room { (C.listed formula.now).vars < length values.old }
    ensures { ConflictOrExtension (C.listed formula.now).clauses values.old result values.new }
{
    let vars = formula.vars();
    let mut grew = false;
    for index in 0..formula.count() {
        let left = formula.left(index as u32 + 1, values);
        match force(vars, values, left) {
            None => return None,
            Some(came) => grew |= came,
        }
    }
    Some(grew)
}

/// The same of the clause of each line.
fn pass_over_lines<S: Steps>(vars: u32, steps: &S, values: &mut [Option<bool>]) -> Option<bool>
    requires room { vars < length values.old }
    requires form { AreClauses vars (clauses_of (S.written steps.now).lines) }
    ensures { ConflictOrExtension (clauses_of (S.written steps.now).lines) values.old result values.new }
{
    let mut grew = false;
    for index in 0..steps.count() {
        let clause = steps.clause(index);
        let left = left_in(values, clause);
        match force(vars, values, left) {
            None => return None,
            Some(came) => grew |= came,
        }
    }
    Some(grew)
}

/// The same of the clauses of both, those of the lines first: they are few, and force much.
fn pass<C: ClauseSource, S: Steps>(
    formula: &C,
    steps: &S,
    values: &mut [Option<bool>],
) -> Option<bool>
    requires room { (C.listed formula.now).vars < length values.old }
    requires form { AreClauses (C.listed formula.now).vars (clauses_of (S.written steps.now).lines) }
    ensures { ConflictOrExtension (clauses_with (C.listed formula.now).clauses (S.written steps.now).lines)
        values.old result values.new }
{
    let Some(by_lines) = pass_over_lines(formula.vars(), steps, values) else {
        return None;
    };
    match pass_over(formula, values) {
        None => None,
        Some(by_formula) => Some(by_lines | by_formula),
    }
}

/// The same again and again, until no value comes. Whether it ends without a conflict.
fn propagate<C: ClauseSource, S: Steps>(formula: &C, steps: &S, values: &mut [Option<bool>]) -> bool
    requires room { (C.listed formula.now).vars < length values.old }
    requires form { AreClauses (C.listed formula.now).vars (clauses_of (S.written steps.now).lines) }
    ensures conflict { let clauses = clauses_with (C.listed formula.now).clauses (S.written steps.now).lines in
        IsFalse result → HasConflictOver clauses (held values.old) }
    ensures fixpoint { let clauses = clauses_with (C.listed formula.now).clauses (S.written steps.now).lines in
        IsTrue result → IsFixpoint (held values.new) clauses }
    ensures forced { let clauses = clauses_with (C.listed formula.now).clauses (S.written steps.now).lines in
        IsTrue result → Forces clauses (held values.old) (held values.new) }
{
    'passes: loop {
        let Some(grew) = pass(formula, steps, values) else {
            return false;
        };
        if !grew {
            return true;
        }
    }
}

/// The values that unit propagation gives over the clauses of the formula and of the lines, by variable; value 0 is of
/// no variable. None where it ends in a conflict.
///
/// Under them each clause has a true literal or two open ones, and so it has under no values without them: so each
/// assignment that makes the clauses true has these values, and at None there is none.
///
/// Condition: the clauses of the lines are over the variables of the formula. The clauses are looked at one after the
/// other, and all of them again as long as a value came, which is at most once for each variable, and mostly a few
/// times. It takes a byte or two for each variable.
pub fn propagated<C: ClauseSource, S: Steps>(
    alloc: Global,
    formula: &C,
    steps: &S,
) -> Result<Option<Vec<Option<bool>>>, NoMemory>
    requires form { AreClauses (C.listed formula.now).vars (clauses_of (S.written steps.now).lines) }
    ensures room { IfOk result (λ found. IfSome found (λ values. vec_len values ≡ (C.listed formula.now).vars + 1)) }
    ensures values { let clauses = clauses_with (C.listed formula.now).clauses (S.written steps.now).lines in
        IfOk result (λ found. MatchOption found (HasConflict clauses)
        (λ values. IsPropagated clauses (held values.items))) }
{
    let mut values = all_open(alloc, formula.vars())?;
    if !propagate(formula, steps, &mut values) {
        return Ok(None);
    }
    Ok(Some(values))
}

/// Whether unit propagation over the clauses of the formula and of the lines ends without a conflict. Then no final
/// line holds over them.
///
/// The condition and the cost are those of `propagated`.
pub fn ends_open<C: ClauseSource, S: Steps>(
    alloc: Global,
    formula: &C,
    steps: &S,
) -> Result<bool, NoMemory>
    requires form { AreClauses (C.listed formula.now).vars (clauses_of (S.written steps.now).lines) }
    ensures { let clauses = clauses_with (C.listed formula.now).clauses (S.written steps.now).lines in
        IfOk result (λ yes. IsTrue yes ↔ EndsOpen clauses) }
{
    let found = propagated(alloc, formula, steps)?;
    Ok(found.is_some())
}
