//! A clause is made false, and the hints are followed to a conflict.
ghost use Rattle.std.specs.Prelude.{◌≡◌, ◌++◌, ◌<◌, length, All, IfOk, OnOk, vec_len};
ghost use Rattle.heesch_cnf.specs.Literals.{held};
ghost use Rattle.heesch_cnf.specs.Clauses.{AreClauses};
ghost use Rattle.heesch_cnf.specs.Left.{IsLeft};
ghost use Rattle.heesch_cnf.specs.Lines.{numbered, reaches_conflict, refuting, AreNumbers, IsNumber};
ghost use Rattle.heesch_rup.specs.Assigned.{all_open};
ghost use Rattle.heesch_rup.specs.Status.{IsStatus};

use crate::assignment::Assignment;
use crate::status::Status;
use heesch_cnf::{ClauseSource, FlatFormula, Left, Lit, left_in_packed};
use heesch_io::NoMemory;

/// Makes every literal of the clause false.
pub fn refute(assignment: &mut Assignment, clause: &[Lit]) -> Result<(), NoMemory>
    requires fits { All (λ l. l.var < vec_len assignment.old.values) clause.now }
    requires open { held assignment.old.values.items ≡ all_open }
    ensures room { vec_len assignment.new.values ≡ vec_len assignment.old.values }
    ensures ok { OnOk result (held assignment.new.values.items ≡ refuting clause.now) }
{
    for i in (0..clause.len()).rev() {
        let Lit { var, positive } = clause[i];
        assignment.assign(Lit {
            var,
            positive: !positive,
        })?;
    }
    Ok(())
}

/// The literals that aren't false of the clause of a number, among those of the formula and then those that lines
/// added.
fn left_at<C: ClauseSource>(
    formula: &C,
    added: &FlatFormula,
    number: u32,
    values: &[Option<bool>],
) -> Left
    requires room { (C.listed formula.now).vars < length values.now }
    requires form { AreClauses (C.listed formula.now).vars ((C.listed formula.now).clauses ++ added.now.clauses) }
    requires number { IsNumber ((C.listed formula.now).clauses ++ added.now.clauses) number }
    ensures { let clauses = (C.listed formula.now).clauses ++ added.now.clauses in
        IsLeft (held values.now) (numbered clauses number) result }
{
    let (count, index) = (formula.count(), number as usize - 1);
    if index < count {
        formula.left(number, values)
    } else {
        left_in_packed(values, added.clause(index - count))
    }
}

/// What the clause of a number comes to, among those of the formula and then those that lines added.
fn status_at<C: ClauseSource>(
    assignment: &Assignment,
    formula: &C,
    added: &FlatFormula,
    number: u32,
) -> Status
    requires room { (C.listed formula.now).vars < vec_len assignment.now.values }
    requires form { AreClauses (C.listed formula.now).vars ((C.listed formula.now).clauses ++ added.now.clauses) }
    requires number { IsNumber ((C.listed formula.now).clauses ++ added.now.clauses) number }
    ensures { let clauses = (C.listed formula.now).clauses ++ added.now.clauses in
        IsStatus (held assignment.now.values.items) (numbered clauses number) result }
{
    match left_at(formula, added, number, &assignment.values) {
        Left::Nothing => Status::Falsified,
        Left::One(lit) if assignment.value(lit).is_none() => Status::Unit(lit),
        Left::One(_) | Left::More => Status::Other,
    }
}

/// Whether the hints, taken in order, end in a conflict. It reads the hinted clauses up to the first that settles it.
pub fn reaches_conflict<C: ClauseSource>(
    assignment: &mut Assignment,
    formula: &C,
    added: &FlatFormula,
    hints: &[u32],
) -> Result<bool, NoMemory>
    requires room { (C.listed formula.now).vars < vec_len assignment.old.values }
    requires form { AreClauses (C.listed formula.now).vars ((C.listed formula.now).clauses ++ added.now.clauses) }
    requires numbers { AreNumbers ((C.listed formula.now).clauses ++ added.now.clauses) hints.now }
    ensures room { vec_len assignment.new.values ≡ vec_len assignment.old.values }
    ensures ok { let clauses = (C.listed formula.now).clauses ++ added.now.clauses in
        IfOk result (λ yes. yes ≡ reaches_conflict clauses (held assignment.old.values.items) hints.now) }
{
    for (i, hint) in hints.iter().enumerate() {
        match status_at(assignment, formula, added, *hint) {
            Status::Falsified => return Ok(i + 1 == hints.len()),
            Status::Unit(lit) => assignment.assign(lit)?,
            Status::Other => return Ok(false),
        }
    }
    Ok(false)
}
