//! The clauses that lines add to a formula, flat.
ghost use Rattle.std.specs.Prelude.{◌≡◌, ◌<◌, ◌^◌, ◌∷◌, ◌++◌, [], All, IfOk, OnOk, length};
ghost use Rattle.heesch_cnf.specs.Clauses.{IsClause};
ghost use Rattle.heesch_cnf.specs.Lines.{clause_of, clauses_of};
ghost use Rattle.heesch_rup.specs.Answer.{AddsFirst, IsFormless};

use crate::steps::Steps;
use heesch_cnf::{FlatFormula, Lit, is_clause};
use heesch_io::NoMemory;
use std::alloc::Global;

/// The clause stands last. More than 2^31 clauses count as want of memory.
pub fn add_clause(added: &mut FlatFormula, clause: &[Lit]) -> Result<(), NoMemory>
    requires { IsClause added.old.vars clause.now }
    ensures { OnOk result (added.new ≡ record added.old { clauses = added.old.clauses ++ clause.now ∷ [] }) }
{
    if added.len() == 1 << 31 {
        return Err(NoMemory);
    }
    added.add(clause)
}

/// The clauses of the lines, copied. The cost is the number of the lines and that of their clauses' literals.
pub fn clauses_of<S: Steps>(alloc: Global, vars: u32, steps: &S) -> Result<FlatFormula, NoMemory>
    requires small { vars < 2 ^ 31 }
    requires form { All (λ line. IsClause vars (clause_of line)) (S.written steps.now).lines }
    ensures { IfOk result (λ f. f ≡ record { vars = vars; clauses = clauses_of (S.written steps.now).lines }) }
{
    let mut added = FlatFormula::new(alloc, vars);
    for i in 0..steps.count() {
        add_clause(&mut added, steps.clause(i))?;
    }
    Ok(added)
}

/// Adds the clauses of the lines before the first whose clause isn't one over the variables, or of all lines. It reads
/// their clauses once.
pub fn add_formed<S: Steps>(added: &mut FlatFormula, steps: &S) -> Result<(), NoMemory>
    requires none { added.old.clauses ≡ [] }
    ensures first { OnOk result (AddsFirst added.old.vars (S.written steps.now).lines added.new) }
    ensures formless { OnOk result (IsFormless added.old.vars (S.written steps.now).lines (length added.new.clauses)) }
{
    let vars = added.vars();
    for i in 0..steps.count() {
        let clause = steps.clause(i);
        if !is_clause(vars, clause) {
            return Ok(());
        }
        add_clause(added, clause)?;
    }
    Ok(())
}
