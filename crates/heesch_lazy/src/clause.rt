//! Clauses by their indices.
ghost use Rattle.heesch_cnf.specs.Clauses.{IsClause};

use heesch_cnf::{FlatFormula, PackedLit};

/// The clause of an index, from 0, or an empty one. Nothing is copied.
pub(crate) fn clause_at(formula: &FlatFormula, index: usize) -> &[PackedLit]
    ensures { IsClause formula.now.vars result.now }
{
    let _vars = formula.vars();
    if index < formula.len() {
        formula.clause(index)
    } else {
        &[]
    }
}
