//! The least clause that an assignment makes false.
ghost use Rattle.std.specs.Prelude.{◌≡◌, ◌≤◌, ◌<◌, ◌^◌, [], length, slice_index_or, MatchOption, IsTrue, ◌↔◌};
ghost use Rattle.heesch_cnf.specs.Clauses.{IsClause, IsSatisfied, Satisfies, assignment_of};
ghost use Rattle.heesch_exchange.specs.ClauseTexts.{IsFirstFalse};

use crate::access::HasLiterals;

/// The number, from 1, of the first clause of which no literal is true under these values of the variables, or None
/// where every clause has a true one.
///
/// Condition: a value for each variable. It takes no memory. The cost is the number of literals up to the clause's
/// end.
pub fn first_false<F: HasLiterals>(formula: &F, values: &[bool]) -> Option<u32>
    requires { length values.now ≡ F.vars formula.now }
    ensures { MatchOption result (Satisfies (assignment_of values.now) (F.clauses formula.now))
        (λ number. IsFirstFalse (assignment_of values.now) (F.clauses formula.now) number) }
{
    for index in 0..formula.clause_count() {
        if !is_satisfied(formula, index, values) {
            return Some(index as u32 + 1);
        }
    }
    None
}

/// Whether a literal of the clause of this index, which counts from 0, is true.
fn is_satisfied<F: HasLiterals>(formula: &F, index: usize, values: &[bool]) -> bool
    requires count { length values.now ≡ F.vars formula.now }
    requires index { index < length (F.clauses formula.now) }
    requires form { IsClause (F.vars formula.now) (slice_index_or (F.clauses formula.now) index []) }
    ensures { IsTrue result
        ↔ IsSatisfied (assignment_of values.now) (slice_index_or (F.clauses formula.now) index []) }
{
    for place in 0..formula.clause_len(index) {
        let lit = formula.literal(index, place);
        if values[lit.var as usize - 1] == lit.positive {
            return true;
        }
    }
    false
}
