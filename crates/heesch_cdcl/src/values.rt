//! Whether values make a clause false.
ghost use Rattle.std.specs.Prelude.{◌≡◌, IsTrue, ◌↔◌};
ghost use Rattle.heesch_cdcl.specs.Newness.{IsMadeFalse};
ghost use Rattle.heesch_cnf.specs.Clauses.{assignment_of};

use heesch_cnf::Lit;

/// The value of a variable, in a list of values in number order.
fn value_in(values: &[bool], var: u32) -> bool
    ensures { result ≡ assignment_of values.now var }
{
    let index = (var as usize).saturating_sub(1);
    if index < values.len() {
        values[index]
    } else {
        false
    }
}

/// Whether these values, in number order, make every literal of the clause false. The cost is the clause's length.
pub fn makes_false(values: &[bool], clause: &[Lit]) -> bool
    ensures { IsTrue result ↔ IsMadeFalse (assignment_of values.now) clause.now }
{
    clause
        .iter()
        .all(|lit| value_in(values, lit.var) == !lit.positive)
}
