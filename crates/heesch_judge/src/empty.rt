//! The first clause without literals.
ghost use Rattle.std.specs.Prelude.{◌≡◌, ◌↔◌, ◌+◌, [], IsTrue, IfOk, MatchOption, vec_len};
ghost use Rattle.heesch_cdcl.specs.Empty.{IsFirstEmpty, NoneEmpty};
ghost use Rattle.heesch_cnf.specs.Lines.{refuting};
ghost use Rattle.heesch_cnf.specs.Literals.{held};

use heesch_cnf::{Left, NewnessSource};
use heesch_io::NoMemory;
use std::alloc::Global;

/// The values of the variables 0 to `vars`, all open.
pub(crate) fn all_open(alloc: Global, vars: u32) -> Result<Vec<Option<bool>>, NoMemory>
    ensures room { IfOk result (λ values. vec_len values ≡ vars + 1) }
    ensures open { IfOk result (λ values. held values.items ≡ refuting []) }
{
    Ok(vec![in alloc; None; vars as usize + 1]?)
}

/// Whether nothing is left.
fn is_nothing(left: Left) -> bool
    ensures { IsTrue result ↔ (left ≡ Left.Nothing) }
{
    matches!(left, Left::Nothing)
}

/// The least number of a clause without literals.
///
/// Where there is none, the cost is that of the question whether the empty clause is new; else a look at each clause
/// up to that one. Only clauses of the first family of a corona formula can be empty, and these are the first and few.
/// It takes a value for each variable.
pub fn first_empty<N: NewnessSource>(alloc: Global, formula: &N) -> Result<Option<u32>, NoMemory>
    ensures { let clauses = (N.listed formula.now).clauses in
        IfOk result (λ first. MatchOption first (NoneEmpty clauses) (IsFirstEmpty clauses)) }
{
    let values = all_open(alloc, formula.vars())?;
    if formula.is_new(&[], &values) {
        return Ok(None);
    }
    for index in 0..formula.count() {
        let number = index as u32 + 1;
        if is_nothing(formula.left(number, &values)) {
            return Ok(Some(number));
        }
    }
    Ok(None)
}
