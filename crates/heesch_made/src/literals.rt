//! Literals by their numbers.
ghost use Rattle.std.specs.Prelude.{◌≡◌, map, IfOk};
ghost use Rattle.heesch_made.specs.Literals.{numbered_literal};

use heesch_cnf::{Lit, Lits};
use heesch_io::{NoMemory, Seq};
use std::alloc::Global;

/// The literal of a number: of the variable of its magnitude, negated where the number is negative.
pub fn lit(number: i32) -> Lit
    ensures { result ≡ numbered_literal number }
{
    Lit {
        var: number.unsigned_abs(),
        positive: number > 0,
    }
}

/// The literals of numbers.
pub fn lits(alloc: Global, numbers: &[i32]) -> Result<Lits, NoMemory>
    ensures { IfOk result (λ literals. literals ≡ map numbered_literal numbers.now) }
{
    let mut literals = Seq::new(alloc);
    for number in numbers {
        literals.push(lit(*number))?;
    }
    Ok(literals)
}
