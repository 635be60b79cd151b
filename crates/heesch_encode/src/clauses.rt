//! Clauses of variables and negated variables.
ghost use Rattle.std.specs.Prelude.{◌≡◌, ◌++◌, ◌<◌, ◌≤◌, ◌^◌, take, drop, length, OnOk, All, Contains, nat_lt};
ghost use Rattle.heesch_grid.specs.Listing.{IsRising, ListsExactly};
ghost use Rattle.heesch_grid.specs.OwnerFormula.{signed};
ghost use Rattle.heesch_cert.specs.Literals.{literals};
ghost use Rattle.heesch_encode.specs.Literals.{plus_all, lit_before, IsOfImplication};

use crate::lists::add;
use heesch_cnf::{Lit, PackedLit};
use heesch_io::NoMemory;

/// The variable, or its negation.
pub(crate) fn literal(var: u32, positive: bool) -> PackedLit
    requires { var < 2 ^ 31 }
    ensures { result ≡ signed literals positive var }
{
    PackedLit::of(Lit { var, positive })
}

/// The variable as a literal.
fn plus(var: u32) -> PackedLit
    requires { var < 2 ^ 31 }
    ensures { result ≡ literals.plus var }
{
    literal(var, true)
}

/// The negation of a variable.
pub(crate) fn minus(var: u32) -> PackedLit
    requires { var < 2 ^ 31 }
    ensures { result ≡ literals.minus var }
{
    literal(var, false)
}

/// Adds the variables.
fn add_plus(clause: &mut Vec<PackedLit>, numbers: &[u32]) -> Result<(), NoMemory>
    requires { All (λ n. n < 2 ^ 31) numbers.now }
    ensures { OnOk result (clause.new.items ≡ clause.old.items ++ plus_all numbers.now) }
{
    for var in numbers {
        add(clause, plus(*var))?;
    }
    Ok(())
}

/// Makes the clause that one of the variables is true.
pub(crate) fn write_choice(clause: &mut Vec<PackedLit>, numbers: &[u32]) -> Result<(), NoMemory>
    requires { All (λ n. n < 2 ^ 31) numbers.now }
    ensures { OnOk result (clause.new.items ≡ plus_all numbers.now) }
{
    clause.clear();
    add_plus(clause, numbers)
}

/// How many of the rising numbers are below n.
pub(crate) fn count_below(numbers: &[u32], n: u32) -> usize
    requires { IsRising nat_lt numbers.now }
    ensures bound { result ≤ length numbers.now }
    ensures below { All (λ m. m < n) (take result numbers.now) }
    ensures above { All (λ m. n ≤ m) (drop result numbers.now) }
{
    numbers.partition_point(|m| *m < n)
}

/// Makes the clause that where the first variable is true, one of the others is. Their numbers rise, and it isn't one
/// of them.
pub(crate) fn write_implication(
    clause: &mut Vec<PackedLit>,
    var: u32,
    numbers: &[u32],
) -> Result<(), NoMemory>
    requires small { var < 2 ^ 31 }
    requires others { All (λ n. n < 2 ^ 31) numbers.now }
    requires rising { IsRising nat_lt numbers.now }
    requires absent { ¬ Contains numbers.now var }
    ensures { OnOk result (ListsExactly lit_before (IsOfImplication var numbers.now) clause.new.items) }
{
    let at = count_below(numbers, var);
    clause.clear();
    add_plus(clause, &numbers[..at])?;
    add(clause, minus(var))?;
    add_plus(clause, &numbers[at..])
}
