//! Which variables literals name.
ghost use Rattle.std.specs.Prelude.{◌≡◌, ◌≤◌, ◌<◌, ◌++◌, ◌∷◌, [], ℕ, List, length, replicate, false, IsTrue, ◌↔◌};
ghost use Rattle.std.specs.Prelude.{IfOk, MatchBool};
ghost use Rattle.std.specs.List.{AllByRecursion};
ghost use Rattle.heesch_cnf.specs.declared.literal.Lit.{Lit};
ghost use Rattle.heesch_line.specs.Forms.{IsLiteral};
ghost use Rattle.heesch_exchange.specs.Models.{AreOver, IsAssignment};
ghost use Rattle.heesch_exchange.specs.Lines.{AreNamed, IsFresh};

use heesch_cnf::Lit;
use heesch_io::{NoMemory, Seq};
use std::alloc::Global;

/// A mark for each of so many variables, none of them set.
pub fn unset(alloc: Global, count: usize) -> Result<Vec<bool>, NoMemory>
    ensures { IfOk result (λ marks. marks.items ≡ replicate count false) }
{
    Ok(vec![in alloc; false; count]?)
}

/// Marks the variables that the literals name, and answers whether each is one of the variables and wasn't named
/// before. Where it answers no, the marks tell nothing.
pub fn name_all(named: &mut [bool], literals: &[Lit]) -> bool
    requires { AllByRecursion IsLiteral literals.now }
    ensures { (before : List Lit) → AreNamed before named.old → AreOver (length named.old) before
        → MatchBool result (AreNamed (before ++ literals.now) named.new
        × AreOver (length named.old) (before ++ literals.now))
        (¬ (AreOver (length named.old) (before ++ literals.now))) }
{
    for literal in literals {
        if !name(named, *literal) {
            return false;
        }
    }
    true
}

/// Marks the variable of the literal, and answers whether it is one of the variables and wasn't marked before.
fn name(named: &mut [bool], literal: Lit) -> bool
    requires { IsLiteral literal }
    ensures { (before : List Lit) → AreNamed before named.old
        → MatchBool result (AreNamed (before ++ literal ∷ []) named.new × IsFresh (length named.old) before literal)
        (¬ (IsFresh (length named.old) before literal)) }
{
    let index = literal.var as usize - 1;
    if index >= named.len() || named[index] {
        return false;
    }
    named[index] = true;
    true
}

/// The values that make the variables of the positive literals true and all others false.
pub fn assignment(alloc: Global, vars: u32, literals: &[Lit]) -> Result<Seq<bool>, NoMemory>
    requires form { AllByRecursion IsLiteral literals.now }
    requires over { AreOver vars literals.now }
    ensures { IfOk result (λ values. IsAssignment vars literals.now values) }
{
    let mut values = unset(alloc, vars as usize)?;
    make_all_true(&mut values, literals);
    Ok(Seq::from_vec(values))
}

/// Makes the variables of the positive literals true, where none is true before.
fn make_all_true(values: &mut [bool], literals: &[Lit])
    requires form { AllByRecursion IsLiteral literals.now }
    requires over { AreOver (length values.old) literals.now }
    requires start { IsAssignment (length values.old) [] values.old }
    ensures { IsAssignment (length values.old) literals.now values.new }
{
    for literal in literals {
        make_true(values, *literal);
    }
}

/// Makes the variable of the literal true where it is positive.
fn make_true(values: &mut [bool], literal: Lit)
    requires low { 1 ≤ literal.var }
    requires high { literal.var ≤ length values.old }
    ensures { (before : List Lit) → IsAssignment (length values.old) before values.old
        → IsAssignment (length values.old) (before ++ literal ∷ []) values.new }
{
    if literal.positive {
        values[literal.var as usize - 1] = true;
    }
}
