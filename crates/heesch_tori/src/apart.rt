//! Whether a clause contains none of the clauses of a torus formula.
ghost use Rattle.std.specs.Prelude.{◌≡◌, ◌<◌, ◌≤◌, ◌↔◌, map, length, All, IsTrue, MatchBool, nat_lt};
ghost use Rattle.heesch_cert.specs.Literals.{literals};
ghost use Rattle.heesch_cnf.specs.Clauses.{IsClause, IsNew};
ghost use Rattle.heesch_cnf.specs.Literals.{held};
ghost use Rattle.heesch_encode.specs.Literals.{plus_all};
ghost use Rattle.heesch_grid.specs.Cells.{meet};
ghost use Rattle.heesch_grid.specs.CoronaFormula.{exclusion_clauses};
ghost use Rattle.heesch_grid.specs.Listing.{IsRising};
ghost use Rattle.heesch_numbers.specs.Common.{AllRemain};
ghost use Rattle.heesch_tori.specs.Later.{IsMet, MeetsOneOf, IsOneOfTwo};
ghost use Rattle.heesch_tori.specs.Shared.{IsVariable, tabled_sets};

use crate::table::CellTable;
use heesch_cnf::{Left, Lit};
use heesch_io::Seq;
use heesch_numbers::{left_with_all, remains};

/// Whether each list has a variable that isn't false.
pub(crate) fn lists_remain(lists: &[Seq<u32>], values: &[Option<bool>]) -> bool
    requires rising { All (IsRising nat_lt) lists.now }
    requires room { All (All (λ n. n < length values.now)) lists.now }
    ensures { MatchBool result (AllRemain (held values.now) (map plus_all lists.now))
        (¬ AllRemain (held values.now) (map plus_all lists.now)) }
{
    for list in lists {
        if !remains(left_with_all(Left::Nothing, values, list.as_slice())) {
            return false;
        }
    }
    true
}

/// Whether the literal is the negation of a later variable that shares a cell with this one.
fn is_met(table: &CellTable, first: u32, lit: Lit) -> bool
    requires first { IsVariable (length table.now.variables) first }
    requires variable { IsVariable (length table.now.variables) lit.var }
    ensures { IsTrue result ↔ IsMet (tabled_sets table.now) first lit }
{
    if lit.positive {
        return false;
    }
    if lit.var <= first {
        return false;
    }
    table.meets(first, lit.var)
}

/// Whether the clause has such a literal.
fn meets_one_of(table: &CellTable, first: u32, clause: &[Lit]) -> bool
    requires first { IsVariable (length table.now.variables) first }
    requires form { IsClause (length table.now.variables) clause.now }
    ensures { IsTrue result ↔ MeetsOneOf (tabled_sets table.now) first clause.now }
{
    for lit in clause {
        if is_met(table, first, *lit) {
            return true;
        }
    }
    false
}

/// Whether the literal is the negation of a variable, and the clause has that of a later one that shares a cell with
/// it.
fn meets_within(table: &CellTable, lit: Lit, clause: &[Lit]) -> bool
    requires variable { IsVariable (length table.now.variables) lit.var }
    requires form { IsClause (length table.now.variables) clause.now }
    ensures { IsTrue result ↔ IsOneOfTwo (tabled_sets table.now) lit clause.now }
{
    if lit.positive {
        return false;
    }
    meets_one_of(table, lit.var, clause)
}

/// Whether no two variables that the clause has negated share a cell. A look at each two of them.
pub(crate) fn are_apart(table: &CellTable, clause: &[Lit]) -> bool
    requires { IsClause (length table.now.variables) clause.now }
    ensures { IsTrue result ↔ IsNew (exclusion_clauses literals meet (tabled_sets table.now)) clause.now }
{
    for lit in clause {
        if meets_within(table, *lit, clause) {
            return false;
        }
    }
    true
}
