//! Whether a clause has two variables that meet.
ghost use Rattle.std.specs.Prelude.{◌≤◌, ◌↔◌, All, IsTrue, length};
ghost use Rattle.heesch_cnf.specs.Clauses.{IsClause, IsNew};
ghost use Rattle.heesch_pairwise.specs.Pairs.{pairs_of, HavePair, HasLater};

use heesch_cnf::Lit;
use heesch_grid::Grid;
use heesch_place::Universe;

/// Whether the second variable is a later one that meets the first. At most 64 comparisons.
fn have_pair<G: Grid>(universe: &Universe<G>, first: u32, second: u32) -> bool
    requires first { (1 ≤ first) × (first ≤ length universe.now.vars) }
    requires second { (1 ≤ second) × (second ≤ length universe.now.vars) }
    ensures { IsTrue result ↔ HavePair universe.now.vars first second }
{
    if first >= second {
        return false;
    }
    universe
        .placement_of(first)
        .meets(universe.placement_of(second))
}

/// Whether the clause has the negation of a later variable that meets this one.
fn has_later<G: Grid>(universe: &Universe<G>, var: u32, clause: &[Lit]) -> bool
    requires number { (1 ≤ var) × (var ≤ length universe.now.vars) }
    requires variables { All (λ l. (1 ≤ l.var) × (l.var ≤ length universe.now.vars)) clause.now }
    ensures { IsTrue result ↔ HasLater universe.now.vars var clause.now }
{
    for lit in clause {
        if !lit.positive && have_pair(universe, var, lit.var) {
            return true;
        }
    }
    false
}

/// Whether the clause contains, as a set of literals, no clause of two variables that meet. For each two negated
/// variables at most 64 comparisons; it takes no memory.
pub(crate) fn has_no_pair<G: Grid>(universe: &Universe<G>, clause: &[Lit]) -> bool
    requires { IsClause (length universe.now.vars) clause.now }
    ensures { IsTrue result ↔ IsNew (pairs_of universe.now.vars) clause.now }
{
    for lit in clause {
        if !lit.positive && has_later(universe, lit.var, clause) {
            return false;
        }
    }
    true
}
