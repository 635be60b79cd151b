//! A bound on how many literals the clauses of family 3 have, found without a look at a cell.
ghost use Rattle.std.specs.Prelude.{◌≤◌, IsTrue, length, flat_map};
ghost use Rattle.std.specs.List.{enumerate_from};
ghost use Rattle.heesch_grid.specs.Clauses.{formula_size};
ghost use Rattle.heesch_grid.specs.CoronaFormula.{Variable, IsNumbered};
ghost use Rattle.heesch_encode.specs.Families.{support_at};
ghost use Rattle.heesch_encode.specs.Plans.{IsPlan};
ghost use Rattle.heesch_numbers.specs.OwnerCounts.{IsHoldersBound};

use crate::surround::surround_of;
use heesch_encode::Plan;
use heesch_grid::Grid;

/// At least as many as the clause of family 3 of a variable has literals, where no cell is in the tiles of more than
/// `most` variables: each of those that support the tile has one of the cells around it. A constant time.
fn support_bound<G: Grid>(plan: &Plan<G>, var: u32, most: u32) -> usize
    requires plan { IsPlan G.geometry plan.now.universe.now plan.now.shape.now plan.now.level plan.now.rings.now }
    requires number { (1 ≤ var) × (var ≤ length plan.now.universe.now.vars) }
    requires most { IsHoldersBound plan.now.universe.now.vars most }
    ensures { (x : Variable) → IsNumbered plan.now.universe.now.vars var x
        → formula_size (support_at G.geometry plan.now.universe.now.vars (var, x)) ≤ result }
{
    if plan.universe.level_of(var) < 2 {
        return 0;
    }
    let cells = surround_of(plan.rings, plan.universe, var);
    cells.len().saturating_mul(most as usize).saturating_add(1)
}

/// Whether the clauses of family 3 have at most `room` literals by that bound. A constant time for each variable.
pub(crate) fn supports_fit<G: Grid>(plan: &Plan<G>, most: u32, room: usize) -> bool
    requires plan { IsPlan G.geometry plan.now.universe.now plan.now.shape.now plan.now.level plan.now.rings.now }
    requires most { IsHoldersBound plan.now.universe.now.vars most }
    ensures { IsTrue result
        → formula_size (flat_map (support_at G.geometry plan.now.universe.now.vars)
        (enumerate_from 1 plan.now.universe.now.vars)) ≤ room }
{
    let mut left = room;
    for i in 0..plan.universe.count() {
        let bound = support_bound(plan, i + 1, most);
        if left < bound {
            return false;
        }
        left -= bound;
    }
    true
}
