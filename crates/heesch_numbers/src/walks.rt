//! What is left of a clause of families 1 to 3. Its literals are found by the cells, and looked at where they are
//! found.
ghost use Rattle.std.specs.Prelude.{◌≡◌, ◌+◌, ◌<◌, ◌≤◌, ◌&&◌, ◌==◌, ◌++◌, ℕ};
ghost use Rattle.std.specs.Prelude.{[], List, All, false, filter, length, not, slice_index_or, ◌∷◌};
ghost use Rattle.heesch_cnf.specs.declared.literal.Lit.{Lit};
ghost use Rattle.heesch_cnf.specs.Left.{IsLeft};
ghost use Rattle.heesch_cnf.specs.Literals.{held};
ghost use Rattle.heesch_grid.specs.declared.Cell.{Cell};
ghost use Rattle.heesch_grid.specs.Cells.{has, meet};
ghost use Rattle.heesch_grid.specs.Clauses.{clause_of, is_numbered, no_variable};
ghost use Rattle.heesch_grid.specs.CoronaFormula.{Variable, GivesCellsAround, IsNumbered, covers};
ghost use Rattle.heesch_grid.specs.Placement.{touch};
ghost use Rattle.heesch_cert.specs.Literals.{literals};
ghost use Rattle.heesch_encode.specs.Families.{covering_at};
ghost use Rattle.heesch_encode.specs.Literals.{plus_all};
ghost use Rattle.heesch_encode.specs.Plans.{IsPlan};
ghost use Rattle.heesch_numbers.specs.Common.{tile_of};
ghost use Rattle.heesch_numbers.specs.Seen.{IsSeen};

use crate::seen::{is_out, left_with, left_with_all};
use crate::surround::{cell_outside, surround_of};
use heesch_cnf::{Left, Lit};
use heesch_encode::{Plan, last_below, numbers_after};
use heesch_grid::{Cell, Grid};
use heesch_place::Universe;
use heesch_shape::Shape;

/// Of family 1: the clause of a cell around the shape.
pub(crate) fn left_of_first<G: Grid>(plan: &Plan<G>, c: Cell, values: &[Option<bool>]) -> Left
    requires { length plan.now.universe.now.vars < length values.now }
    ensures { IsLeft (held values.now) (clause_of literals no_variable
        (covers 1 c) plan.now.universe.now.vars) result }
{
    left_with_all(Left::Nothing, values, plan.universe.covered_by(c, 1))
}

/// The clause that where the variable is true, one of level at most `most` that has the cell is.
pub(crate) fn left_of_cover<G: Grid>(
    plan: &Plan<G>,
    var: u32,
    c: Cell,
    most: u32,
    values: &[Option<bool>],
) -> Left
    requires number { (1 ≤ var) × (var ≤ length plan.now.universe.now.vars) }
    requires room { length plan.now.universe.now.vars < length values.now }
    ensures { (x : Variable) → IsNumbered plan.now.universe.now.vars var x → has x.tile c ≡ false
        → IsLeft (held values.now) (clause_of literals (is_numbered var)
        (covers most c) plan.now.universe.now.vars) result }
{
    let negated = Lit {
        var,
        positive: false,
    };
    let left = left_with(Left::Nothing, values, negated);
    left_with_all(left, values, plan.universe.covered_by(c, most))
}

/// Of family 2: the clause of a variable and of the cell at a place among those around its tile and outside the shape.
pub(crate) fn left_of_covering<G: Grid>(
    plan: &Plan<G>,
    var: u32,
    place: u32,
    values: &[Option<bool>],
) -> Left
    requires plan { IsPlan G.geometry plan.now.universe.now plan.now.shape.now plan.now.level plan.now.rings.now }
    requires number { (1 ≤ var) × (var ≤ length plan.now.universe.now.vars) }
    requires place { (around : List Cell → List Cell) (x : Variable) → GivesCellsAround G.geometry around
        → IsNumbered plan.now.universe.now.vars var x
        → place < length (covering_at around plan.now.shape.now plan.now.level plan.now.universe.now.vars (var, x)) }
    requires room { length plan.now.universe.now.vars < length values.now }
    ensures { (around : List Cell → List Cell) (x : Variable) → GivesCellsAround G.geometry around
        → IsNumbered plan.now.universe.now.vars var x
        → IsLeft (held values.now) (slice_index_or
        (covering_at around plan.now.shape.now plan.now.level plan.now.universe.now.vars
        (var, x)) place []) result }
{
    let cells = surround_of(plan.rings, plan.universe, var);
    let c = cell_outside(plan.shape, &cells, place);
    // Reading the level tells the proof that it is small.
    let _top = plan.universe.level();
    left_of_cover(plan, var, c, plan.universe.level_of(var) + 1, values)
}

/// What is left with the variable too, where its tile is apart from this one.
fn left_with_apart<G: Grid>(
    left: Left,
    values: &[Option<bool>],
    universe: &Universe<G>,
    tile: &Shape<G>,
    var: u32,
) -> Left
    requires number { (1 ≤ var) × (var ≤ length universe.now.vars) }
    requires room { length universe.now.vars < length values.now }
    ensures { (seen : List Lit) → IsSeen (held values.now) seen left
        → IsSeen (held values.now) (seen ++ plus_all (filter (λ n. not (meet
        (tile_of universe.now.vars n) tile.now)) (var ∷ []))) result }
{
    let lit = Lit {
        var,
        positive: true,
    };
    if is_out(values, lit) {
        return left;
    }
    if universe.placement_of(var).shape().meets(tile) {
        return left;
    }
    left_with(left, values, lit)
}

/// The same with each of these variables. It stops where two are left.
fn left_with_all_apart<G: Grid>(
    left: Left,
    values: &[Option<bool>],
    universe: &Universe<G>,
    tile: &Shape<G>,
    numbers: &[u32],
) -> Left
    requires numbers { All (λ n. (1 ≤ n) × (n ≤ length universe.now.vars)) numbers.now }
    requires room { length universe.now.vars < length values.now }
    ensures { (seen : List Lit) → IsSeen (held values.now) seen left
        → IsSeen (held values.now) (seen ++ plus_all (filter (λ n. not (meet
        (tile_of universe.now.vars n) tile.now)) numbers.now)) result }
{
    let mut now = left;
    for var in numbers {
        now = left_with_apart(now, values, universe, tile, *var);
        if let Left::More = now {
            return now;
        }
    }
    now
}

/// Of family 3: the clause of a variable of level 2 or more. Those of the level below are found by the cells around
/// its tile.
pub(crate) fn left_of_support<G: Grid>(plan: &Plan<G>, var: u32, values: &[Option<bool>]) -> Left
    requires plan { IsPlan G.geometry plan.now.universe.now plan.now.shape.now plan.now.level plan.now.rings.now }
    requires number { (1 ≤ var) × (var ≤ length plan.now.universe.now.vars) }
    requires level { (x : Variable) → IsNumbered plan.now.universe.now.vars var x → 2 ≤ x.level }
    requires room { length plan.now.universe.now.vars < length values.now }
    ensures { (x : Variable) → IsNumbered plan.now.universe.now.vars var x
        → IsLeft (held values.now) (clause_of literals (is_numbered var) (λ y.
        (y.1.level + 1 == x.level) && touch G.geometry y.1.tile x.tile) plan.now.universe.now.vars) result }
{
    let universe = plan.universe;
    let below = universe.level_of(var) - 1;
    let above = last_below(universe, below);
    let tile = universe.placement_of(var).shape();
    let cells = surround_of(plan.rings, universe, var);
    let negated = Lit {
        var,
        positive: false,
    };
    let mut left = left_with(Left::Nothing, values, negated);
    for i in 0..cells.len() {
        let numbers = numbers_after(universe.covered_by(cells.at(i), below), above);
        left = left_with_all_apart(left, values, universe, tile, numbers);
        if let Left::More = left {
            return left;
        }
    }
    left
}
