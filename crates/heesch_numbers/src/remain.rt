//! Whether each clause of families 1 to 3 has a literal that isn't false.
ghost use Rattle.std.specs.Prelude.{◌≡◌, ◌<◌, ◌≤◌, ◌+◌, ◌∷◌, [], ℕ, List};
ghost use Rattle.std.specs.Prelude.{All, false, not, cond, Contains, MatchBool, map, length};
ghost use Rattle.heesch_cnf.specs.Literals.{held};
ghost use Rattle.heesch_grid.specs.declared.Cell.{Cell};
ghost use Rattle.heesch_grid.specs.Cells.{has};
ghost use Rattle.heesch_grid.specs.Clauses.{clause_of, is_numbered, no_variable};
ghost use Rattle.heesch_grid.specs.CoronaFormula.{Variable, GivesCellsAround, IsNumbered, covers};
ghost use Rattle.heesch_cert.specs.Literals.{literals};
ghost use Rattle.heesch_encode.specs.Families.{covering_at, support_at};
ghost use Rattle.heesch_encode.specs.Plans.{IsPlan};
ghost use Rattle.heesch_numbers.specs.Common.{AllRemain, VariableRemains};

use crate::seen::remains;
use crate::surround::surround_of;
use crate::walks::{left_of_cover, left_of_first, left_of_support};
use heesch_cnf::Lit;
use heesch_encode::Plan;
use heesch_grid::{Cell, Grid};

/// Of family 1, over these cells.
pub(crate) fn first_remain<G: Grid>(plan: &Plan<G>, cells: &[Cell], values: &[Option<bool>]) -> bool
    requires room { length plan.now.universe.now.vars < length values.now }
    ensures { let clauses = map (λ c. clause_of literals no_variable
        (covers 1 c) plan.now.universe.now.vars) cells.now in
        MatchBool result (AllRemain (held values.now) clauses) (¬ AllRemain (held values.now) clauses) }
{
    for c in cells {
        if !remains(left_of_first(plan, *c, values)) {
            return false;
        }
    }
    true
}

/// Of family 2, that of a variable and of a cell around its tile, if the cell lies outside the shape.
fn cell_remains<G: Grid>(
    plan: &Plan<G>,
    var: u32,
    c: Cell,
    most: u32,
    values: &[Option<bool>],
) -> bool
    requires number { (1 ≤ var) × (var ≤ length plan.now.universe.now.vars) }
    requires room { length plan.now.universe.now.vars < length values.now }
    ensures { (x : Variable) → IsNumbered plan.now.universe.now.vars var x → has x.tile c ≡ false →
        let clauses = cond (not (has plan.now.shape.now c)) (clause_of literals (is_numbered var)
        (covers most c) plan.now.universe.now.vars ∷ []) [] in
        MatchBool result (AllRemain (held values.now) clauses) (¬ AllRemain (held values.now) clauses) }
{
    if plan.shape.has(c) {
        return true;
    }
    remains(left_of_cover(plan, var, c, most, values))
}

/// Of family 2, those of a variable.
fn covering_remain<G: Grid>(plan: &Plan<G>, var: u32, values: &[Option<bool>]) -> bool
    requires plan { IsPlan G.geometry plan.now.universe.now plan.now.shape.now plan.now.level plan.now.rings.now }
    requires number { (1 ≤ var) × (var ≤ length plan.now.universe.now.vars) }
    requires room { length plan.now.universe.now.vars < length values.now }
    ensures { (around : List Cell → List Cell) (x : Variable) → GivesCellsAround G.geometry around
        → IsNumbered plan.now.universe.now.vars var x →
        let clauses = covering_at around plan.now.shape.now plan.now.level plan.now.universe.now.vars (var, x) in
        MatchBool result (AllRemain (held values.now) clauses) (¬ AllRemain (held values.now) clauses) }
{
    let of = plan.universe.level_of(var);
    if of >= plan.level {
        return true;
    }
    let cells = surround_of(plan.rings, plan.universe, var);
    for i in 0..cells.len() {
        let c = cells.at(i);
        if !cell_remains(plan, var, c, of + 1, values) {
            return false;
        }
    }
    true
}

/// Of family 3, that of a variable, if it has one.
fn support_remains<G: Grid>(plan: &Plan<G>, var: u32, values: &[Option<bool>]) -> bool
    requires plan { IsPlan G.geometry plan.now.universe.now plan.now.shape.now plan.now.level plan.now.rings.now }
    requires number { (1 ≤ var) × (var ≤ length plan.now.universe.now.vars) }
    requires room { length plan.now.universe.now.vars < length values.now }
    ensures { (x : Variable) → IsNumbered plan.now.universe.now.vars var x →
        let clauses = support_at G.geometry plan.now.universe.now.vars (var, x) in
        MatchBool result (AllRemain (held values.now) clauses) (¬ AllRemain (held values.now) clauses) }
{
    let of = plan.universe.level_of(var);
    if of < 2 {
        return true;
    }
    remains(left_of_support(plan, var, values))
}

/// Those of a variable.
fn variable_remains<G: Grid>(plan: &Plan<G>, var: u32, values: &[Option<bool>]) -> bool
    requires plan { IsPlan G.geometry plan.now.universe.now plan.now.shape.now plan.now.level plan.now.rings.now }
    requires number { (1 ≤ var) × (var ≤ length plan.now.universe.now.vars) }
    requires room { length plan.now.universe.now.vars < length values.now }
    ensures { (around : List Cell → List Cell) (x : Variable) → GivesCellsAround G.geometry around
        → IsNumbered plan.now.universe.now.vars var x →
        let remains = VariableRemains (held values.now) G.geometry around plan.now.universe.now (var, x) in
        MatchBool result remains (¬ remains) }
{
    if !covering_remain(plan, var, values) {
        return false;
    }
    support_remains(plan, var, values)
}

/// Those of the variable that the literal negates, if it negates one of the universe.
fn negated_remains<G: Grid>(plan: &Plan<G>, lit: Lit, values: &[Option<bool>]) -> bool
    requires plan { IsPlan G.geometry plan.now.universe.now plan.now.shape.now plan.now.level plan.now.rings.now }
    requires variable { 1 ≤ lit.var }
    requires room { length plan.now.universe.now.vars < length values.now }
    ensures { (around : List Cell → List Cell) → GivesCellsAround G.geometry around →
        let remain = (n : ℕ) (x : Variable) → IsNumbered plan.now.universe.now.vars n x → lit ≡ literals.minus n
        → VariableRemains (held values.now) G.geometry around plan.now.universe.now (n, x) in
        MatchBool result remain (¬ remain) }
{
    if lit.positive {
        return true;
    }
    let count = plan.universe.count();
    if lit.var > count {
        return true;
    }
    variable_remains(plan, lit.var, values)
}

/// Those of the variables that the clause has negated.
pub(crate) fn all_negated_remain<G: Grid>(
    plan: &Plan<G>,
    clause: &[Lit],
    values: &[Option<bool>],
) -> bool
    requires plan { IsPlan G.geometry plan.now.universe.now plan.now.shape.now plan.now.level plan.now.rings.now }
    requires variables { All (λ l. 1 ≤ l.var) clause.now }
    requires room { length plan.now.universe.now.vars < length values.now }
    ensures { (around : List Cell → List Cell) → GivesCellsAround G.geometry around →
        let remain = (n : ℕ) (x : Variable) → IsNumbered plan.now.universe.now.vars n x
        → Contains clause.now (literals.minus n)
        → VariableRemains (held values.now) G.geometry around plan.now.universe.now (n, x) in
        MatchBool result remain (¬ remain) }
{
    for lit in clause {
        if !negated_remains(plan, *lit, values) {
            return false;
        }
    }
    true
}
