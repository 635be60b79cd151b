//! The families of clauses.
ghost use Rattle.std.specs.Prelude.{◌≡◌, ◌+◌, ◌≤◌, ◌<◌, ◌^◌, ℕ, List, All, OnOk, length, flat_map, sum_by};
ghost use Rattle.std.specs.List.{enumerate_from};
ghost use Rattle.heesch_grid.specs.declared.Cell.{Cell};
ghost use Rattle.heesch_grid.specs.CoronaFormula.{Variable, GivesCellsAround, first_clauses, corona_clauses};
ghost use Rattle.heesch_grid.specs.CoronaFormula.{IsNumbered};
ghost use Rattle.heesch_grid.specs.OwnerFormula.{IsOwned, owner_count, owned_corona_clauses};
ghost use Rattle.heesch_cert.specs.Literals.{literals};
ghost use Rattle.heesch_encode.specs.Marks.{AreUnmarked};
ghost use Rattle.heesch_encode.specs.Plans.{IsPlan};
ghost use Rattle.heesch_encode.specs.Taking.{IsTaken};
ghost use Rattle.heesch_encode.specs.Families.{covering_at, support_at, apart_at, clauses_at};
ghost use Rattle.heesch_encode.specs.Owners.{common_clauses};

use crate::around::write_moved;
use crate::clauses::{minus, write_choice, write_implication};
use crate::collector::Collector;
use crate::desk::Desk;
use crate::marks::Marks;
use crate::meeting::{list_meeting, list_supporting};
use crate::owners::take_owners;
use crate::plan::Plan;
use crate::ring::write_ring;
use crate::stop::EncodeStop;
use heesch_cnf::PackedLit;
use heesch_grid::{Cell, Grid};

/// The families that go by variables.
#[derive(Clone, Copy)]
pub(crate) enum Family {
    /// Each cell around a chosen tile is covered.
    Covering,
    /// A chosen tile touches one of the level below.
    Support,
    /// Of two tiles that meet one isn't chosen.
    Apart,
}

/// Each cell around the shape is covered at level 1.
fn take_first<G: Grid>(
    plan: &Plan<G>,
    ring: &mut Vec<Cell>,
    clause: &mut Vec<PackedLit>,
    collector: &mut Collector,
) -> Result<(), EncodeStop>
    requires plan { IsPlan G.geometry plan.now.universe.now plan.now.shape.now plan.now.level plan.now.rings.now }
    requires vars { length plan.now.universe.now.vars ≤ collector.old.formula.vars }
    ensures { (around : List Cell → List Cell) → GivesCellsAround G.geometry around
        → IsTaken result collector.old collector.new
        (first_clauses literals around plan.now.shape.now plan.now.universe.now.vars) }
{
    write_ring(ring, plan.shape)?;
    for c in ring.as_slice() {
        write_choice(clause, plan.universe.covered_by(*c, 1))?;
        collector.take(clause.as_slice())?;
    }
    Ok(())
}

/// Where the variable is true and of a level below the plan's, each cell around its tile and outside the shape is
/// covered one level above it or below.
fn take_covering<G: Grid>(
    plan: &Plan<G>,
    var: u32,
    ring: &mut Vec<Cell>,
    clause: &mut Vec<PackedLit>,
    collector: &mut Collector,
) -> Result<(), EncodeStop>
    requires plan { IsPlan G.geometry plan.now.universe.now plan.now.shape.now plan.now.level plan.now.rings.now }
    requires number { (1 ≤ var) × (var ≤ length plan.now.universe.now.vars) }
    requires vars { length plan.now.universe.now.vars ≤ collector.old.formula.vars }
    ensures { (around : List Cell → List Cell) (x : Variable) → GivesCellsAround G.geometry around
        → IsNumbered plan.now.universe.now.vars var x
        → IsTaken result collector.old collector.new
        (covering_at around plan.now.shape.now plan.now.level plan.now.universe.now.vars (var, x)) }
{
    let of = plan.universe.level_of(var);
    if of >= plan.level {
        return Ok(());
    }
    write_moved(ring, plan.rings, plan.universe, var)?;
    for c in ring.as_slice() {
        if !plan.shape.has(*c) {
            write_implication(clause, var, plan.universe.covered_by(*c, of + 1))?;
            collector.take(clause.as_slice())?;
        }
    }
    Ok(())
}

/// Where the variable is true and of level 2 or more, one of the level below whose tile touches its own is.
fn take_support<G: Grid>(plan: &Plan<G>, var: u32, desk: &mut Desk) -> Result<(), EncodeStop>
    requires plan { IsPlan G.geometry plan.now.universe.now plan.now.shape.now plan.now.level plan.now.rings.now }
    requires number { (1 ≤ var) × (var ≤ length plan.now.universe.now.vars) }
    requires vars { length plan.now.universe.now.vars ≤ desk.old.collector.formula.vars }
    requires unmarked { AreUnmarked (length plan.now.universe.now.vars) desk.old.marks.words.items }
    ensures unmarked { OnOk result (AreUnmarked (length plan.now.universe.now.vars) desk.new.marks.words.items) }
    ensures taken { (x : Variable) → IsNumbered plan.now.universe.now.vars var x
        → IsTaken result desk.old.collector desk.new.collector
        (support_at G.geometry plan.now.universe.now.vars (var, x)) }
{
    let of = plan.universe.level_of(var);
    if of < 2 {
        return Ok(());
    }
    let tile = plan.universe.placement_of(var).shape();
    write_moved(&mut desk.ring, plan.rings, plan.universe, var)?;
    list_supporting(
        &mut desk.numbers,
        &mut desk.marks,
        plan.universe,
        tile,
        &desk.ring,
        of - 1,
    )?;
    write_implication(&mut desk.clause, var, &desk.numbers)?;
    desk.collector.take(&desk.clause)
}

/// Not both the variable and a later one whose tile meets its own.
fn take_apart<G: Grid>(
    plan: &Plan<G>,
    var: u32,
    numbers: &mut Vec<u32>,
    marks: &mut Marks,
    collector: &mut Collector,
) -> Result<(), EncodeStop>
    requires plan { IsPlan G.geometry plan.now.universe.now plan.now.shape.now plan.now.level plan.now.rings.now }
    requires number { (1 ≤ var) × (var ≤ length plan.now.universe.now.vars) }
    requires vars { length plan.now.universe.now.vars ≤ collector.old.formula.vars }
    requires unmarked { AreUnmarked (length plan.now.universe.now.vars) marks.old.words.items }
    ensures unmarked { OnOk result (AreUnmarked (length plan.now.universe.now.vars) marks.new.words.items) }
    ensures taken { (x : Variable) → IsNumbered plan.now.universe.now.vars var x
        → IsTaken result collector.old collector.new (apart_at plan.now.universe.now.vars (var, x)) }
{
    let cells = plan.universe.placement_of(var).shape().cells();
    list_meeting(numbers, marks, plan.universe, cells, var, plan.level)?;
    for other in numbers.as_slice() {
        collector.take(&[minus(var), minus(*other)])?;
    }
    Ok(())
}

/// The clauses of a family for one variable.
fn take_of<G: Grid>(
    plan: &Plan<G>,
    family: Family,
    var: u32,
    desk: &mut Desk,
) -> Result<(), EncodeStop>
    requires plan { IsPlan G.geometry plan.now.universe.now plan.now.shape.now plan.now.level plan.now.rings.now }
    requires number { (1 ≤ var) × (var ≤ length plan.now.universe.now.vars) }
    requires vars { length plan.now.universe.now.vars ≤ desk.old.collector.formula.vars }
    requires unmarked { AreUnmarked (length plan.now.universe.now.vars) desk.old.marks.words.items }
    ensures unmarked { OnOk result (AreUnmarked (length plan.now.universe.now.vars) desk.new.marks.words.items) }
    ensures taken { (around : List Cell → List Cell) (x : Variable) → GivesCellsAround G.geometry around
        → IsNumbered plan.now.universe.now.vars var x
        → IsTaken result desk.old.collector desk.new.collector
        (clauses_at family G.geometry around plan.now.shape.now plan.now.level plan.now.universe.now.vars (var, x)) }
{
    let collector = &mut desk.collector;
    match family {
        Family::Covering => take_covering(plan, var, &mut desk.ring, &mut desk.clause, collector),
        Family::Support => take_support(plan, var, desk),
        Family::Apart => take_apart(plan, var, &mut desk.numbers, &mut desk.marks, collector),
    }
}

/// The clauses of a family, by variables.
fn take_family<G: Grid>(plan: &Plan<G>, family: Family, desk: &mut Desk) -> Result<(), EncodeStop>
    requires plan { IsPlan G.geometry plan.now.universe.now plan.now.shape.now plan.now.level plan.now.rings.now }
    requires vars { length plan.now.universe.now.vars ≤ desk.old.collector.formula.vars }
    requires unmarked { AreUnmarked (length plan.now.universe.now.vars) desk.old.marks.words.items }
    ensures unmarked { OnOk result (AreUnmarked (length plan.now.universe.now.vars) desk.new.marks.words.items) }
    ensures taken { (around : List Cell → List Cell) → GivesCellsAround G.geometry around
        → IsTaken result desk.old.collector desk.new.collector
        (flat_map (clauses_at family G.geometry around plan.now.shape.now plan.now.level plan.now.universe.now.vars)
        (enumerate_from 1 plan.now.universe.now.vars)) }
{
    for i in 0..plan.universe.count() {
        take_of(plan, family, i + 1, desk)?;
    }
    Ok(())
}

/// The clauses of the first three families, which both formulas have.
fn take_common<G: Grid>(plan: &Plan<G>, desk: &mut Desk) -> Result<(), EncodeStop>
    requires plan { IsPlan G.geometry plan.now.universe.now plan.now.shape.now plan.now.level plan.now.rings.now }
    requires vars { length plan.now.universe.now.vars ≤ desk.old.collector.formula.vars }
    requires unmarked { AreUnmarked (length plan.now.universe.now.vars) desk.old.marks.words.items }
    ensures unmarked { OnOk result (AreUnmarked (length plan.now.universe.now.vars) desk.new.marks.words.items) }
    ensures taken { (around : List Cell → List Cell) → GivesCellsAround G.geometry around
        → IsTaken result desk.old.collector desk.new.collector
        (common_clauses G.geometry around plan.now.shape.now plan.now.level plan.now.universe.now.vars) }
{
    take_first(plan, &mut desk.ring, &mut desk.clause, &mut desk.collector)?;
    take_family(plan, Family::Covering, desk)?;
    take_family(plan, Family::Support, desk)
}

/// The clauses of the first formula, family by family.
pub(crate) fn take_formula<G: Grid>(plan: &Plan<G>, desk: &mut Desk) -> Result<(), EncodeStop>
    requires plan { IsPlan G.geometry plan.now.universe.now plan.now.shape.now plan.now.level plan.now.rings.now }
    requires vars { length plan.now.universe.now.vars ≤ desk.old.collector.formula.vars }
    requires unmarked { AreUnmarked (length plan.now.universe.now.vars) desk.old.marks.words.items }
    ensures { (around : List Cell → List Cell) → GivesCellsAround G.geometry around
        → IsTaken result desk.old.collector desk.new.collector
        (corona_clauses literals G.geometry around plan.now.shape.now plan.now.level plan.now.universe.now.vars) }
{
    take_common(plan, desk)?;
    take_family(plan, Family::Apart, desk)
}

/// The clauses of the second formula, family by family.
pub(crate) fn take_owner_formula<G: Grid>(
    plan: &Plan<G>,
    owned: &[Cell],
    desk: &mut Desk,
) -> Result<(), EncodeStop>
    requires plan { IsPlan G.geometry plan.now.universe.now plan.now.shape.now plan.now.level plan.now.rings.now }
    requires owned { All (IsOwned plan.now.universe.now.vars) owned.now }
    requires vars { desk.old.collector.formula.vars ≡ length plan.now.universe.now.vars + sum_by
        (owner_count plan.now.universe.now.vars) owned.now }
    requires small { desk.old.collector.formula.vars < 2 ^ 31 }
    requires unmarked { AreUnmarked (length plan.now.universe.now.vars) desk.old.marks.words.items }
    ensures { (around : List Cell → List Cell) → GivesCellsAround G.geometry around
        → IsTaken result desk.old.collector desk.new.collector
        (owned_corona_clauses literals G.geometry around plan.now.shape.now plan.now.level plan.now.universe.now.vars
        owned.now) }
{
    take_common(plan, desk)?;
    take_owners(plan.universe, owned, &mut desk.collector)
}
