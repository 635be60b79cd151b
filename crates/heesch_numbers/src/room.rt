//! Whether the clauses of families 1 to 3 have at most so many literals, counted by the cells.
ghost use Rattle.std.specs.Prelude.{◌≡◌, ◌≤◌, ◌^◌, ◌↔◌, ℕ, List, IfOk, IsTrue, OnOk, length, map, min, flat_map};
ghost use Rattle.std.specs.List.{enumerate_from};
ghost use Rattle.heesch_grid.specs.declared.Cell.{Cell};
ghost use Rattle.heesch_grid.specs.Clauses.{clause_of, formula_size, no_variable};
ghost use Rattle.heesch_grid.specs.CoronaFormula.{Variable, GivesCellsAround, IsNumbered, covers};
ghost use Rattle.heesch_cert.specs.Literals.{literals};
ghost use Rattle.heesch_encode.specs.Families.{covering_at, support_at};
ghost use Rattle.heesch_encode.specs.Marks.{AreUnmarked};
ghost use Rattle.heesch_encode.specs.Plans.{IsPlan};
ghost use Rattle.heesch_numbers.specs.Common.{common_of};

use crate::surround::surround_of;
use heesch_encode::{Marks, Plan, list_supporting, write_moved};
use heesch_grid::{Cell, Grid};
use heesch_io::NoMemory;
use std::alloc::Global;

/// How many literals the clauses of family 1 have for these cells, or `most` where there are more.
fn first_size<G: Grid>(plan: &Plan<G>, cells: &[Cell], most: usize) -> usize
    requires { most ≤ 2 ^ 32 }
    ensures { result ≡ min (formula_size (map (λ c. clause_of literals no_variable
        (covers 1 c) plan.now.universe.now.vars) cells.now)) most }
{
    let mut size = 0;
    for c in cells {
        size = (size + plan.universe.covered_by(*c, 1).len()).min(most);
    }
    size
}

/// The same of the clauses of family 2 of a variable.
fn covering_size<G: Grid>(plan: &Plan<G>, var: u32, most: usize) -> usize
    requires plan { IsPlan G.geometry plan.now.universe.now plan.now.shape.now plan.now.level plan.now.rings.now }
    requires number { (1 ≤ var) × (var ≤ length plan.now.universe.now.vars) }
    requires most { most ≤ 2 ^ 32 }
    ensures { (around : List Cell → List Cell) (x : Variable) → GivesCellsAround G.geometry around
        → IsNumbered plan.now.universe.now.vars var x
        → result ≡ min (formula_size
        (covering_at around plan.now.shape.now plan.now.level plan.now.universe.now.vars (var, x))) most }
{
    let of = plan.universe.level_of(var);
    if of >= plan.level {
        return 0;
    }
    let cells = surround_of(plan.rings, plan.universe, var);
    let mut size = 0;
    for i in 0..cells.len() {
        let c = cells.at(i);
        if !plan.shape.has(c) {
            size = (size + plan.universe.covered_by(c, of + 1).len() + 1).min(most);
        }
    }
    size
}

/// The same of the clauses of family 2 of all variables. It stops where there are more.
fn covering_sizes<G: Grid>(plan: &Plan<G>, most: usize) -> usize
    requires plan { IsPlan G.geometry plan.now.universe.now plan.now.shape.now plan.now.level plan.now.rings.now }
    requires most { most ≤ 2 ^ 32 }
    ensures { (around : List Cell → List Cell) → GivesCellsAround G.geometry around
        → result ≡ min (formula_size (flat_map
        (covering_at around plan.now.shape.now plan.now.level plan.now.universe.now.vars)
        (enumerate_from 1 plan.now.universe.now.vars))) most }
{
    let mut size = 0;
    for i in 0..plan.universe.count() {
        size = (size + covering_size(plan, i + 1, most)).min(most);
        if size == most {
            return most;
        }
    }
    size
}

/// Lists and marks that are used again for each variable.
#[derive(Drop)]
struct Finder {
    ring: Vec<Cell>,
    numbers: Vec<u32>,
    marks: Marks,
}

/// How many literals the clause of family 3 of a variable has, or 0 where it has none.
fn support_size<G: Grid>(plan: &Plan<G>, var: u32, finder: &mut Finder) -> Result<usize, NoMemory>
    requires plan { IsPlan G.geometry plan.now.universe.now plan.now.shape.now plan.now.level plan.now.rings.now }
    requires number { (1 ≤ var) × (var ≤ length plan.now.universe.now.vars) }
    requires unmarked { AreUnmarked (length plan.now.universe.now.vars) finder.old.marks.words.items }
    ensures unmarked { OnOk result (AreUnmarked (length plan.now.universe.now.vars) finder.new.marks.words.items) }
    ensures size { (x : Variable) → IsNumbered plan.now.universe.now.vars var x → IfOk result (λ size. size
        ≡ formula_size (support_at G.geometry plan.now.universe.now.vars (var, x))) }
    ensures small { IfOk result (λ size. size ≤ 2 ^ 62) }
{
    let of = plan.universe.level_of(var);
    if of < 2 {
        return Ok(0);
    }
    let tile = plan.universe.placement_of(var).shape();
    write_moved(&mut finder.ring, plan.rings, plan.universe, var)?;
    list_supporting(
        &mut finder.numbers,
        &mut finder.marks,
        plan.universe,
        tile,
        &finder.ring,
        of - 1,
    )?;
    Ok(finder.numbers.len() + 1)
}

/// How many literals the clauses of family 3 have, or `most` where there are more. It stops there.
fn support_sizes<G: Grid>(alloc: Global, plan: &Plan<G>, most: usize) -> Result<usize, NoMemory>
    requires plan { IsPlan G.geometry plan.now.universe.now plan.now.shape.now plan.now.level plan.now.rings.now }
    requires most { most ≤ 2 ^ 32 }
    ensures { IfOk result (λ size. size
        ≡ min (formula_size (flat_map (support_at G.geometry plan.now.universe.now.vars)
        (enumerate_from 1 plan.now.universe.now.vars))) most) }
{
    let mut finder = Finder {
        ring: Vec::new(alloc),
        numbers: Vec::new(alloc),
        marks: Marks::new(alloc, plan.universe.count())?,
    };
    let mut size = 0;
    for i in 0..plan.universe.count() {
        size = (size + support_size(plan, i + 1, &mut finder)?).min(most);
        if size == most {
            return Ok(most);
        }
    }
    Ok(size)
}

/// Whether the clauses of the three families, the first over these cells around the shape, have at most so many
/// literals. Families 1 and 2 come first, whose counts take no memory.
pub(crate) fn are_within<G: Grid>(
    alloc: Global,
    plan: &Plan<G>,
    first: &[Cell],
    room: u32,
) -> Result<bool, NoMemory>
    requires plan { IsPlan G.geometry plan.now.universe.now plan.now.shape.now plan.now.level plan.now.rings.now }
    requires first { (around : List Cell → List Cell) → GivesCellsAround G.geometry around → first.now
        ≡ around plan.now.universe.now.shape }
    ensures { (around : List Cell → List Cell) → GivesCellsAround G.geometry around
        → IfOk result (λ yes. IsTrue yes ↔ (formula_size (common_of G.geometry around plan.now.universe.now) ≤ room)) }
{
    let most = room as usize + 1;
    let size = first_size(plan, first, most) + covering_sizes(plan, most);
    if size >= most {
        return Ok(false);
    }
    let supports = support_sizes(alloc, plan, most)?;
    Ok(size + supports < most)
}
