//! How many clauses of family 2 each variable has.
ghost use Rattle.std.specs.Prelude.{◌≡◌, ◌<◌, ◌≤◌, ◌^◌, List, IfOk, length};
ghost use Rattle.heesch_grid.specs.declared.Cell.{Cell};
ghost use Rattle.heesch_grid.specs.CoronaFormula.{Variable, GivesCellsAround, IsNumbered};
ghost use Rattle.heesch_encode.specs.Families.{covering_at};
ghost use Rattle.heesch_encode.specs.Plans.{IsPlan};
ghost use Rattle.heesch_numbers.specs.Common.{covering_counts};

use crate::prefix::Prefix;
use crate::surround::{count_outside, surround_of};
use heesch_encode::Plan;
use heesch_grid::Grid;
use heesch_io::NoMemory;
use std::alloc::Global;

/// How many a variable has: none where it is of the last level, and else the cells around its tile and outside the
/// shape.
fn count_of<G: Grid>(plan: &Plan<G>, var: u32) -> usize
    requires plan { IsPlan G.geometry plan.now.universe.now plan.now.shape.now plan.now.level plan.now.rings.now }
    requires number { (1 ≤ var) × (var ≤ length plan.now.universe.now.vars) }
    ensures { (around : List Cell → List Cell) (x : Variable) → GivesCellsAround G.geometry around
        → IsNumbered plan.now.universe.now.vars var x
        → result ≡ length (covering_at around plan.now.shape.now plan.now.level plan.now.universe.now.vars (var, x)) }
{
    let of = plan.universe.level_of(var);
    if of >= plan.level {
        return 0;
    }
    let cells = surround_of(plan.rings, plan.universe, var);
    count_outside(plan.shape, &cells)
}

/// How many each variable has. 2^32 or more in all count as want of memory.
pub(crate) fn counts_of<G: Grid>(alloc: Global, plan: &Plan<G>) -> Result<Prefix, NoMemory>
    requires { IsPlan G.geometry plan.now.universe.now plan.now.shape.now plan.now.level plan.now.rings.now }
    ensures { (around : List Cell → List Cell) → GivesCellsAround G.geometry around
        → IfOk result (λ counts. counts ≡ covering_counts around plan.now.universe.now) }
{
    let mut counts = Prefix::new(alloc);
    for i in 0..plan.universe.count() {
        let count = count_of(plan, i + 1);
        if count > u32::MAX as usize {
            return Err(NoMemory);
        }
        counts.push(count as u32)?;
    }
    Ok(counts)
}
