//! The numbers of the clauses that reasons name.
ghost use Rattle.std.specs.Prelude.{◌≡◌, ◌+◌, ◌<◌, ◌≤◌, ◌^◌, length, Contains};
ghost use Rattle.heesch_cert.specs.Literals.{literals};
ghost use Rattle.heesch_cnf.specs.Lines.{numbered};
ghost use Rattle.heesch_grid.specs.Cells.{meet};
ghost use Rattle.heesch_grid.specs.CoronaFormula.{exclusion_clauses};
ghost use Rattle.heesch_torus.specs.Formula.{pair_clause};
ghost use Rattle.heesch_torus.specs.Variables.{sets_of};

use heesch_cnf::ClauseSource;
use heesch_grid::Grid;
use heesch_lazy::Reason;
use heesch_tori::TorusSource;

/// The number of the clause of this index, from 0, behind so many.
fn behind(count: u32, index: u32) -> u32
    ensures { count + index + 1 < 2 ^ 32 → result ≡ count + index + 1 }
{
    count.wrapping_add(index).wrapping_add(1)
}

/// The number of the clause of two variables that share a cell, the lower one first; 0 where there is none.
fn pair_number<G: Grid>(source: &TorusSource<G>, first: u32, second: u32) -> u32
    ensures { let s = source.now in 1 ≤ first → first ≤ length s.variables
        → Contains (exclusion_clauses literals meet (sets_of s.variables)) (pair_clause first second)
        → numbered s.formula.clauses result ≡ pair_clause first second }
{
    if first == 0 || first as usize > source.variables().len() {
        return 0;
    }
    match source.pair_number(first, second) {
        Some(number) => number,
        None => 0,
    }
}

/// The number of the clause that a reason names, where the wants are the reduced cells and the tiles the variables; 0
/// for one that no variable asks for, and for a pair of variables that share no cell.
pub(crate) fn clause_number<G: Grid>(source: &TorusSource<G>, reason: Reason) -> u32 {
    match reason {
        Reason::First { want } => behind(0, want),
        Reason::Asked { .. } => 0,
        Reason::Apart { tile, other } => pair_number(source, tile.min(other), tile.max(other)),
        Reason::Line { index } => behind(source.count() as u32, index),
    }
}
