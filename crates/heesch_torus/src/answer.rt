//! The search for a cover of a triple.
ghost use Rattle.std.specs.Prelude.{◌≡◌, ◌≤◌, true, length, IfOk};
ghost use Rattle.heesch_grid.specs.declared.Cell.{Cell};
ghost use Rattle.heesch_grid.specs.Cells.{has};
ghost use Rattle.heesch_grid.specs.Vectors.{IsWithin};
ghost use Rattle.heesch_torus.specs.Domain.{HasDomain};
ghost use Rattle.heesch_torus.specs.Answer.{IsTorusAnswer};

use crate::formula::formula_with_variables;
use crate::outcome::{Outcome, solve};
use crate::places::chosen_tiling;
use heesch_cert::Tiling;
use heesch_cnf::Log;
use heesch_grid::Grid;
use heesch_io::NoMemory;
use heesch_lattice::Triple;
use heesch_shape::Shape;
use std::alloc::Global;

/// Whether there is a cover for a triple.
#[derive(Drop)]
pub enum TorusAnswer {
    /// A cover.
    Tiles { tiling: Tiling },
    /// There is none: the log refutes the torus formula.
    None { log: Log },
    /// The turns are used up: the log has as many lines, each of them new, and no final line holds.
    Spent { log: Log },
}

/// Searches for a cover of a triple by the torus formula, for so many turns, 1 to 1,000,000.
///
/// Tiles has a periodic cover: its places are the isometries of residue sets in number order, each
/// the first within the triple by turn, db and da that gives its set. None comes only where the
/// triple has no cover, with a log of Learn lines that refutes the torus formula. Spent comes only
/// with a log of as many Learn lines as turns over which no final line holds, whatever its hints, and
/// so never where the turns are more than 3 to the power of the number of the formula's variables. No
/// line contains a clause before it. Condition: the cells lie within 100,000 of 0, and the triple is
/// one of a domain of 1 to 12 tiles.
///
/// Cost: that of the torus formula, and of the solver's search.
pub fn search<G: Grid>(
    alloc: Global,
    shape: &Shape<G>,
    triple: Triple,
    turns: u32,
) -> Result<TorusAnswer, NoMemory>
    requires near { (c : Cell) → has shape.now c ≡ true → IsWithin 100000 c }
    requires domain { HasDomain G.geometry (length shape.now) triple }
    requires some { 1 ≤ turns }
    requires few { turns ≤ 1000000 }
    ensures { IfOk result (IsTorusAnswer G.geometry shape.now triple turns) }
{
    let (formula, variables) = formula_with_variables(alloc, shape, triple)?;
    let outcome = solve(alloc, formula, turns)?;
    match outcome {
        Outcome::Model { values } => {
            let tiling = chosen_tiling(alloc, triple, variables.as_slice(), values.as_slice())?;
            Ok(TorusAnswer::Tiles { tiling })
        }
        Outcome::Refuted { log } => Ok(TorusAnswer::None { log }),
        Outcome::Spent { log } => Ok(TorusAnswer::Spent { log }),
    }
}
