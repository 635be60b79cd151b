//! The search for a cover of a triple.
ghost use Rattle.std.specs.Prelude.{◌≡◌, ◌≤◌, true, length, IfOk, IfSome};
ghost use Rattle.heesch_grid.specs.declared.Cell.{Cell};
ghost use Rattle.heesch_grid.specs.Cells.{has};
ghost use Rattle.heesch_grid.specs.Vectors.{IsWithin};
ghost use Rattle.heesch_torus.specs.Domain.{HasDomain};
ghost use Rattle.heesch_torus.specs.Answer.{IsTorusAnswer};

use crate::judge::{is_spent_alone, refutes_alone};
use crate::log::searched_log;
use heesch_grid::Grid;
use heesch_io::NoMemory;
use heesch_lattice::Triple;
use heesch_shape::Shape;
use heesch_tori::TorusSource;
use heesch_torus::TorusAnswer;
use std::alloc::Global;

/// The answer that the search over the geometry proposes, where it is found true.
fn judged_answer<G: Grid>(
    alloc: Global,
    shape: &Shape<G>,
    triple: Triple,
    turns: u32,
) -> Result<Option<TorusAnswer>, NoMemory>
    requires near { (c : Cell) → has shape.now c ≡ true → IsWithin 100000 c }
    requires domain { HasDomain G.geometry (length shape.now) triple }
    ensures { IfOk result (λ answer. IfSome answer (IsTorusAnswer G.geometry shape.now triple turns)) }
{
    // Reading the cells tells the proof that they are a polyform.
    let _cells = shape.cells();
    let source = TorusSource::of(alloc, shape, triple)?;
    let Some(log) = searched_log(alloc, &source, turns)? else {
        return Ok(None);
    };
    if log.last.is_none() {
        let spent = is_spent_alone(alloc, &source, &log, turns)?;
        if !spent {
            return Ok(None);
        }
        return Ok(Some(TorusAnswer::Spent { log }));
    }
    let refuted = refutes_alone(alloc, &source, &log)?;
    if refuted {
        Ok(Some(TorusAnswer::None { log }))
    } else {
        Ok(None)
    }
}

/// Searches for a cover of a triple by the torus formula, whose clauses are known by their numbers and not written
/// down, for so many turns, 1 to 1,000,000.
///
/// It answers what `heesch_torus::search` may answer. None comes only where the triple has no cover, with a log of
/// Learn lines that refutes the torus formula: of its lines those alone stay on which the last one rests. Spent comes
/// only with a log of as many Learn lines as turns over which no final line holds, whatever its hints, and so never
/// where the turns are more than 3 to the power of the number of the formula's variables. No line contains a clause
/// before it. Condition: the cells lie within 100,000 of 0, and the triple is one of a domain of 1 to 12 tiles.
///
/// Cost: the variables of the torus formula and which of them meet, the search, and the check of its log. Where there
/// is a cover, and where the log isn't what it should be, that of `heesch_torus::search` comes behind it.
pub fn search<G: Grid>(
    alloc: Global,
    shape: &Shape<G>,
    triple: Triple,
    turns: u32,
) -> Result<TorusAnswer, NoMemory>
    requires near { (c : Cell) → has shape.now c ≡ true → IsWithin 100000 c }
    requires domain { HasDomain G.geometry (length shape.now) triple }
    requires some { 1 ≤ turns }
    requires few { turns ≤ 1000000 }
    ensures { IfOk result (IsTorusAnswer G.geometry shape.now triple turns) }
{
    match judged_answer(alloc, shape, triple, turns)? {
        Some(answer) => Ok(answer),
        None => heesch_torus::search(alloc, shape, triple, turns),
    }
}
