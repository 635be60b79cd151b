//! Searches over the tables of small polyforms with known Heesch numbers, whose advice the judge has to take: else the
//! solver is asked in its place, and no clause says so.
ghost use Rattle.std.specs.Prelude.{length};
ghost use Rattle.heesch_chart.specs.Sizes.{AdvisesOn};
ghost use Rattle.heesch_grid.specs.Polyform.{IsCanonicalListOf};
ghost use Rattle.heesch_judge.specs.Judged.{IsSourceOf};

use super::made::{CROSSING, HOLED, is_by};
use heesch_chart::{Advice, search_level};
use heesch_cnf::ClauseSource;
use heesch_grid::{Cell, Grid, Hex, Iamond, Square};
use heesch_judge::{has_no_cut, is_spent_up_to, refutes_up_to, spells_up_to};
use heesch_levels::layers_of;
use heesch_made::{canonical_of, cells, same};
use heesch_numbers::CoronaSource;
use heesch_shape::Shape;
use std::alloc::Global;
use std::test::Fail;

/// A heptomino of Heesch number 1.
const ONCE: [Cell; 7] = cells![0, 0; 1, 0; 2, 0; 2, 1; 3, 1; 2, 2; 2, 3];

/// A heptiamond of Heesch number 1.
const ONCE_OF_TRIANGLES: [Cell; 7] = cells![1, 1; 4, 1; 2, 2; 5, 2; 4, 4; 2, 5; 1, 7];

/// Whether the judge takes the advice.
fn is_taken<G: Grid>(
    alloc: Global,
    shape: &Shape<G>,
    source: &CoronaSource<G>,
    free_levels: u32,
    turns: u32,
    advice: &Advice,
) -> Result<bool, Fail>
    requires source { IsSourceOf G.geometry shape.now source.now }
    requires canonical { IsCanonicalListOf G.geometry shape.now shape.now }
    requires values { AdvisesOn (length source.now.universe.vars) advice.now }
{
    match advice {
        Advice::Coronas { values } => {
            let layers = layers_of(alloc, source.universe(), values.as_slice())?;
            let level = source.universe().level();
            Ok(spells_up_to(alloc, shape, level, free_levels, &layers)?)
        }
        Advice::Refuted { proof, .. } => {
            Ok(refutes_up_to(alloc, shape, source, free_levels, proof)?)
        }
        Advice::Spent { proof } => {
            Ok(is_spent_up_to(alloc, shape, source, free_levels, turns, proof)?)
        }
        Advice::GaveUp => Ok(false),
    }
}

/// What the search advises on the shape of these cells. A test fails where the judge doesn't take it.
fn advised<G: Grid>(
    alloc: Global,
    cells: &[Cell],
    level: u32,
    free_levels: u32,
    turns: u32,
) -> Result<Advice, Fail> {
    if level < 1 || level > 6 {
        return Err(Fail::new("no level"));
    }
    let shape = canonical_of::<G>(cells)?;
    let Ok(source) = CoronaSource::of(alloc, &shape, level, 60_000_000) else {
        return Err(Fail::new("no formula"));
    };
    // Reading the number of the formula's variables tells the proof that the universe has few.
    let _vars = source.vars();
    let advice = search_level(alloc, &shape, source.universe(), free_levels, turns)?;
    if !is_taken(alloc, &shape, &source, free_levels, turns, &advice)? {
        return Err(Fail::new("the judge refuses what is advised"));
    }
    Ok(advice)
}

/// The advice in a word. A model with holes stands beside cuts, and nowhere else.
fn word_of(advice: &Advice) -> &'static str {
    match advice {
        Advice::Coronas { .. } => "coronas",
        Advice::Refuted { proof, holed } => match (has_no_cut(proof), holed.is_some()) {
            (true, false) => "refuted",
            (false, true) => "refuted with cuts",
            _ => "refuted otherwise",
        },
        Advice::Spent { .. } => "spent",
        Advice::GaveUp => "gave up",
    }
}

/// Cells, the level, as many of its first levels that have no holes, the turns, and the advice.
type Row<'a> = (&'a [Cell], u32, u32, u32, &'static str);

/// The heptomino that can be surrounded with holes alone, and one of Heesch number 1. So many steps hold and are new,
/// and leave the formula open.
const SQUARES: [Row; 6] = [
    (&CROSSING, 1, 1, 20_000, "refuted with cuts"),
    (&CROSSING, 1, 0, 20_000, "coronas"),
    (&CROSSING, 2, 0, 20_000, "refuted"),
    (&CROSSING, 1, 1, 1, "spent"),
    (&CROSSING, 1, 1, 2, "spent"),
    (&ONCE, 1, 1, 20_000, "coronas"),
];

const TRIANGLES: Row = (&ONCE_OF_TRIANGLES, 1, 1, 20_000, "coronas");

const HEXAGONS: Row = (&cells![0, 0], 2, 2, 20_000, "coronas");

/// The search advises what the row has.
fn is_advised<G: Grid>(alloc: Global, row: &Row) -> Result<(), Fail> {
    let (cells, level, free_levels, turns, word) = row;
    let advice = advised::<G>(alloc, cells, *level, *free_levels, *turns)?;
    same("advice", word_of(&advice), *word)
}

#[test]
fn searches_are_advised(rt: HostRuntime) -> Result<(), Fail> {
    for row in &SQUARES {
        is_advised::<Square>(rt.alloc(), row)?;
    }
    is_advised::<Iamond>(rt.alloc(), &TRIANGLES)?;
    is_advised::<Hex>(rt.alloc(), &HEXAGONS)
}

/// No tile covers the cell that the shape encloses: its clause, the 9th, is empty.
#[test]
fn square_with_a_hole(rt: HostRuntime) -> Result<(), Fail> {
    let advice = advised::<Square>(rt.alloc(), &HOLED, 1, 1, 20_000)?;
    let Advice::Refuted { proof, .. } = &advice else {
        return Err(Fail::new("not refuted"));
    };
    is_by(proof, 9)
}
