//! What the search over the geometry proposes, where the judge finds it true.
ghost use Rattle.std.specs.Prelude.{◌≤◌, ℕ, true, IfOk, IfSome, MatchOption, length};
ghost use Rattle.heesch_cert.specs.Proofs.{IsTooLarge};
ghost use Rattle.heesch_cnf.specs.declared.version.Version.TheVariants.{Two};
ghost use Rattle.heesch_grid.specs.Clauses.{formula_size};
ghost use Rattle.heesch_grid.specs.Polyform.{IsCanonicalListOf};
ghost use Rattle.heesch_judge.specs.Judged.{IsSourceOf};
ghost use Rattle.heesch_levels.specs.Answer.{IsLevelAnswer, NamesEmptyClauses};
ghost use Rattle.heesch_levels.specs.UpTo.{IsAnswerUpTo};
ghost use Rattle.heesch_levels.specs.Wall.{ShowsHoles, level_answer};
ghost use Rattle.heesch_chart.specs.Sizes.{AdvisesOn, HasValues};
ghost use Rattle.heesch_search.specs.Said.{HasSource, SaysLevel, SaysWall};

use heesch_cert::Proof;
use heesch_chart::{Advice, search_level};
use heesch_cnf::ClauseSource;
use heesch_encode::EncodeStop;
use heesch_grid::Grid;
use heesch_io::{NoMemory, Seq};
use heesch_judge::{has_no_cut, is_level_answer, is_wall_answer};
use heesch_levels::{LevelAnswer, WallAnswer, layers_of};
use heesch_numbers::CoronaSource;
use heesch_shape::Shape;
use std::alloc::Global;

/// The source of the second corona formula of the shape and the level, where that has at most `size` literals.
pub(crate) fn source_of<G: Grid>(
    alloc: Global,
    shape: &Shape<G>,
    j: u32,
    size: u32,
) -> Result<Option<CoronaSource<G>>, NoMemory>
    requires level { (1 ≤ j) × (j ≤ 6) }
    requires size { (1 ≤ size) × (size ≤ 60000000) }
    requires canonical { IsCanonicalListOf G.geometry shape.now shape.now }
    ensures { IfOk result
        (λ source. MatchOption source (IsTooLarge Two G.geometry shape.now j size)
        (HasSource G.geometry shape.now j size)) }
{
    match CoronaSource::of(alloc, shape, j, size) {
        Ok(source) => Ok(Some(source)),
        Err(EncodeStop::TooLarge) => Ok(None),
        Err(EncodeStop::NoMemory) => Err(NoMemory),
    }
}

/// The answer of the level that the advice proposes.
fn level_proposal<G: Grid>(
    alloc: Global,
    source: &CoronaSource<G>,
    advice: Advice,
) -> Result<Option<LevelAnswer>, NoMemory>
    requires { AdvisesOn (length source.now.universe.vars) advice }
{
    match advice {
        Advice::Coronas { values } => {
            let layers = layers_of(alloc, source.universe(), values.as_slice())?;
            Ok(Some(LevelAnswer::Coronas { layers }))
        }
        Advice::Refuted { proof, .. } => Ok(Some(LevelAnswer::Refuted { proof })),
        Advice::Spent { proof } => Ok(Some(LevelAnswer::Spent { proof })),
        Advice::GaveUp => Ok(None),
    }
}

/// The answer on the wall by a refutation, and by the values of a model with a hole where it has a cut.
fn refuted_wall<G: Grid>(
    alloc: Global,
    source: &CoronaSource<G>,
    proof: Proof,
    holed: Option<Seq<bool>>,
) -> Result<Option<WallAnswer>, NoMemory>
    requires { HasValues (length source.now.universe.vars) holed }
{
    if has_no_cut(&proof) {
        return Ok(Some(WallAnswer::Refuted { proof }));
    }
    let Some(values) = holed else {
        return Ok(None);
    };
    let layers = layers_of(alloc, source.universe(), values.as_slice())?;
    Ok(Some(WallAnswer::Holed { proof, layers }))
}

/// The answer on the wall that the advice proposes.
fn wall_proposal<G: Grid>(
    alloc: Global,
    source: &CoronaSource<G>,
    advice: Advice,
) -> Result<Option<WallAnswer>, NoMemory>
    requires { AdvisesOn (length source.now.universe.vars) advice }
{
    match advice {
        Advice::Coronas { values } => {
            let layers = layers_of(alloc, source.universe(), values.as_slice())?;
            Ok(Some(WallAnswer::Coronas { layers }))
        }
        Advice::Refuted { proof, holed } => refuted_wall(alloc, source, proof, holed),
        Advice::Spent { proof } => Ok(Some(WallAnswer::Spent { proof })),
        Advice::GaveUp => Ok(None),
    }
}

/// What the search over the geometry advises.
fn advice_on<G: Grid>(
    alloc: Global,
    shape: &Shape<G>,
    source: &CoronaSource<G>,
    free_levels: u32,
    turns: u32,
) -> Result<Advice, NoMemory>
    requires source { IsSourceOf G.geometry shape.now source.now }
    requires canonical { IsCanonicalListOf G.geometry shape.now shape.now }
    ensures { IfOk result (AdvisesOn (length source.now.universe.vars)) }
{
    // The formula has fewer than 2^31 variables, and so the universe has: reading their number tells the proof so.
    let _vars = source.vars();
    search_level(alloc, shape, source.universe(), free_levels, turns)
}

/// The answer of the level of the source that is proposed, where the judge finds it true.
fn judged_level<G: Grid>(
    alloc: Global,
    shape: &Shape<G>,
    source: &CoronaSource<G>,
    free_levels: u32,
    turns: u32,
) -> Result<Option<LevelAnswer>, NoMemory>
    requires source { IsSourceOf G.geometry shape.now source.now }
    requires canonical { IsCanonicalListOf G.geometry shape.now shape.now }
    ensures answer { IfOk result (λ answer. IfSome answer (λ answer. (size : ℕ)
        → formula_size source.now.formula.clauses ≤ size
        → IsAnswerUpTo Two G.geometry shape.now source.now.universe.level free_levels turns size answer)) }
    ensures at_once { IfOk result (λ answer. IfSome answer
        (NamesEmptyClauses Two G.geometry shape.now source.now.universe.level)) }
{
    let advice = advice_on(alloc, shape, source, free_levels, turns)?;
    let Some(answer) = level_proposal(alloc, source, advice)? else {
        return Ok(None);
    };
    let holds = is_level_answer(alloc, shape, source, free_levels, turns, &answer)?;
    if holds { Ok(Some(answer)) } else { Ok(None) }
}

/// The answer on the wall at the level of the source that is proposed, where the judge finds it true.
fn judged_wall<G: Grid>(
    alloc: Global,
    shape: &Shape<G>,
    source: &CoronaSource<G>,
    turns: u32,
) -> Result<Option<WallAnswer>, NoMemory>
    requires source { IsSourceOf G.geometry shape.now source.now }
    requires canonical { IsCanonicalListOf G.geometry shape.now shape.now }
    ensures answer { IfOk result (λ answer. IfSome answer (λ answer. (size : ℕ)
        → formula_size source.now.formula.clauses ≤ size
        → IsLevelAnswer Two G.geometry shape.now source.now.universe.level true turns size (level_answer answer))) }
    ensures holes { IfOk result (λ answer. IfSome answer (ShowsHoles G.geometry shape.now source.now.universe.level)) }
    ensures at_once { IfOk result (λ answer. IfSome answer (λ answer.
        NamesEmptyClauses Two G.geometry shape.now source.now.universe.level (level_answer answer))) }
{
    let level = source.universe().level();
    let advice = advice_on(alloc, shape, source, level, turns)?;
    let Some(answer) = wall_proposal(alloc, source, advice)? else {
        return Ok(None);
    };
    let holds = is_wall_answer(alloc, shape, source, turns, &answer)?;
    if holds { Ok(Some(answer)) } else { Ok(None) }
}

/// The answer of level j in the second version that is proposed and found true; or that the formula is too large.
pub(crate) fn proposed_level<G: Grid>(
    alloc: Global,
    shape: &Shape<G>,
    j: u32,
    free_levels: u32,
    turns: u32,
    size: u32,
) -> Result<Option<LevelAnswer>, NoMemory>
    requires level { (1 ≤ j) × (j ≤ 6) }
    requires size { (1 ≤ size) × (size ≤ 60000000) }
    requires canonical { IsCanonicalListOf G.geometry shape.now shape.now }
    ensures { IfOk result (λ answer. IfSome answer (SaysLevel Two G.geometry shape.now j free_levels turns size)) }
{
    // Reading the cells tells the proof that they are a polyform.
    let _cells = shape.cells();
    match source_of(alloc, shape, j, size)? {
        None => Ok(Some(LevelAnswer::TooLarge)),
        Some(source) => judged_level(alloc, shape, &source, free_levels, turns),
    }
}

/// The answer on the wall of level j in the second version that is proposed and found true; or that the formula is too
/// large.
pub(crate) fn proposed_wall<G: Grid>(
    alloc: Global,
    shape: &Shape<G>,
    j: u32,
    turns: u32,
    size: u32,
) -> Result<Option<WallAnswer>, NoMemory>
    requires level { (1 ≤ j) × (j ≤ 6) }
    requires size { (1 ≤ size) × (size ≤ 60000000) }
    requires canonical { IsCanonicalListOf G.geometry shape.now shape.now }
    ensures { IfOk result (λ answer. IfSome answer (SaysWall Two G.geometry shape.now j turns size)) }
{
    // Reading the cells tells the proof that they are a polyform.
    let _cells = shape.cells();
    match source_of(alloc, shape, j, size)? {
        None => Ok(Some(WallAnswer::TooLarge)),
        Some(source) => judged_wall(alloc, shape, &source, turns),
    }
}
