//! Whether a proposed answer is one that the search of a level may give.
ghost use Rattle.std.specs.Prelude.{◌≡◌, ◌≤◌, ◌↔◌, ◌∷◌, [], ℕ, true, IsTrue, IfOk};
ghost use Rattle.heesch_cdcl.specs.Empty.{IsFirstEmpty};
ghost use Rattle.heesch_cnf.specs.declared.version.Version.TheVariants.{Two};
ghost use Rattle.heesch_grid.specs.Clauses.{formula_size};
ghost use Rattle.heesch_grid.specs.Polyform.{IsCanonicalListOf};
ghost use Rattle.heesch_levels.specs.Answer.{IsLevelAnswer, NamesEmptyClause, NamesEmptyClauses};
ghost use Rattle.heesch_levels.specs.UpTo.{IsAnswerUpTo};
ghost use Rattle.heesch_levels.specs.Wall.{ShowsHoles, level_answer};
ghost use Rattle.heesch_judge.specs.Judged.{AreJudgedLayers, IsJudgedLevel, IsJudgedWall, IsSourceOf};
ghost use Rattle.heesch_judge.specs.Judged.{IsRefutationAtOnce};

use crate::coronas::spells_up_to;
use crate::empty::first_empty;
use crate::refuted::refutes_up_to;
use crate::spent::is_spent_up_to;
use heesch_cert::{Layers, Proof};
use heesch_cnf::NewnessSource;
use heesch_grid::Grid;
use heesch_io::NoMemory;
use heesch_levels::{LevelAnswer, WallAnswer};
use heesch_logs::has_no_cut;
use heesch_numbers::CoronaSource;
use heesch_shape::Shape;
use std::alloc::Global;

/// Whether the numbers are this one alone.
fn is_alone(numbers: &[u32], number: u32) -> bool
    ensures { IsTrue result ↔ (numbers.now ≡ number ∷ []) }
{
    numbers.len() == 1 && numbers[0] == number
}

/// Whether the proof has no step, and its final line names this number alone.
fn names_alone(proof: &Proof, number: u32) -> bool
    ensures { IsTrue result ↔ NamesEmptyClause number (LevelAnswer.Refuted proof.now) }
{
    if !proof.steps.is_empty() {
        return false;
    }
    match &proof.last {
        None => false,
        Some(hints) => is_alone(hints.as_slice(), number),
    }
}

/// Whether the proof names the first empty clause at once, where one is empty.
fn names_first<N: NewnessSource>(
    alloc: Global,
    formula: &N,
    proof: &Proof,
) -> Result<bool, NoMemory>
    ensures { IfOk result (λ yes. IsTrue yes ↔ ((n : ℕ) → IsFirstEmpty (N.listed formula.now).clauses n
        → NamesEmptyClause n (LevelAnswer.Refuted proof.now))) }
{
    match first_empty(alloc, formula)? {
        None => Ok(true),
        Some(number) => Ok(names_alone(proof, number)),
    }
}

/// Whether the proof is a refutation that names the first empty clause at once, where one is empty.
fn is_refutation<G: Grid>(
    alloc: Global,
    shape: &Shape<G>,
    source: &CoronaSource<G>,
    free_levels: u32,
    proof: &Proof,
) -> Result<bool, NoMemory>
    requires source { IsSourceOf G.geometry shape.now source.now }
    ensures { IfOk result (λ yes. IsTrue yes ↔ IsRefutationAtOnce G.geometry source.now free_levels proof.now) }
{
    let named = names_first(alloc, source, proof)?;
    if !named {
        return Ok(false);
    }
    refutes_up_to(alloc, shape, source, free_levels, proof)
}

/// Whether the layers spell coronas of the level of the source, hole-free ones at the levels 1 to `free_levels`.
fn are_layers<G: Grid>(
    alloc: Global,
    shape: &Shape<G>,
    source: &CoronaSource<G>,
    free_levels: u32,
    layers: &Layers,
) -> Result<bool, NoMemory>
    requires canonical { IsCanonicalListOf G.geometry shape.now shape.now }
    ensures { IfOk result (λ yes.
        IsTrue yes ↔ AreJudgedLayers G.geometry shape.now source.now free_levels layers.now) }
{
    let level = source.universe().level();
    spells_up_to(alloc, shape, level, free_levels, layers)
}

/// Whether the answer is what it claims to be.
fn judges_level<G: Grid>(
    alloc: Global,
    shape: &Shape<G>,
    source: &CoronaSource<G>,
    free_levels: u32,
    turns: u32,
    answer: &LevelAnswer,
) -> Result<bool, NoMemory>
    requires source { IsSourceOf G.geometry shape.now source.now }
    requires canonical { IsCanonicalListOf G.geometry shape.now shape.now }
    ensures { IfOk result (λ yes.
        IsTrue yes ↔ IsJudgedLevel G.geometry shape.now source.now free_levels turns answer.now) }
{
    match answer {
        LevelAnswer::Coronas { layers } => are_layers(alloc, shape, source, free_levels, layers),
        LevelAnswer::Refuted { proof } => is_refutation(alloc, shape, source, free_levels, proof),
        LevelAnswer::Spent { proof } => {
            is_spent_up_to(alloc, shape, source, free_levels, turns, proof)
        }
        LevelAnswer::TooLarge => Ok(false),
    }
}

/// The same of an answer on the wall.
fn judges_wall<G: Grid>(
    alloc: Global,
    shape: &Shape<G>,
    source: &CoronaSource<G>,
    level: u32,
    turns: u32,
    answer: &WallAnswer,
) -> Result<bool, NoMemory>
    requires source { IsSourceOf G.geometry shape.now source.now }
    requires canonical { IsCanonicalListOf G.geometry shape.now shape.now }
    ensures { IfOk result (λ yes.
        IsTrue yes ↔ IsJudgedWall G.geometry shape.now source.now level turns answer.now) }
{
    match answer {
        WallAnswer::Coronas { layers } => are_layers(alloc, shape, source, level, layers),
        WallAnswer::Refuted { proof } => {
            if !has_no_cut(proof) {
                return Ok(false);
            }
            is_refutation(alloc, shape, source, level, proof)
        }
        WallAnswer::Holed { proof, layers } => {
            let spelled = are_layers(alloc, shape, source, 0, layers)?;
            if !spelled {
                return Ok(false);
            }
            is_refutation(alloc, shape, source, level, proof)
        }
        WallAnswer::Spent { proof } => is_spent_up_to(alloc, shape, source, level, turns, proof),
        WallAnswer::TooLarge => Ok(false),
    }
}

/// Whether the answer is one of `heesch_levels::level_up_to` in the second version, for so many turns and with holes
/// forbidden at the levels 1 to `free_levels`: coronas with translations within 100,000 of 0; a refutation, as
/// `refutes_up_to` says, which names the first empty clause at once where one is empty; or a spent proof, as
/// `is_spent_up_to` says. It is never TooLarge, since there is a source.
///
/// Condition: the source is that of this shape, which is its own canonical list. Proofs and layers may be any. The
/// cost is that of `spells_up_to`, or `first_empty` and `refutes_up_to`, or `is_spent_up_to`.
pub fn is_level_answer<G: Grid>(
    alloc: Global,
    shape: &Shape<G>,
    source: &CoronaSource<G>,
    free_levels: u32,
    turns: u32,
    answer: &LevelAnswer,
) -> Result<bool, NoMemory>
    requires source { IsSourceOf G.geometry shape.now source.now }
    requires canonical { IsCanonicalListOf G.geometry shape.now shape.now }
    ensures judged { IfOk result (λ yes.
        IsTrue yes ↔ IsJudgedLevel G.geometry shape.now source.now free_levels turns answer.now) }
    ensures answer { IfOk result (λ yes. IsTrue yes → (size : ℕ) → formula_size source.now.formula.clauses ≤ size
        → IsAnswerUpTo Two G.geometry shape.now source.now.universe.level free_levels turns size answer.now) }
    ensures at_once { IfOk result (λ yes. IsTrue yes
        → NamesEmptyClauses Two G.geometry shape.now source.now.universe.level answer.now) }
{
    // Reading the cells and the level tells the proof that they are a polyform, and that it is at least 1.
    let _cells = shape.cells();
    let _level = source.universe().level();
    judges_level(alloc, shape, source, free_levels, turns, answer)
}

/// Whether the answer is one of `heesch_levels::wall` in the second version, for so many turns: as `is_level_answer`
/// says of hole-free coronas, where a refutation has no cut, or stands beside coronas with holes allowed.
///
/// The condition and the cost are those of `is_level_answer`, and beside a refutation with cuts that of
/// `spells_up_to`.
pub fn is_wall_answer<G: Grid>(
    alloc: Global,
    shape: &Shape<G>,
    source: &CoronaSource<G>,
    turns: u32,
    answer: &WallAnswer,
) -> Result<bool, NoMemory>
    requires source { IsSourceOf G.geometry shape.now source.now }
    requires canonical { IsCanonicalListOf G.geometry shape.now shape.now }
    ensures judged { IfOk result (λ yes.
        IsTrue yes ↔ IsJudgedWall G.geometry shape.now source.now source.now.universe.level turns answer.now) }
    ensures answer { IfOk result (λ yes. IsTrue yes → (size : ℕ) → formula_size source.now.formula.clauses ≤ size
        → IsLevelAnswer Two G.geometry shape.now source.now.universe.level true turns size (level_answer answer.now)) }
    ensures holes { IfOk result (λ yes. IsTrue yes
        → ShowsHoles G.geometry shape.now source.now.universe.level answer.now) }
    ensures at_once { IfOk result (λ yes. IsTrue yes
        → NamesEmptyClauses Two G.geometry shape.now source.now.universe.level (level_answer answer.now)) }
{
    // Reading the cells tells the proof that they are a polyform.
    let _cells = shape.cells();
    let level = source.universe().level();
    judges_wall(alloc, shape, source, level, turns, answer)
}
