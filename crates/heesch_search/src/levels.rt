//! The search for coronas of one level.
ghost use Rattle.std.specs.Prelude.{◌≡◌, ◌≢◌, ◌≤◌, IfOk, if◌then◌else◌};
ghost use Rattle.heesch_cert.specs.Proofs.{IsTooLarge};
ghost use Rattle.heesch_cnf.specs.declared.version.Version.TheVariants.{Two};
ghost use Rattle.heesch_grid.specs.Polyform.{IsCanonicalListOf};
ghost use Rattle.heesch_levels.specs.Answer.{IsLevelAnswer, NamesEmptyClauses};
ghost use Rattle.heesch_levels.specs.UpTo.{IsAnswerUpTo};
ghost use Rattle.heesch_search.specs.Said.{SaysLevel};

use crate::proposals::proposed_level;
use heesch_cnf::Version;
use heesch_grid::Grid;
use heesch_io::NoMemory;
use heesch_levels::LevelAnswer;
use heesch_shape::Shape;
use std::alloc::Global;

/// The search for the second version.
fn second_level<G: Grid>(
    alloc: Global,
    shape: &Shape<G>,
    j: u32,
    free_levels: u32,
    turns: u32,
    size: u32,
) -> Result<LevelAnswer, NoMemory>
    requires level { (1 ≤ j) × (j ≤ 6) }
    requires free { free_levels ≤ j }
    requires turns { (1 ≤ turns) × (turns ≤ 1000000) }
    requires size { (1 ≤ size) × (size ≤ 60000000) }
    requires canonical { IsCanonicalListOf G.geometry shape.now shape.now }
    ensures { IfOk result (SaysLevel Two G.geometry shape.now j free_levels turns size) }
{
    match proposed_level(alloc, shape, j, free_levels, turns, size)? {
        Some(answer) => Ok(answer),
        None => heesch_levels::level_up_to(alloc, shape, j, free_levels, turns, size, Version::Two),
    }
}

/// Whether there are j coronas of the shape whose patches of the levels 1 to `free_levels` are hole-free: with 0 holes
/// are allowed, with j forbidden, and with j - 1 they may stand in the outermost corona alone.
///
/// In the second version the search over the geometry proposes an answer, and what the judge takes is answered:
/// coronas, a refutation, or a proof of `turns` steps. Where it takes none, and in the first version, the solver on the
/// formula is asked (`heesch_levels::level_up_to`).
///
/// `TooLarge` comes exactly where the formula of this version has more than `size` literals, though it isn't made.
/// `Refuted` comes at once, without a step, where a clause of the formula is empty. `Spent` comes only where each of
/// the steps is new, and no final line holds over them.
///
/// Condition: j is 1 to 6, `free_levels` at most j, `turns` 1 to 1,000,000, `size` 1 to 60,000,000, and the shape is
/// its own canonical list.
///
/// The cost is that of the source of the formula, of the search over the cover table, with a cut for each model that
/// leaves a hole, and of the judge; and where the solver is asked, that of `heesch_levels::level_up_to`.
pub fn level_up_to<G: Grid>(
    alloc: Global,
    shape: &Shape<G>,
    j: u32,
    free_levels: u32,
    turns: u32,
    size: u32,
    version: Version,
) -> Result<LevelAnswer, NoMemory>
    requires level { (1 ≤ j) × (j ≤ 6) }
    requires free { free_levels ≤ j }
    requires turns { (1 ≤ turns) × (turns ≤ 1000000) }
    requires size { (1 ≤ size) × (size ≤ 60000000) }
    requires canonical { IsCanonicalListOf G.geometry shape.now shape.now }
    ensures answer { IfOk result (IsAnswerUpTo version G.geometry shape.now j free_levels turns size) }
    ensures too_large { IfOk result
        (λ answer. IsTooLarge version G.geometry shape.now j size → answer ≡ LevelAnswer.TooLarge) }
    ensures at_once { IfOk result
        (λ answer. answer ≢ LevelAnswer.TooLarge → NamesEmptyClauses version G.geometry shape.now j answer) }
{
    match version {
        Version::One => heesch_levels::level_up_to(
            alloc,
            shape,
            j,
            free_levels,
            turns,
            size,
            version,
        ),
        Version::Two => second_level(alloc, shape, j, free_levels, turns, size),
    }
}

/// Up to which level holes are forbidden: at all of them, or at none.
fn levels_without_holes(j: u32, hole_free: bool) -> u32
    ensures { result ≡ if hole_free then j else 0 }
{
    if hole_free { j } else { 0 }
}

/// Whether there are j coronas of the shape, hole-free ones where `hole_free`: what `level_up_to` answers with holes
/// forbidden at all levels, or at none.
///
/// `Refuted` comes only where there are no such coronas. `Spent` comes never where 3 to the power of the formula's
/// variables is below `turns`. Where holes are allowed, no step is a cut.
///
/// The condition and the cost are those of `level_up_to`.
pub fn level<G: Grid>(
    alloc: Global,
    shape: &Shape<G>,
    j: u32,
    hole_free: bool,
    turns: u32,
    size: u32,
    version: Version,
) -> Result<LevelAnswer, NoMemory>
    requires level { (1 ≤ j) × (j ≤ 6) }
    requires turns { (1 ≤ turns) × (turns ≤ 1000000) }
    requires size { (1 ≤ size) × (size ≤ 60000000) }
    requires canonical { IsCanonicalListOf G.geometry shape.now shape.now }
    ensures answer { IfOk result (IsLevelAnswer version G.geometry shape.now j hole_free turns size) }
    ensures too_large { IfOk result
        (λ answer. IsTooLarge version G.geometry shape.now j size → answer ≡ LevelAnswer.TooLarge) }
    ensures at_once { IfOk result
        (λ answer. answer ≢ LevelAnswer.TooLarge → NamesEmptyClauses version G.geometry shape.now j answer) }
{
    // Reading the cells tells the proof that they are a polyform.
    let _cells = shape.cells();
    let free_levels = levels_without_holes(j, hole_free);
    level_up_to(alloc, shape, j, free_levels, turns, size, version)
}
