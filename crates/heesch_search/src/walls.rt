//! The search for hole-free coronas of one level, and whether there are coronas with holes.
ghost use Rattle.std.specs.Prelude.{◌≡◌, ◌≢◌, ◌≤◌, true, IfOk};
ghost use Rattle.heesch_cert.specs.Proofs.{IsTooLarge};
ghost use Rattle.heesch_cnf.specs.declared.version.Version.TheVariants.{Two};
ghost use Rattle.heesch_grid.specs.Polyform.{IsCanonicalListOf};
ghost use Rattle.heesch_levels.specs.Answer.{IsLevelAnswer, NamesEmptyClauses};
ghost use Rattle.heesch_levels.specs.Wall.{ShowsHoles, level_answer};
ghost use Rattle.heesch_search.specs.Said.{SaysWall};

use crate::proposals::proposed_wall;
use heesch_cnf::Version;
use heesch_grid::Grid;
use heesch_io::NoMemory;
use heesch_levels::WallAnswer;
use heesch_shape::Shape;
use std::alloc::Global;

/// The search for the second version.
fn second_wall<G: Grid>(
    alloc: Global,
    shape: &Shape<G>,
    j: u32,
    turns: u32,
    size: u32,
) -> Result<WallAnswer, NoMemory>
    requires level { (1 ≤ j) × (j ≤ 6) }
    requires turns { (1 ≤ turns) × (turns ≤ 1000000) }
    requires size { (1 ≤ size) × (size ≤ 60000000) }
    requires canonical { IsCanonicalListOf G.geometry shape.now shape.now }
    ensures { IfOk result (SaysWall Two G.geometry shape.now j turns size) }
{
    match proposed_wall(alloc, shape, j, turns, size)? {
        Some(answer) => Ok(answer),
        None => heesch_levels::wall(alloc, shape, j, turns, size, Version::Two),
    }
}

/// Whether there are j hole-free coronas of the shape, as `level` says; and where there are none, whether there are any
/// with holes.
///
/// There are some exactly where the refutation has a cut: each cut is made against a model, whose layers are j coronas
/// with a hole. Those of the first such model are answered beside the refutation, as the judge finds them to be. So
/// behind `Refuted` or `Holed` the search with holes allowed need not be made at this level.
///
/// The condition and the cost are those of `level`, and behind a refutation with cuts the judge's look at these layers.
pub fn wall<G: Grid>(
    alloc: Global,
    shape: &Shape<G>,
    j: u32,
    turns: u32,
    size: u32,
    version: Version,
) -> Result<WallAnswer, NoMemory>
    requires level { (1 ≤ j) × (j ≤ 6) }
    requires turns { (1 ≤ turns) × (turns ≤ 1000000) }
    requires size { (1 ≤ size) × (size ≤ 60000000) }
    requires canonical { IsCanonicalListOf G.geometry shape.now shape.now }
    ensures answer { IfOk result
        (λ answer. IsLevelAnswer version G.geometry shape.now j true turns size (level_answer answer)) }
    ensures holes { IfOk result (ShowsHoles G.geometry shape.now j) }
    ensures too_large { IfOk result
        (λ answer. IsTooLarge version G.geometry shape.now j size → answer ≡ WallAnswer.TooLarge) }
    ensures at_once { IfOk result
        (λ answer. answer ≢ WallAnswer.TooLarge
        → NamesEmptyClauses version G.geometry shape.now j (level_answer answer)) }
{
    match version {
        Version::One => heesch_levels::wall(alloc, shape, j, turns, size, version),
        Version::Two => second_wall(alloc, shape, j, turns, size),
    }
}
