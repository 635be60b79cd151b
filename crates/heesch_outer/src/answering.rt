//! The outer number of an entry's shape.
ghost use Rattle.std.specs.Prelude.{◌≤◌, ◌+◌, IfOk};
ghost use Rattle.heesch_cert.specs.Limits.{AreLimits};
ghost use Rattle.heesch_cert.specs.Proofs.{IsTooLarge};
ghost use Rattle.heesch_cert.specs.TrueEntry.{IsTrueEntry, first_number};
ghost use Rattle.heesch_grid.specs.Polyform.{IsCanonicalListOf};
ghost use Rattle.heesch_outer.specs.Answer.{IsOuterAnswer, IsSearched};
ghost use Rattle.heesch_outer.specs.Found.{IsNearAnswer};
ghost use Rattle.heesch_outer.specs.Proofs.{LeavesOuterOpen};
ghost use Rattle.heesch_outer.specs.Statements.{TellsNumber};

use crate::OuterAnswer;
use crate::shaped::shape_of;
use heesch_cert::{Bare, Entry, Evidence, Limits, Wall};
use heesch_grid::Grid;
use heesch_io::NoMemory;
use heesch_levels::LevelAnswer;
use heesch_search::level_up_to;
use heesch_shape::Shape;
use std::alloc::Global;

/// What a search for h + 1 outer coronas ends with, where the corona formula isn't too large.
fn search_outer<G: Grid>(
    alloc: Global,
    shape: &Shape<G>,
    h: u32,
    limits: Limits,
) -> Result<OuterAnswer, NoMemory>
    requires limits { AreLimits limits }
    requires level { h ≤ 5 }
    requires canonical { IsCanonicalListOf G.geometry shape.now shape.now }
    requires fits { ¬ IsTooLarge limits.version G.geometry shape.now (h + 1) limits.size }
    ensures searched { IfOk result (IsSearched G.geometry limits shape.now h) }
    ensures left_open { IfOk result (LeavesOuterOpen G.geometry limits shape.now h) }
{
    let (size, version) = (limits.size, limits.version);
    match level_up_to(alloc, shape, h + 1, h, limits.turns, size, version)? {
        LevelAnswer::Coronas { layers } => Ok(OuterAnswer::More { layers }),
        LevelAnswer::Refuted { proof } => Ok(OuterAnswer::Same { proof }),
        LevelAnswer::Spent { proof } => Ok(OuterAnswer::Spent { proof }),
        LevelAnswer::TooLarge => unreachable!(),
    }
}

/// The outer number of an entry's shape: Tiles exactly for a tiling, Unknown exactly where the Heesch number isn't
/// known. Else h is the entry's number. Where the wall's proof has no cut the answer is Same with that proof.
/// Elsewhere h + 1 outer coronas are sought, with cuts of the levels 1 to h and turns of its own: More has them,
/// spelled as the layers of a true entry, Same has a proof that there are none, and Spent one with as many steps as
/// the limit on turns, each of them new, over which no final line holds: Spent comes only where these steps leave the
/// formula open.
///
/// Where the answer is More the outer number is h + 1, and where it is Same it is h.
///
/// Condition: the limits lie in their ranges, and the entry is true under them. The cost is that of `level` at level
/// h + 1.
pub fn outer<G: Grid>(alloc: Global, entry: &Entry, limits: Limits) -> Result<OuterAnswer, NoMemory>
    requires limits { AreLimits limits }
    requires entry { IsTrueEntry G.geometry limits entry.now }
    ensures answer { IfOk result (IsOuterAnswer G.geometry limits entry.now) }
    ensures near { IfOk result IsNearAnswer }
    ensures number { IfOk result (TellsNumber G.geometry entry.now.cells (first_number entry.now.verdict)) }
    ensures left_open { IfOk result
        (LeavesOuterOpen G.geometry limits entry.now.cells (first_number entry.now.verdict)) }
{
    let Evidence::Search { wall, bare, .. } = &entry.evidence else {
        return Ok(OuterAnswer::Tiles);
    };
    let Wall::Refuted { proof } = wall else {
        return Ok(OuterAnswer::Unknown);
    };
    if let Bare::Same = bare {
        let proof = proof.copy(alloc)?;
        return Ok(OuterAnswer::Same { proof });
    }
    let shape = shape_of::<G>(entry.cells.as_slice());
    search_outer(alloc, &shape, entry.verdict.first_number(), limits)
}
