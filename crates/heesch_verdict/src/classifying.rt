//! The verdict of a shape.
ghost use Rattle.std.specs.Prelude.{◌≡◌, IfOk};
ghost use Rattle.heesch_grid.specs.Polyform.{IsCanonicalListOf};
ghost use Rattle.heesch_cert.specs.Limits.{AreLimits};
ghost use Rattle.heesch_cert.specs.Reduced.{HasReducedCover};
ghost use Rattle.heesch_cert.specs.RightVerdict.{HasRightVerdict};
ghost use Rattle.heesch_cert.specs.TrueEntry.{IsTrueEntry};
ghost use Rattle.heesch_verdict.specs.Earliest.{HasEarliestCover};
ghost use Rattle.heesch_verdict.specs.Shapes.{IsCanonicalShape};

use crate::judged::Judged;
use crate::subject::Subject;
use heesch_cert::{Cells, Entry, Limits};
use heesch_grid::Grid;
use heesch_io::{NoMemory, Seq};
use heesch_shape::Shape;
use std::alloc::Global;

/// The cells of a shape.
fn cells_of<G: Grid>(alloc: Global, shape: &Shape<G>) -> Result<Cells, NoMemory>
    requires { IsCanonicalListOf G.geometry shape.now shape.now }
    ensures cells { IfOk result (λ cells. cells ≡ shape.now) }
    ensures shape { IsCanonicalShape G.geometry shape.now }
{
    Ok(Seq::from_vec(shape.cells().to_vec(alloc)?))
}

/// The entry of a shape: its verdict, and what shows it. Condition: the shape is its own canonical
/// list, and the limits lie in their ranges.
///
/// The searches come in the order of their cost. The shape tiles by its plain tiling, where the
/// limit on domains admits it; else by the first periodic cover that is found, by domain from 2 to
/// the limit and then by triple. That search keeps no log, and may leave a triple open: where it
/// finds a cover, the open triples before it are settled by the logged search, and the first cover
/// counts. The places of a cover are reduced: their translations lie inside the triple.
///
/// Where no cover is found, hole-free coronas are sought at level 1, 2 and so on. Where they end with
/// a refutation that has cuts, the same search has found coronas with holes at that level, and such
/// coronas are sought from the next one on: without them the refutation says nothing of tilings. Only
/// where a limit leaves the verdict undecided is each triple settled by the logged search, which shows
/// how the search of each ended. If that finds a cover, which is so only for an open triple, the shape
/// tiles by it.
///
/// Where the kind is Periodic, each triple before the written one has no cover, or its logged search
/// spent its turns. `NoMemory` comes only where memory was refused.
///
/// Coronas and the Heesch number are Kaplan's ("Heesch Numbers of Unmarked Polyforms", 2021), the
/// kinds of tilings and their classes Myers's.
///
/// The cost is that of the searches: at most one without a log for each triple of these domains, one
/// for each level, and a logged one for each triple, which a shape with a Heesch number has none of
/// and one that tiles for open triples alone. Each has all the turns of the limit for itself, and
/// none is made twice.
pub fn classify<G: Grid>(alloc: Global, shape: &Shape<G>, limits: Limits) -> Result<Entry, NoMemory>
    requires canonical { IsCanonicalListOf G.geometry shape.now shape.now }
    requires limits { AreLimits limits }
    ensures cells { IfOk result (λ e. e.cells ≡ shape.now) }
    ensures entry { IfOk result (λ e. IsTrueEntry G.geometry limits e) }
    ensures right { IfOk result (λ e. HasRightVerdict G.geometry limits e) }
    ensures reduced { IfOk result (λ e. HasReducedCover G.geometry e.evidence) }
    ensures earliest { IfOk result (λ e. HasEarliestCover G.geometry limits e) }
{
    let cells = cells_of(alloc, shape)?;
    let subject = Subject { shape, limits };
    let Judged { verdict, evidence } = subject.judge(alloc)?;
    Ok(Entry {
        cells,
        verdict,
        evidence,
    })
}
