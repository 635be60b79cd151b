//! Whether layers are coronas.
ghost use Rattle.std.specs.Prelude.{◌≡◌, ◌↔◌, ◌≤◌, List, All, IfOk, IsTrue, length};
ghost use Rattle.heesch_grid.specs.declared.Cell.{Cell};
ghost use Rattle.heesch_corona.specs.Answer.{AreAsked};
ghost use Rattle.heesch_corona.specs.Tiles.{AreTilesOf, IsInRange};
ghost use Rattle.heesch_logs.specs.Spelling.{IsNearShape};

use heesch_cert::Layers;
use heesch_corona::{CoronaAnswer, check_coronas};
use heesch_grid::Grid;
use heesch_io::NoMemory;
use heesch_shape::Shape;
use std::alloc::Global;

/// Whether nothing is amiss.
fn is_holding(answer: &CoronaAnswer) -> bool
    ensures { IsTrue result ↔ (answer.now ≡ CoronaAnswer.Holds) }
{
    matches!(answer, CoronaAnswer::Holds)
}

/// Whether the layers are coronas, hole-free ones where `hole_free`.
///
/// Condition: that of `check_coronas`, whose cost it has.
pub fn are_coronas<G: Grid>(
    alloc: Global,
    shape: &Shape<G>,
    layers: &Layers,
    hole_free: bool,
) -> Result<bool, NoMemory>
    requires shape { IsNearShape G.geometry shape.now }
    requires isometries { All (All (IsInRange G.geometry)) layers.now.layers }
    requires few { length layers.now.layers ≤ 6 }
    ensures { IfOk result (λ yes. (tiles : List (List (List Cell)))
        → AreTilesOf G.geometry shape.now layers.now.layers tiles
        → IsTrue yes ↔ AreAsked G.geometry shape.now hole_free tiles) }
{
    let answer = check_coronas(alloc, shape, layers, hole_free)?;
    Ok(is_holding(&answer))
}
