//! Whether layers spell coronas.
ghost use Rattle.std.specs.Prelude.{◌<◌, ◌≤◌, ◌↔◌, IsTrue, IfOk, length};
ghost use Rattle.heesch_audit.specs.Shapes.{IsCanonicalShape};
ghost use Rattle.heesch_audit.specs.Spelling.{HoldsUpTo, SpellCoronas};
ghost use Rattle.heesch_logs.specs.Near.{AreNearLayers};

use heesch_cert::Layers;
use heesch_corona::{CoronaAnswer, check_coronas};
use heesch_grid::Grid;
use heesch_io::NoMemory;
use heesch_logs::are_spelled;
use heesch_shape::Shape;
use std::alloc::Global;

/// Whether nothing is amiss but a hole in a patch of a level above `free_levels`.
fn holds_up_to(answer: &CoronaAnswer, free_levels: u32) -> bool
    ensures { IsTrue result ↔ HoldsUpTo free_levels answer.now }
{
    match answer {
        CoronaAnswer::Holds => true,
        CoronaAnswer::Hole { level, .. } => free_levels < *level,
        CoronaAnswer::Meets { .. } | CoronaAnswer::Loose { .. } => false,
        CoronaAnswer::Uncovered { .. } => false,
    }
}

/// Whether some level has to be hole-free.
fn is_some_free(free_levels: u32) -> bool
    ensures { IsTrue result ↔ 0 < free_levels }
{
    free_levels > 0
}

/// Whether the layers spell coronas whose patches of the levels 1 to `free_levels` are hole-free: the tiles of each
/// layer in rising order of their cell lists, each by its least isometry. Where there are no more layers than
/// `free_levels` that is hole-free coronas, and where `free_levels` is 0, coronas with holes allowed.
///
/// Condition: the shape is its own canonical list, the translations lie within 100,000 of 0, and there are at most six
/// layers. The turns may be any.
///
/// The cost is that of `are_spelled` and of `check_coronas` of `heesch_corona`, which looks for holes where
/// `free_levels` isn't 0.
pub fn spell_coronas<G: Grid>(
    alloc: Global,
    shape: &Shape<G>,
    layers: &Layers,
    free_levels: u32,
) -> Result<bool, NoMemory>
    requires shape { IsCanonicalShape G.geometry shape.now }
    requires near { AreNearLayers layers.now.layers }
    requires few { length layers.now.layers ≤ 6 }
    ensures { IfOk result (λ yes. IsTrue yes ↔ SpellCoronas G.geometry shape.now free_levels layers.now.layers) }
{
    if !are_spelled(shape, layers.layers.as_slice()) {
        return Ok(false);
    }
    let answer = check_coronas(alloc, shape, layers, is_some_free(free_levels))?;
    Ok(holds_up_to(&answer, free_levels))
}
