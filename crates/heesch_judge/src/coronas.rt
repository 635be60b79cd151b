//! Whether layers spell coronas.
ghost use Rattle.std.specs.Prelude.{◌≡◌, ◌↔◌, ◌≤◌, ◌∷◌, [], List, All, IfOk, IsTrue, length, take};
ghost use Rattle.heesch_grid.specs.declared.Cell.{Cell};
ghost use Rattle.heesch_grid.specs.Corona.{AreCoronas, StaysHoleFree};
ghost use Rattle.heesch_grid.specs.Polyform.{IsCanonicalListOf};
ghost use Rattle.heesch_corona.specs.Tiles.{AreTilesOf, IsInRange};
ghost use Rattle.heesch_levels.specs.UpTo.{SpellsUpTo};
ghost use Rattle.heesch_logs.specs.Near.{AreNearLayers};
ghost use Rattle.heesch_logs.specs.Spelling.{IsNearShape};

use heesch_cert::Layers;
use heesch_grid::{Grid, Iso};
use heesch_io::{NoMemory, Seq};
use heesch_logs::{are_coronas, are_near_layers, are_spelled};
use heesch_shape::Shape;
use std::alloc::Global;

/// The same isometries.
fn copy_layer(alloc: Global, layer: &[Iso]) -> Result<Seq<Iso>, NoMemory>
    ensures { IfOk result (λ copy. copy ≡ layer.now) }
{
    Ok(Seq::from_vec(Vec::from_slice(alloc, layer)?))
}

/// The first layers, so many.
fn first_layers(alloc: Global, layers: &Layers, count: usize) -> Result<Layers, NoMemory>
    requires { count ≤ length layers.now.layers }
    ensures { IfOk result (λ first. first.layers ≡ take count layers.now.layers) }
{
    let layers = layers.layers.as_slice();
    let mut first = Seq::new(alloc);
    for index in 0..count {
        first.push(copy_layer(alloc, layers[index].as_slice())?)?;
    }
    Ok(Layers { layers: first })
}

/// Whether the layers are coronas, whose patches of the levels 1 to `free_levels` are hole-free.
fn are_coronas_up_to<G: Grid>(
    alloc: Global,
    shape: &Shape<G>,
    free_levels: u32,
    layers: &Layers,
) -> Result<bool, NoMemory>
    requires shape { IsNearShape G.geometry shape.now }
    requires isometries { All (All (IsInRange G.geometry)) layers.now.layers }
    requires few { length layers.now.layers ≤ 6 }
    ensures { IfOk result (λ yes. (tiles : List (List (List Cell)))
        → AreTilesOf G.geometry shape.now layers.now.layers tiles
        → IsTrue yes ↔ (AreCoronas G.geometry shape.now tiles
        × StaysHoleFree G.geometry (shape.now ∷ []) (take free_levels tiles))) }
{
    let free_levels = free_levels as usize;
    if layers.layers.len() <= free_levels {
        return are_coronas(alloc, shape, layers, true);
    }
    let whole = are_coronas(alloc, shape, layers, false)?;
    if !whole {
        return Ok(false);
    }
    if free_levels == 0 {
        return Ok(true);
    }
    let inner = first_layers(alloc, layers, free_levels)?;
    are_coronas(alloc, shape, &inner, true)
}

/// Whether the layers spell so many coronas of the shape whose patches of the levels 1 to `free_levels` are hole-free,
/// with translations within 100,000 of 0: coronas that `heesch_levels::level_up_to` may answer.
///
/// Condition: the shape is its own canonical list, and the level is at most 6. The layers may be any. The cost is that
/// of `check_coronas`; and where holes are forbidden at some levels but not at all, that for these levels once more,
/// whose layers are copied.
pub fn spells_up_to<G: Grid>(
    alloc: Global,
    shape: &Shape<G>,
    level: u32,
    free_levels: u32,
    layers: &Layers,
) -> Result<bool, NoMemory>
    requires canonical { IsCanonicalListOf G.geometry shape.now shape.now }
    requires level { level ≤ 6 }
    ensures { IfOk result (λ yes. IsTrue yes ↔ (AreNearLayers layers.now.layers
        × SpellsUpTo G.geometry shape.now level free_levels layers.now)) }
{
    // Reading the cells tells the proof that they are a polyform.
    let _cells = shape.cells();
    let isometries = layers.layers.as_slice();
    if isometries.len() != level as usize || !are_near_layers(isometries) {
        return Ok(false);
    }
    if !are_spelled(shape, isometries) {
        return Ok(false);
    }
    are_coronas_up_to(alloc, shape, free_levels, layers)
}
