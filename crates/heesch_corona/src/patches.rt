//! The tiles that the isometries of layers give, by numbers.
ghost use Rattle.std.specs.Prelude.{◌≡◌, true, All, take, IfOk, OnOk};
ghost use Rattle.heesch_grid.specs.declared.Cell.{Cell};
ghost use Rattle.heesch_grid.specs.Cells.{has};
ghost use Rattle.heesch_grid.specs.Vectors.{IsWithin};
ghost use Rattle.heesch_grid.specs.Corona.{cells_of};
ghost use Rattle.heesch_corona.specs.Tiles.{IsInRange};
ghost use Rattle.heesch_corona.specs.Building.{IsAdded, AreAdded, IsBuilt};

use heesch_cert::Layers;
use heesch_grid::{Cell, Grid, Iso};
use heesch_index::CellIndex;
use heesch_io::NoMemory;
use heesch_shape::Shape;
use std::alloc::Global;

/// The polyform and the tiles of the layers, with numbers from 1, and how many of them each patch has: that of the
/// polyform alone, then that with each further layer.
#[derive(Drop)]
pub(crate) struct Patches {
    pub index: CellIndex,
    pub ends: Vec<u32>,
}

/// Adds the tile that an isometry gives.
fn add_tile<G: Grid>(index: &mut CellIndex, shape: &Shape<G>, by: Iso) -> Result<(), NoMemory>
    requires near { (c : Cell) → has shape.now c ≡ true → IsWithin 100000 c }
    requires by { IsInRange G.geometry by }
    ensures { OnOk result (IsAdded G.geometry shape.now by index.old index.new) }
{
    index.add(shape.image(by).cells())
}

/// Adds the tiles of a layer.
fn add_layer<G: Grid>(
    index: &mut CellIndex,
    shape: &Shape<G>,
    layer: &[Iso],
) -> Result<(), NoMemory>
    requires near { (c : Cell) → has shape.now c ≡ true → IsWithin 100000 c }
    requires layer { All (IsInRange G.geometry) layer.now }
    ensures { OnOk result (AreAdded G.geometry shape.now layer.now index.old index.new) }
{
    for by in layer {
        add_tile(index, shape, *by)?;
    }
    Ok(())
}

/// The tiles of the polyform and of the layers. It turns each cell of each tile once.
pub(crate) fn patches_of<G: Grid>(
    alloc: Global,
    shape: &Shape<G>,
    layers: &Layers,
) -> Result<Patches, NoMemory>
    requires near { (c : Cell) → has shape.now c ≡ true → IsWithin 100000 c }
    requires isometries { All (All (IsInRange G.geometry)) layers.now.layers }
    ensures { IfOk result
        (λ patches. IsBuilt G.geometry shape.now layers.now.layers patches.index patches.ends.items) }
{
    let mut index = CellIndex::new(alloc);
    index.add(shape.cells())?;
    let mut ends = Vec::new(alloc);
    ends.push(index.len())?;
    for layer in layers.layers.as_slice() {
        add_layer(&mut index, shape, layer.as_slice())?;
        ends.push(index.len())?;
    }
    Ok(Patches { index, ends })
}

/// Whether a cell is in one of the first so many tiles.
pub(crate) fn is_covered(index: &CellIndex, c: Cell, most: u32) -> bool
    ensures { result ≡ has (cells_of (take most index.now)) c }
{
    let numbers = index.covering(c);
    !numbers.is_empty() && numbers[0] <= most
}
