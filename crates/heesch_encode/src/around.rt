//! The cells around the placements of a shape: those around the turned shape, moved.
ghost use Rattle.std.specs.Prelude.{◌≡◌, ◌<◌, ◌≤◌, true, List, length, OnOk, IfOk};
ghost use Rattle.heesch_grid.specs.declared.Cell.{Cell};
ghost use Rattle.heesch_grid.specs.Cells.{cell_before, has};
ghost use Rattle.heesch_grid.specs.CoronaFormula.{Variable, GivesCellsAround, IsNumbered};
ghost use Rattle.heesch_grid.specs.Geometry.{IsAround};
ghost use Rattle.heesch_grid.specs.Listing.{ListsExactly};
ghost use Rattle.heesch_grid.specs.Vectors.{IsWithin};
ghost use Rattle.heesch_encode.specs.Rings.{IsTurnedRing, AreRings};

use crate::lists::add;
use crate::ring::write_ring;
use heesch_grid::moves::{difference, moved};
use heesch_grid::{Cell, Grid, Iso};
use heesch_io::NoMemory;
use heesch_place::Universe;
use heesch_shape::Shape;
use std::alloc::Global;

/// The cells around the shape under one turn, in cell order, and its first cell there.
#[derive(Drop)]
pub struct TurnedRing {
    pub first: Cell,
    pub ring: Vec<Cell>,
}

/// The cells around the shape under turn k.
fn turned_ring<G: Grid>(alloc: Global, shape: &Shape<G>, k: u32) -> Result<TurnedRing, NoMemory>
    requires turn { k < G.geometry.turns }
    requires near { (c : Cell) → has shape.now c ≡ true → IsWithin 200 c }
    ensures { IfOk result (IsTurnedRing G.geometry shape.now k) }
{
    let by = Iso {
        turn: k,
        da: 0,
        db: 0,
    };
    let tile = shape.image(by);
    let first = tile.cells()[0];
    let mut ring = Vec::new(alloc);
    write_ring(&mut ring, &tile)?;
    Ok(TurnedRing { first, ring })
}

/// The cells around the shape under each of the turns. Condition: the coordinates of its cells lie within 200 of 0. It
/// goes once over the neighbours of each cell of each turned shape.
pub fn rings_of<G: Grid>(alloc: Global, shape: &Shape<G>) -> Result<Vec<TurnedRing>, NoMemory>
    requires { (c : Cell) → has shape.now c ≡ true → IsWithin 200 c }
    ensures { IfOk result (λ rings. AreRings G.geometry shape.now rings.items) }
{
    let mut rings = Vec::new(alloc);
    for k in 0..G::TURNS {
        let turned = turned_ring(alloc, shape, k)?;
        add(&mut rings, turned)?;
    }
    Ok(rings)
}

/// Lists the cells around the tile of a variable, in cell order, in place of what the list had. A step for each of
/// them.
pub fn write_moved<G: Grid>(
    ring: &mut Vec<Cell>,
    rings: &[TurnedRing],
    universe: &Universe<G>,
    var: u32,
) -> Result<(), NoMemory>
    requires rings { AreRings G.geometry universe.now.shape rings.now }
    requires number { (1 ≤ var) × (var ≤ length universe.now.vars) }
    ensures listed { (x : Variable) → IsNumbered universe.now.vars var x
        → OnOk result (ListsExactly cell_before (IsAround G.geometry x.tile) ring.new.items) }
    ensures given { (x : Variable) (around : List Cell → List Cell) → IsNumbered universe.now.vars var x
        → GivesCellsAround G.geometry around → OnOk result (ring.new.items ≡ around x.tile) }
{
    let place = universe.placement_of(var);
    let turned = &rings[place.iso().turn as usize];
    let step = difference(turned.first, place.shape().cells()[0]);
    ring.clear();
    for c in turned.ring.as_slice() {
        add(ring, moved(*c, step))?;
    }
    Ok(())
}
