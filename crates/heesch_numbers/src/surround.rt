//! The cells around the tile of a variable, found from those around the turned shape, without a list of their own.
ghost use Rattle.std.specs.Prelude.{◌≡◌, ◌<◌, ◌≤◌, ℕ, List, All, length, slice_index_or};
ghost use Rattle.heesch_grid.specs.declared.Cell.{Cell};
ghost use Rattle.heesch_grid.specs.Cells.{cell_before};
ghost use Rattle.heesch_grid.specs.CoronaFormula.{Variable, GivesCellsAround, IsNumbered};
ghost use Rattle.heesch_grid.specs.Geometry.{IsAround};
ghost use Rattle.heesch_grid.specs.Listing.{ListsExactly};
ghost use Rattle.heesch_grid.specs.Vectors.{IsWithin};
ghost use Rattle.heesch_encode.specs.Rings.{AreRings};
ghost use Rattle.heesch_numbers.specs.Common.{outside};
ghost use Rattle.heesch_numbers.specs.Moves.{moved_by};

use heesch_encode::TurnedRing;
use heesch_grid::moves::{difference, moved};
use heesch_grid::{Cell, Grid};
use heesch_place::Universe;
use heesch_shape::Shape;

/// The cells around a tile, in cell order: those around a turned shape, each moved by a step.
#[derive(Clone, Copy)]
pub(crate) struct Surround<'a> {
    ring: &'a [Cell],
    step: Cell,
    ghost near: { All (IsWithin 2000000) ring.now },
    ghost short: { IsWithin 3000000 step },
}

/// The cells around the tile of a variable. A constant time.
pub(crate) fn surround_of<'a, G: Grid>(
    rings: &'a [TurnedRing],
    universe: &Universe<G>,
    var: u32,
) -> Surround<'a>
    requires rings { AreRings G.geometry universe.now.shape rings.now }
    requires number { (1 ≤ var) × (var ≤ length universe.now.vars) }
    ensures listed { (x : Variable) → IsNumbered universe.now.vars var x
        → ListsExactly cell_before (IsAround G.geometry x.tile) (moved_by result.step result.ring.now) }
    ensures given { (x : Variable) (around : List Cell → List Cell) → IsNumbered universe.now.vars var x
        → GivesCellsAround G.geometry around → moved_by result.step result.ring.now ≡ around x.tile }
{
    let place = universe.placement_of(var);
    let turned = &rings[place.iso().turn as usize];
    let step = difference(turned.first, place.shape().cells()[0]);
    Surround {
        ring: turned.ring.as_slice(),
        step,
    }
}

impl<'a> Surround<'a> {
    /// How many cells there are.
    pub fn len(&self) -> usize
        ensures count { result ≡ length (moved_by self.now.step self.now.ring.now) }
        ensures small { result < 1152921504606846976 }
    {
        self.ring.len()
    }

    /// The cell at a place, from 0.
    pub fn at(&self, i: usize) -> Cell
        requires { i < length (moved_by self.now.step self.now.ring.now) }
        ensures { (d : Cell) → result ≡ slice_index_or (moved_by self.now.step self.now.ring.now) i d }
    {
        moved(self.ring[i], self.step)
    }
}

/// How many of the cells lie outside the shape. A look at each of them.
pub(crate) fn count_outside<G: Grid>(shape: &Shape<G>, cells: &Surround) -> usize
    ensures count { result ≡ length (outside shape.now (moved_by cells.now.step cells.now.ring.now)) }
    ensures small { result < 1152921504606846976 }
{
    let mut count = 0;
    for i in 0..cells.len() {
        if !shape.has(cells.at(i)) {
            count += 1;
        }
    }
    count
}

/// The cell at a place, from 0, among those outside the shape. A look at each cell up to it.
pub(crate) fn cell_outside<G: Grid>(shape: &Shape<G>, cells: &Surround, place: u32) -> Cell
    requires { place < length (outside shape.now (moved_by cells.now.step cells.now.ring.now)) }
    ensures { (d : Cell) → result
        ≡ slice_index_or (outside shape.now (moved_by cells.now.step cells.now.ring.now)) place d }
{
    let mut passed = 0;
    for i in 0..cells.len() {
        let c = cells.at(i);
        if !shape.has(c) {
            if passed == place {
                return c;
            }
            passed += 1;
        }
    }
    unreachable!()
}
