//! The images of a shape under each turn, and its forms among their moves.
ghost use Rattle.std.specs.Prelude.{◌≡◌, ◌≤◌, ◌<ℤ◌, ◌*ℤ◌, ◌+ℤ◌, ◌≤ℤ◌, pos, nat_abs, true, IfOk};
ghost use Rattle.heesch_grid.specs.declared.Cell.{Cell};
ghost use Rattle.heesch_grid.specs.Cells.{has};
ghost use Rattle.heesch_grid.specs.Vectors.{IsWithin};
ghost use Rattle.heesch_place.specs.Found.{AreTurned, IsMoved};
ghost use Rattle.heesch_place.specs.Spots.{AreForms, AreUnitsBack, BeginsInBlock};

use crate::lists::{add, listed_tiles};
use crate::turned::first_of;
use heesch_grid::{Cell, Grid, Iso};
use heesch_io::NoMemory;
use heesch_shape::Shape;
use std::alloc::Global;
use std::marker::Model;

/// A shape, and its images under each turn.
#[derive(Drop)]
pub(crate) struct Images<G: Grid> {
    shape: Shape<G>,
    turned: Vec<Shape<G>>,
}

impl<G: Grid> Model for Images<G> {
    ghost use Rattle.std.specs.Prelude.{List};
    ghost use Rattle.heesch_grid.specs.declared.Cell.{Cell};
    ghost use Rattle.heesch_place.specs.Found.{AreTurned};

    ghost Value = { List Cell };

    ghost view = { λ s. s.shape };

    ghost invariant = { λ s. AreTurned G.geometry s.shape s.turned.items };
}

/// The images of the shape under each turn, in the order of the turns.
fn all_turned<G: Grid>(alloc: Global, shape: &Shape<G>) -> Result<Vec<Shape<G>>, NoMemory>
    requires { (c : Cell) → has shape.now c ≡ true → IsWithin 200 c }
    ensures { IfOk result (λ all. AreTurned G.geometry shape.now all.items) }
{
    let mut all = Vec::new(alloc);
    for k in 0..G::TURNS {
        let by = Iso {
            turn: k,
            da: 0,
            db: 0,
        };
        add(&mut all, shape.image(by))?;
    }
    Ok(all)
}

/// How many units lie below the coordinate.
fn units_below(z: i32, unit: i32) -> i32
    requires { pos 1 ≤ℤ unit }
    ensures size { nat_abs result ≤ nat_abs z }
    ensures low { (unit *ℤ result) ≤ℤ z }
    ensures high { z <ℤ (unit *ℤ result +ℤ unit) }
{
    z.div_euclid(unit)
}

/// How many units move the cell to the block at the origin.
fn units_back(c: Cell, unit: i32) -> Cell
    requires positive { pos 1 ≤ℤ unit }
    requires near { IsWithin 400 c }
    ensures near { IsWithin 400 result }
    ensures back { AreUnitsBack unit c result }
{
    Cell {
        a: -units_below(c.a, unit),
        b: -units_below(c.b, unit),
    }
}

/// The tile, moved by whole units to where its first cell lies in the block at the origin.
fn settled<G: Grid>(tile: &Shape<G>) -> Shape<G>
    requires { (c : Cell) → has tile.now c ≡ true → IsWithin 400 c }
    ensures moved { IsMoved G.geometry tile.now result }
    ensures near { (c : Cell) → has result c ≡ true → IsWithin 5000 c }
    ensures begins { BeginsInBlock G.geometry result }
{
    let units = units_back(first_of(tile.cells()), G::UNIT);
    tile.image(Iso {
        turn: 0,
        da: units.a,
        db: units.b,
    })
}

impl<G: Grid> Images<G> {
    /// The images of a shape near 0.
    pub(crate) fn of(alloc: Global, shape: Shape<G>) -> Result<Images<G>, NoMemory>
        requires { (c : Cell) → has shape c ≡ true → IsWithin 200 c }
        ensures { IfOk result (λ images. images ≡ shape) }
    {
        let turned = all_turned(alloc, &shape)?;
        Ok(Images { shape, turned })
    }

    /// The shape, alone.
    pub(crate) fn into_shape(self) -> Shape<G>
        ensures { result ≡ self }
    {
        self.shape
    }

    /// The images, in the order of the turns.
    pub(crate) fn turned(&self) -> &[Shape<G>]
        ensures { AreTurned G.geometry self.now result.now }
    {
        self.turned.as_slice()
    }

    /// The forms of the shape, each once, in the order of their cell lists. Those of them that are moved to have the
    /// same first cell stand in the same order, whatever that cell.
    pub(crate) fn forms(&self, alloc: Global) -> Result<Vec<Shape<G>>, NoMemory>
        requires { (c : Cell) → has self.now c ≡ true → IsWithin 200 c }
        ensures { IfOk result (λ all. AreForms G.geometry self.now all.items) }
    {
        let mut all = Vec::new(alloc);
        for tile in self.turned() {
            add(&mut all, settled(tile))?;
        }
        Ok(listed_tiles(all))
    }
}
