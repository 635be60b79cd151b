//! A shape under all turns.
ghost use Rattle.std.specs.Prelude.{◌≡◌, ◌<◌, true, IfOk, IfSome, IfNone};
ghost use Rattle.heesch_grid.specs.declared.Cell.{Cell};
ghost use Rattle.heesch_grid.specs.Cells.{has};
ghost use Rattle.heesch_grid.specs.Vectors.{IsWithin};

use crate::steps::step_between;
use heesch_grid::{Cell, Grid, Iso};
use heesch_io::NoMemory;
use heesch_shape::Shape;
use std::alloc::Global;
use std::marker::Model;

/// The images of a shape under the turns alone. Contracts see the shape.
#[derive(Drop)]
pub(crate) struct Turned<G: Grid> {
    images: Vec<Shape<G>>,
}

impl<G: Grid> Model for Turned<G> {
    ghost use Rattle.std.specs.Prelude.{List};
    ghost use Rattle.heesch_grid.specs.declared.Cell.{Cell};
    ghost use Rattle.heesch_orbit.specs.Turned.{first_of, AreTurned};

    ghost Value = { List Cell };

    ghost view = { λ t. first_of t.images.items };

    ghost invariant = { λ t. AreTurned G.geometry (first_of t.images.items) t.images.items };
}

impl<G: Grid> Turned<G> {
    ghost use Rattle.heesch_orbit.specs.Steps.{IsStep};

    /// The images of a shape whose cells lie within 100,000 of 0. Cost: one image a turn.
    pub(crate) fn new(alloc: Global, shape: &Shape<G>) -> Result<Turned<G>, NoMemory>
        requires { (c : Cell) → has shape.now c ≡ true → IsWithin 100000 c }
        ensures { IfOk result (λ turned. turned ≡ shape.now) }
    {
        let _cells = shape.cells();
        let mut images = Vec::new(alloc);
        for turn in 0..G::TURNS {
            images.push(shape.image(Iso { turn, da: 0, db: 0 }))?;
        }
        Ok(Turned { images })
    }

    /// The translation, in units, that carries the image under one turn to the image under another,
    /// if there is one. Both are turns of the grid. Cost: one comparison a cell.
    pub(crate) fn step(&self, from: u32, to: u32) -> Option<Cell>
        requires from { from < G.geometry.turns }
        requires to { to < G.geometry.turns }
        ensures near { IfSome result (IsWithin 400000) }
        ensures some { IfSome result (IsStep G.geometry self.now from to) }
        ensures only { IfSome result (λ v. (w : Cell) → IsStep G.geometry self.now from to w → w ≡ v) }
        ensures none { IfNone result ((v : Cell) → IsStep G.geometry self.now from to v → ⊥) }
    {
        step_between(&self.images[from as usize], &self.images[to as usize])
    }
}
