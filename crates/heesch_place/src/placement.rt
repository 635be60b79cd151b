//! A placement of a shape.
ghost use Rattle.std.specs.Prelude.{◌≡◌, ◌<◌, ◌*ℤ◌, pos, true, map, List, All};
ghost use Rattle.heesch_grid.specs.declared.Cell.{Cell};
ghost use Rattle.heesch_grid.specs.Cells.{cell, has, meet, IsCellListOf};
ghost use Rattle.heesch_grid.specs.Geometry.{image};
ghost use Rattle.heesch_grid.specs.Vectors.{IsWithin, plus};
ghost use Rattle.heesch_grid.specs.Placement.{touch, IsPlacement, IsLeastIsometry};
ghost use Rattle.heesch_shape.specs.Walks.{IsShape};

use crate::images::Images;
use crate::turned::{leading, turned};
use heesch_grid::{Cell, Grid, Iso};
use heesch_shape::Shape;
use std::marker::Model;

/// A placement of a shape, with the isometry of the least turn that gives it.
#[derive(Drop)]
pub struct Placement<G: Grid> {
    by: Iso,
    tile: Shape<G>,
}

impl<G: Grid> Model for Placement<G> {
    ghost use Rattle.heesch_place.specs.Universes.{Placed};

    ghost Value = { Placed };

    ghost view = { λ p. record { by = p.by; tile = p.tile } };
}

impl<G: Grid> Placement<G> {
    /// The image of the shape under an isometry whose turn is below TURNS, where the image has
    /// coordinates within 1,000,000 of 0. The isometry that it holds is the one of the least turn
    /// that gives the same image; its translation may be longer than that of the argument.
    ///
    /// It turns and sorts the cells of the shape once for each turn up to that one.
    pub fn new(shape: &Shape<G>, by: Iso) -> Placement<G>
        requires turn { by.turn < G.geometry.turns }
        requires within { All (IsWithin 1000000) (image G.geometry by shape.now) }
        ensures tile { IsCellListOf (image G.geometry by shape.now) result.tile }
        ensures least { IsLeastIsometry G.geometry shape.now result.tile result.by }
        ensures shape { IsShape G.geometry result.tile }
    {
        let _cells = shape.cells();
        let tile = shape.image(by);
        for k in 0..by.turn {
            if let Some(least) = leading(turned(shape, k).as_slice(), k, &tile) {
                return Placement { by: least, tile };
            }
        }
        Placement { by, tile }
    }

    /// The placement that has just the cells of the tile.
    pub(crate) fn onto(images: &Images<G>, tile: Shape<G>) -> Placement<G>
        requires { IsPlacement G.geometry images.now tile }
        ensures tile { result.tile ≡ tile }
        ensures least { IsLeastIsometry G.geometry images.now result.tile result.by }
    {
        for (k, turned) in images.turned().iter().enumerate() {
            if let Some(by) = leading(turned.cells(), k as u32, &tile) {
                return Placement { by, tile };
            }
        }
        unreachable!()
    }

    /// The placement, moved by so many units. It is one of the same turn, which is the least that gives it.
    pub(crate) fn moved(&self, units: Cell) -> Placement<G>
        requires near { IsWithin 10000 (cell self.now.by.da self.now.by.db) }
        requires cells { (c : Cell) → has self.now.tile c ≡ true → IsWithin 5000 c }
        requires units { IsWithin 105000 units }
        ensures tile { result.tile
            ≡ map (plus (cell (pos G.geometry.unit *ℤ units.a) (pos G.geometry.unit *ℤ units.b))) self.now.tile }
        ensures least { (shape : List Cell) → IsLeastIsometry G.geometry shape self.now.tile self.now.by
            → IsLeastIsometry G.geometry shape result.tile result.by }
    {
        let _cells = self.tile.cells();
        let step = Iso {
            turn: 0,
            da: units.a,
            db: units.b,
        };
        let by = Iso {
            turn: self.by.turn,
            da: self.by.da + units.a,
            db: self.by.db + units.b,
        };
        Placement {
            by,
            tile: self.tile.image(step),
        }
    }

    /// The isometry.
    pub fn iso(&self) -> Iso
        ensures { result ≡ self.now.by }
    {
        self.by
    }

    /// The cells.
    pub fn shape(&self) -> &Shape<G>
        ensures { result.now ≡ self.now.tile }
    {
        &self.tile
    }

    /// Whether the two share a cell. At most 64 comparisons.
    pub fn meets(&self, other: &Placement<G>) -> bool
        ensures { result ≡ meet self.now.tile other.now.tile }
    {
        self.tile.meets(&other.tile)
    }

    /// Whether the two share no cell, and a cell of one touches a cell of the other. The cells that
    /// touch one of its own are looked for among those of the other.
    pub fn touches(&self, other: &Placement<G>) -> bool
        ensures { result ≡ touch G.geometry self.now.tile other.now.tile }
    {
        self.tile.touches(&other.tile)
    }
}
