//! Isometries of a grid.
ghost use Rattle.std.specs.Prelude.{◌≡◌, ◌<◌, ◌+ℤ◌, ◌≤ℤ◌, ◌*ℤ◌, neg_ℤ, pos};
ghost use Rattle.heesch_grid.specs.declared.Cell.{Cell};
ghost use Rattle.heesch_grid.specs.Cells.{cell};
ghost use Rattle.heesch_grid.specs.Geometry.{apply};
ghost use Rattle.heesch_grid.specs.Vectors.{IsWithin};

use crate::{Cell, Grid};

/// A turn by its number, reflections included, followed by a translation by UNIT times (da, db).
#[derive(Clone, Copy, Debug, PartialEq, Eq)]
pub struct Iso {
    /// Below the grid's TURNS.
    pub turn: u32,
    /// In units along the first coordinate.
    pub da: i32,
    /// In units along the second coordinate.
    pub db: i32,
}

/// A multiple of a unit.
fn scaled(unit: i32, n: i32) -> i32
    requires positive { pos 1 ≤ℤ unit }
    requires small { unit ≤ℤ pos 6 }
    requires low { neg_ℤ (pos 1000000) ≤ℤ n }
    requires high { n ≤ℤ pos 1000000 }
    ensures { result ≡ unit *ℤ n }
{
    unit * n
}

/// A coordinate moved by n units, where it and the result are known to be near 0.
fn shifted(z: i32, unit: i32, n: i32) -> i32
    requires low { neg_ℤ (pos 2000000) ≤ℤ z }
    requires high { z ≤ℤ pos 2000000 }
    requires result_low { neg_ℤ (pos 1000000) ≤ℤ (z +ℤ unit *ℤ n) }
    requires result_high { (z +ℤ unit *ℤ n) ≤ℤ pos 1000000 }
    ensures { result ≡ z +ℤ unit *ℤ n }
{
    z + unit * n
}

impl Iso {
    /// The image of c: turned, and then moved by UNIT times (da, db).
    ///
    /// The turn is below TURNS, da and db lie within 100,000 of 0, and the coordinates of c within
    /// 1,000,000, whether or not c is a cell. Takes a fixed number of steps and no memory.
    pub fn apply<G: Grid>(self, c: Cell) -> Cell
        requires turn { self.turn < G.geometry.turns }
        requires near { IsWithin 100000 (cell self.da self.db) }
        requires within { IsWithin 1000000 c }
        ensures { result ≡ apply G.geometry self c }
    {
        let turned = G::turn(self.turn, c);
        Cell {
            a: turned.a + scaled(G::UNIT, self.da),
            b: turned.b + scaled(G::UNIT, self.db),
        }
    }

    /// The image of c under a translation of any length, where the image is known to lie within
    /// 1,000,000 of 0.
    ///
    /// The turn is below TURNS, and the coordinates of c lie within 1,000,000 of 0. Takes a fixed
    /// number of steps and no memory.
    pub fn apply_far<G: Grid>(self, c: Cell) -> Cell
        requires turn { self.turn < G.geometry.turns }
        requires within { IsWithin 1000000 c }
        requires image_within { IsWithin 1000000 (apply G.geometry self c) }
        ensures { result ≡ apply G.geometry self c }
    {
        let turned = G::turn(self.turn, c);
        Cell {
            a: shifted(turned.a, G::UNIT, self.da),
            b: shifted(turned.b, G::UNIT, self.db),
        }
    }

    /// First `self`, and then `next`, as one isometry.
    ///
    /// Both turns are below TURNS, and each da and db lies within 100,000 of 0. Those of the result
    /// lie within 300,000. Takes a fixed number of steps and no memory.
    pub fn then<G: Grid>(self, next: Iso) -> Iso
        requires turn { self.turn < G.geometry.turns }
        requires next_turn { next.turn < G.geometry.turns }
        requires near { IsWithin 100000 (cell self.da self.db) }
        requires next_near { IsWithin 100000 (cell next.da next.db) }
        ensures turn { result.turn ≡ G.geometry.compose self.turn next.turn }
        ensures near { IsWithin 300000 (cell result.da result.db) }
        ensures images { (c : Cell) → apply G.geometry result c ≡ apply G.geometry next (apply G.geometry self c) }
    {
        let moved = G::turn(
            next.turn,
            Cell {
                a: self.da,
                b: self.db,
            },
        );
        Iso {
            turn: G::compose(self.turn, next.turn),
            da: moved.a + next.da,
            db: moved.b + next.db,
        }
    }

    /// The inverse: before or after `self`, it leaves each pair where it was.
    ///
    /// The turn is below TURNS, and da and db lie within 100,000 of 0. Those of the result lie
    /// within 200,000. Takes a fixed number of steps and no memory.
    pub fn undo<G: Grid>(self) -> Iso
        requires turn { self.turn < G.geometry.turns }
        requires near { IsWithin 100000 (cell self.da self.db) }
        ensures turn { result.turn ≡ G.geometry.inverse self.turn }
        ensures near { IsWithin 200000 (cell result.da result.db) }
        ensures after { (c : Cell) → apply G.geometry result (apply G.geometry self c) ≡ c }
        ensures before { (c : Cell) → apply G.geometry self (apply G.geometry result c) ≡ c }
    {
        let turn = G::inverse(self.turn);
        let moved = G::turn(
            turn,
            Cell {
                a: self.da,
                b: self.db,
            },
        );
        Iso {
            turn,
            da: -moved.a,
            db: -moved.b,
        }
    }
}
