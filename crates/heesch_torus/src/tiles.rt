//! The tiles of a shape on the torus of a triple.
ghost use Rattle.std.specs.Prelude.{◌≡◌, ◌≤◌, ◌*◌, true, length};
ghost use Rattle.heesch_grid.specs.declared.Cell.{Cell};
ghost use Rattle.heesch_grid.specs.Cells.{has};
ghost use Rattle.heesch_grid.specs.Geometry.{IsCell};
ghost use Rattle.heesch_grid.specs.Lattice.{IsTriple};
ghost use Rattle.heesch_grid.specs.Vectors.{IsWithin};

use heesch_grid::{Cell, Grid};
use heesch_lattice::Triple;
use std::marker::PhantomData;

/// The cells of a shape, near 0, and a triple on whose torus its tiles stand, with at most 384 translations.
#[derive(Drop)]
pub(crate) struct Tiles<'a, G: Grid> {
    pub cells: &'a [Cell],
    pub triple: Triple,
    pub grid: PhantomData<G>,
    ghost lattice: { IsTriple triple },
    ghost small: { triple.p * triple.q ≤ 384 },
    ghost few: { length cells.now ≤ 32 },
    ghost near: { (c : Cell) → has cells.now c ≡ true → IsCell G.geometry c × IsWithin 100000 c },
}
