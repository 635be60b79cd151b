//! The torus that is searched by masks.
ghost use Rattle.std.specs.Prelude.{◌≤◌, ◌*◌};
ghost use Rattle.std.proofs.Props.{props};
ghost use Rattle.heesch_torus.specs.Covers.{HasAllPoints};
ghost use Rattle.heesch_torus.specs.Masks.{IsMaskable};

use heesch_grid::{Cell, Grid};
use heesch_lattice::Triple;
use std::marker::PhantomData;

/// The torus of a triple, of at most 64 cells, on which tiles of these cells stand: the numbers of the window's pairs
/// among its cells, and the mask of all its cells.
#[derive(Drop)]
pub(crate) struct Torus<'a, G: Grid> {
    pub cells: &'a [Cell],
    pub triple: Triple,
    pub numbers: &'a [u32],
    pub full: u64,
    pub grid: PhantomData<G>,
    ghost maskable: { IsMaskable G.geometry cells.now triple numbers.now } by { Prim.hlevel props },
    ghost small: { triple.p * triple.q ≤ 384 },
    ghost whole: { HasAllPoints G.geometry triple full },
}
