//! Isometries near 0.
ghost use Rattle.heesch_tiling.specs.Counting.{IsInRange};

use heesch_grid::{Grid, Iso};
use std::marker::PhantomData;

/// An isometry of the grid by a translation within 100,000 of 0.
#[derive(Drop)]
pub(crate) struct NearIso<G: Grid> {
    pub iso: Iso,
    pub grid: PhantomData<G>,
    ghost range: { IsInRange G.geometry iso },
}
