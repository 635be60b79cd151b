//! The masks of tiles: the sets of their reduced cells.
ghost use Rattle.std.specs.Prelude.{◌<◌, ◌*◌, All, IfSome, IfNone, OnOk};
ghost use Rattle.heesch_torus.specs.Masks.{IsMaskOf, HasDouble, AddsMasks};
ghost use Rattle.heesch_torus.specs.Stepping.{AreSteps, HasBits, HasTwice};

use crate::near_iso::NearIso;
use crate::points::points_of_tile;
use crate::steps::{Steps, take_step};
use crate::torus::Torus;
use heesch_grid::{Grid, Iso};
use heesch_io::NoMemory;
use std::marker::PhantomData;

/// The word with the bits of the points, where these all differ.
fn word_of(points: &[u32]) -> Option<u64>
    requires { All (λ p. p < 64) points.now }
    ensures found { IfSome result (HasBits points.now) }
    ensures none { IfNone result (HasTwice points.now) }
{
    let mut word = 0;
    for point in points {
        if (word >> *point) & 1 == 1 {
            return None;
        }
        word |= 1 << *point;
    }
    Some(word)
}

/// The mask of a tile, where its reduced cells all differ.
pub(crate) fn mask_of<G: Grid>(torus: &Torus<G>, by: &NearIso<G>) -> Option<u64>
    ensures found { IfSome result (IsMaskOf G.geometry torus.now.cells.now torus.now.triple by.now.iso) }
    ensures none { IfNone result (HasDouble G.geometry torus.now.cells.now torus.now.triple by.now.iso) }
{
    let points = points_of_tile(torus, by);
    word_of(points.as_slice())
}

/// Adds the masks of the tiles of a turn within the triple. The first tile's cells are reduced, and those of the
/// others found by steps: p steps to the right lead back to the first tile of a row.
pub(crate) fn add_masks<G: Grid>(
    masks: &mut Vec<u64>,
    torus: &Torus<G>,
    steps: &Steps,
    turn: u32,
) -> Result<(), NoMemory>
    requires steps { AreSteps G.geometry torus.now.triple steps.now }
    requires turn { turn < G.geometry.turns }
    ensures { OnOk result
        (AddsMasks G.geometry torus.now.cells.now torus.now.triple turn (torus.now.triple.p * torus.now.triple.q)
        masks.old.items masks.new.items) }
{
    let triple = torus.triple;
    let unmoved = NearIso::<G> {
        iso: Iso { turn, da: 0, db: 0 },
        grid: PhantomData,
    };
    let mut points = points_of_tile(torus, &unmoved);
    if word_of(points.as_slice()).is_none() {
        return Ok(());
    }
    for db in 0..triple.q {
        for da in 0..triple.p {
            if let Some(mask) = word_of(points.as_slice()) {
                masks.push(mask)?;
            }
            take_step(points.as_mut_slice(), steps.right.as_slice());
        }
        take_step(points.as_mut_slice(), steps.up.as_slice());
    }
    Ok(())
}
