//! Steps on a torus: where each of its cells comes when it is moved by one unit.
ghost use Rattle.std.specs.Prelude.{◌≡◌, ◌<◌, map, length, slice_index, All};
ghost use Rattle.heesch_torus.specs.Stepping.{IsStep, AreSteps};

use crate::near_iso::NearIso;
use crate::points::point_of;
use crate::torus::Torus;
use arrayvec::ArrayVec;
use heesch_grid::{Grid, Iso};
use heesch_tiling::{pair_at, window_size};
use std::marker::PhantomData;

/// A torus that is searched by masks has at most so many cells.
const POINTS_MAX: usize = 64;

/// For the number of each reduced cell the number of the cell one step further.
type Step = ArrayVec<u32, POINTS_MAX>;

/// The steps by one unit to the right and up.
#[derive(Drop)]
pub(crate) struct Steps {
    pub(crate) right: Step,
    pub(crate) up: Step,
}

/// The step by a translation.
fn step_of<G: Grid>(torus: &Torus<G>, by: &NearIso<G>) -> Step
    requires { by.now.iso.turn ≡ 0 }
    ensures { IsStep G.geometry torus.now.triple by.now.iso.da by.now.iso.db result.items }
{
    let triple = torus.triple;
    let mut step = ArrayVec::new();
    for k in 0..window_size::<G>(triple) {
        let c = pair_at::<G>(triple, k);
        if G::is_cell(c) {
            step.push(point_of(torus, by, c));
        }
    }
    step
}

/// The steps of a torus: two reductions for each of its cells.
pub(crate) fn steps_of<G: Grid>(torus: &Torus<G>) -> Steps
    ensures { AreSteps G.geometry torus.now.triple result }
{
    Steps {
        right: step_of(
            torus,
            &NearIso {
                iso: Iso {
                    turn: 0,
                    da: 1,
                    db: 0,
                },
                grid: PhantomData,
            },
        ),
        up: step_of(
            torus,
            &NearIso {
                iso: Iso {
                    turn: 0,
                    da: 0,
                    db: 1,
                },
                grid: PhantomData,
            },
        ),
    }
}

/// Moves points one step further.
pub(crate) fn take_step(points: &mut [u32], step: &[u32])
    requires { All (λ p. p < length step.now) points.old }
    ensures { points.new ≡ map (slice_index step.now) points.old }
{
    for i in 0..points.len() {
        points[i] = step[points[i] as usize];
    }
}
