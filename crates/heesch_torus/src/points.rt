//! The numbers of the reduced cells, in cell order.
ghost use Rattle.std.specs.Prelude.{◌≡◌, ◌<◌, ◌≤◌, ◌+◌, ◌*◌, ℕ, Some, length, cond, nat_lt, IfOk};
ghost use Rattle.std.specs.List.{slice_get};
ghost use Rattle.std.specs.Int.{bit_at};
ghost use Rattle.heesch_grid.specs.Geometry.{IsCell, apply};
ghost use Rattle.heesch_grid.specs.Vectors.{IsWithin};
ghost use Rattle.heesch_tiling.specs.Counting.{residue};
ghost use Rattle.heesch_torus.specs.Formula.{reduced_cells};
ghost use Rattle.heesch_torus.specs.Masks.{ArePoints};
ghost use Rattle.heesch_torus.specs.Stepping.{ArePointsOf};

use crate::near_iso::NearIso;
use crate::torus::Torus;
use arrayvec::ArrayVec;
use heesch_grid::{Cell, Grid};
use heesch_io::NoMemory;
use heesch_lattice::Triple;
use heesch_shape::CELLS_MAX;
use heesch_tiling::{number_of, pair_at, residue_of, window_size};
use std::alloc::Global;

/// The numbers of the cells of the window among its cells, and how many these are.
#[derive(Drop)]
pub(crate) struct Points {
    pub(crate) numbers: Vec<u32>,
    pub(crate) count: u32,
}

/// The numbers of the reduced cells of a tile, in the order of its cells.
pub(crate) type TilePoints = ArrayVec<u32, CELLS_MAX>;

/// The numbers of the reduced cells of a triple.
pub(crate) fn points_of<G: Grid>(alloc: Global, triple: Triple) -> Result<Points, NoMemory>
    requires { triple.p * triple.q ≤ 384 }
    ensures { IfOk result (λ p. ArePoints G.geometry triple p.numbers.items p.count) }
{
    let mut numbers = Vec::new(alloc);
    let mut count = 0;
    for k in 0..window_size::<G>(triple) {
        numbers.push(count)?;
        if G::is_cell(pair_at::<G>(triple, k)) {
            count += 1;
        }
    }
    Ok(Points { numbers, count })
}

/// The number of the reduced cell of the image of c.
pub(crate) fn point_of<G: Grid>(torus: &Torus<G>, by: &NearIso<G>, c: Cell) -> u32
    requires { IsCell G.geometry c × IsWithin 100000 c }
    ensures { slice_get (reduced_cells G.geometry torus.now.triple) result ≡ Some
        (residue G.geometry torus.now.triple (apply G.geometry by.now.iso c)) }
{
    let triple = torus.triple;
    torus.numbers[number_of::<G>(triple, residue_of::<G>(triple, by.iso, c))]
}

/// The numbers of the reduced cells of a tile, in the order of its cells.
pub(crate) fn points_of_tile<G: Grid>(torus: &Torus<G>, by: &NearIso<G>) -> TilePoints
    ensures { ArePointsOf G.geometry torus.now.cells.now torus.now.triple by.now.iso result.items }
{
    let mut points = ArrayVec::new();
    for c in torus.cells {
        points.push(point_of(torus, by, *c));
    }
    points
}

/// The mask of so many points.
pub(crate) fn all_points(count: u32) -> u64
    requires some { 1 ≤ count }
    requires few { count ≤ 64 }
    ensures { (k : ℕ) → bit_at result k ≡ cond (nat_lt k count) 1 0 }
{
    u64::MAX >> (64 - count)
}
