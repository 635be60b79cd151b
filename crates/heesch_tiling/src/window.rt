//! The pairs whose unit is reduced, by their numbers in cell order.
ghost use Rattle.std.specs.Prelude.{◌≡◌, ◌<◌, ◌≤◌, ◌+◌, ◌*◌, ℕ, ◌≤ℤ◌, ◌<ℤ◌, pos};
ghost use Rattle.heesch_grid.specs.Geometry.{IsCell, apply};
ghost use Rattle.heesch_grid.specs.Lattice.{IsTriple, IsReduced};
ghost use Rattle.heesch_grid.specs.Vectors.{IsWithin};
ghost use Rattle.heesch_lattice.specs.Reduction.{IsSmallTriple};
ghost use Rattle.heesch_tiling.specs.Counting.{residue, spot, window_size, in_window, IsInRange};

use heesch_grid::{Cell, Grid, Iso};
use heesch_lattice::Triple;

/// The side of n units.
fn side<G: Grid>(n: u32) -> u32
    requires { n ≤ 4096 }
    ensures is { result ≡ G.geometry.unit * n }
    ensures few { result ≤ 24576 }
{
    G::UNIT as u32 * n
}

/// The k-th pair of a window that is so wide, in cell order.
pub(crate) fn spot(wide: u32, k: u32) -> Cell
    requires some { 1 ≤ wide }
    requires few { k ≤ 1000000 }
    ensures is { result ≡ spot wide k }
    ensures within { IsWithin 1000000 result }
{
    Cell {
        a: (k % wide) as i32,
        b: (k / wide) as i32,
    }
}

/// The number of a pair in a window that is so wide.
fn number(wide: u32, c: Cell) -> usize
    requires wide { wide ≤ 24576 }
    requires a_from { pos 0 ≤ℤ c.a }
    requires b_from { pos 0 ≤ℤ c.b }
    ensures { (x y : ℕ) → c.a ≡ pos x → c.b ≡ pos y → result ≡ y * wide + x }
{
    c.b as usize * wide as usize + c.a as usize
}

/// How many pairs have a reduced unit. It takes no memory.
pub fn window_size<G: Grid>(triple: Triple) -> usize
    ensures triple { IsSmallTriple triple }
    ensures is { result ≡ window_size G.geometry triple }
    ensures few { result ≤ 36 * (triple.p * triple.q) }
{
    side::<G>(triple.p) as usize * side::<G>(triple.q) as usize
}

/// The k-th pair with a reduced unit, in cell order. It takes no memory.
pub fn pair_at<G: Grid>(triple: Triple, k: usize) -> Cell
    requires { k ≤ 1000000 }
    ensures is { result ≡ in_window G.geometry triple k }
    ensures within { IsWithin 1000000 result }
{
    spot(side::<G>(triple.p), k as u32)
}

/// The number of a reduced cell among these pairs, from 0. It takes no memory.
pub fn number_of<G: Grid>(triple: Triple, c: Cell) -> usize
    requires triple { IsTriple triple }
    requires reduced { IsReduced G.geometry triple c }
    ensures is { in_window G.geometry triple result ≡ c }
    ensures below { result < window_size G.geometry triple }
{
    number(side::<G>(triple.p), c)
}

/// The reduced cell of the image of c. Condition: c is a cell and lies within 100,000 of 0, and the isometry is one of
/// the grid's, by a translation within 100,000 of 0. It takes no memory.
pub fn residue_of<G: Grid>(triple: Triple, by: Iso, c: Cell) -> Cell
    requires range { IsInRange G.geometry by }
    requires near { IsCell G.geometry c × IsWithin 100000 c }
    ensures triple { IsTriple triple }
    ensures is { result ≡ residue G.geometry triple (apply G.geometry by c) }
    ensures reduced { IsReduced G.geometry triple result }
{
    triple.reduce::<G>(by.apply::<G>(c))
}

/// The number of the reduced cell of the image of c.
pub(crate) fn residue_number<G: Grid>(triple: Triple, by: Iso, c: Cell) -> usize
    requires range { IsInRange G.geometry by }
    requires near { IsCell G.geometry c × IsWithin 100000 c }
    ensures triple { IsTriple triple }
    ensures is { in_window G.geometry triple result ≡ residue G.geometry triple (apply G.geometry by c) }
    ensures below { result < window_size G.geometry triple }
    ensures reduced { IsReduced G.geometry triple (in_window G.geometry triple result) }
{
    number_of::<G>(triple, residue_of::<G>(triple, by, c))
}
