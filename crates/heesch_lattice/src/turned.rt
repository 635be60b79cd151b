//! Whether a turn carries one lattice onto another.
ghost use Rattle.std.specs.Prelude.{◌≡◌, ◌<◌, pos, true, ◌↔◌};
ghost use Rattle.heesch_grid.specs.Cells.{cell, origin};
ghost use Rattle.heesch_grid.specs.Geometry.{moved};
ghost use Rattle.heesch_grid.specs.Lattice.{IsTriple};
ghost use Rattle.heesch_grid.specs.Vectors.{IsWithin};
ghost use Rattle.heesch_lattice.specs.Turned.{CarriesVectors, TurnsOnto};

use crate::Triple;
use heesch_grid::{Cell, Grid, Iso};

/// The pair (0, 0).
const ORIGIN: Cell = Cell { a: 0, b: 0 };

/// The lattice's vector (p, 0), in units.
pub fn first_vector(triple: Triple) -> Cell
    ensures triple { IsTriple triple }
    ensures is { result ≡ cell (pos triple.p) (pos 0) }
    ensures near { IsWithin 10000 result }
{
    Cell {
        a: triple.p as i32,
        b: 0,
    }
}

/// The lattice's vector (s, q), in units.
pub fn second_vector(triple: Triple) -> Cell
    ensures is { result ≡ cell (pos triple.s) (pos triple.q) }
    ensures near { IsWithin 10000 result }
{
    Cell {
        a: triple.s as i32,
        b: triple.q as i32,
    }
}

/// Where turn k brings the pair that is v, in units, from (0, 0).
fn turned_end<G: Grid>(k: u32, v: Cell) -> Cell
    requires turn { k < G.geometry.turns }
    requires near { IsWithin 10000 v }
    ensures { result ≡ G.geometry.turn k (moved G.geometry v.a v.b origin) }
{
    let moved = G::turn(k, v);
    let by = Iso {
        turn: k,
        da: moved.a,
        db: moved.b,
    };
    by.apply::<G>(ORIGIN)
}

/// Whether turn k brings the ends of two vectors, in units, from (0, 0) to where they differ by the lattice from (0,
/// 0).
fn carries<G: Grid>(k: u32, first: Cell, second: Cell, to: Triple) -> bool
    requires turn { k < G.geometry.turns }
    requires first { IsWithin 10000 first }
    requires second { IsWithin 10000 second }
    ensures { (result ≡ true) ↔ CarriesVectors G.geometry k first second to }
{
    let start = G::turn(k, ORIGIN);
    to.same::<G>(start, turned_end::<G>(k, first))
        && to.same::<G>(start, turned_end::<G>(k, second))
}

/// Whether turn k, which is below TURNS, carries the lattice of one triple onto that of the other. Cost: the turns of
/// six pairs, and 24 divisions.
pub fn is_turned<G: Grid>(k: u32, from: Triple, to: Triple) -> bool
    requires { k < G.geometry.turns }
    ensures onto { (result ≡ true) ↔ TurnsOnto G.geometry k from to }
    ensures triples { IsTriple from × IsTriple to }
{
    let back = G::inverse(k);
    let (first, second) = (first_vector(from), second_vector(from));
    let (other_first, other_second) = (first_vector(to), second_vector(to));
    carries::<G>(k, first, second, to) && carries::<G>(back, other_first, other_second, from)
}
