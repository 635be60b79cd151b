//! The vectors of a lattice.
ghost use Rattle.std.specs.Prelude.{◌≡◌, ◌≤◌, ◌<◌, ◌-ℤ◌, ◌*ℤ◌, ◌≤ℤ◌, pos, neg_ℤ, true, ◌↔◌};
ghost use Rattle.heesch_grid.specs.Vectors.{IsWithin};
ghost use Rattle.heesch_orbit.specs.Steps.{IsVector};
ghost use Rattle.heesch_orbit.specs.Symmetries.{first_vector, second_vector};

use heesch_grid::Cell;
use heesch_grid::moves::exact_quotient;
use heesch_lattice::Triple;

/// The number, less j times s.
fn less(z: i64, j: i64, s: u32) -> i64
    requires z_low { neg_ℤ (pos 2000000) ≤ℤ z }
    requires z_high { z ≤ℤ pos 2000000 }
    requires low { neg_ℤ (pos 2000000) ≤ℤ j }
    requires high { j ≤ℤ pos 2000000 }
    requires small { s ≤ 4096 }
    ensures is { result ≡ z -ℤ (j *ℤ pos s) }
    ensures low { neg_ℤ (pos 10000000000) ≤ℤ result }
    ensures high { result ≤ℤ pos 10000000000 }
{
    z - j * s as i64
}

/// Whether v, in units, is a vector of the lattice: j times (s, q) for the one j that fits its
/// second number, and then some i times (p, 0).
pub(crate) fn has_vector(triple: Triple, v: Cell) -> bool
    requires { IsWithin 2000000 v }
    ensures { (result ≡ true) ↔ IsVector triple v }
{
    let Some(j) = exact_quotient(v.b as i64, triple.q as i64) else {
        return false;
    };
    let rest = less(v.a as i64, j, triple.s);
    exact_quotient(rest, triple.p as i64).is_some()
}

/// The vector (p, 0), in units.
pub(crate) fn first_vector(triple: Triple) -> Cell
    ensures is { result ≡ first_vector triple }
    ensures near { IsWithin 100000 result }
{
    Cell {
        a: triple.p as i32,
        b: 0,
    }
}

/// The vector (s, q), in units.
pub(crate) fn second_vector(triple: Triple) -> Cell
    ensures is { result ≡ second_vector triple }
    ensures near { IsWithin 100000 result }
{
    Cell {
        a: triple.s as i32,
        b: triple.q as i32,
    }
}
