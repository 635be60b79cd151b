//! Triples whose lattices a turn carries to each other.
ghost use Rattle.std.specs.Prelude.{◌≡◌, ◌<◌, true};
ghost use Rattle.heesch_verdict.specs.Alike.{IsAlikeOne};

use heesch_grid::{Cell, Grid};
use heesch_lattice::{Triple, first_vector, is_turned, second_vector};

/// The pair less so many times another.
fn less(u: Cell, times: i32, v: Cell) -> Cell {
    Cell {
        a: u.a.wrapping_sub(times.wrapping_mul(v.a)),
        b: u.b.wrapping_sub(times.wrapping_mul(v.b)),
    }
}

/// The triple of the lattice that two vectors span, as Euclid's algorithm over their second numbers finds it. Nothing
/// rests on it: whoever asks tries the lattice that it answers.
fn spanned(first: Cell, second: Cell) -> Option<Triple> {
    let (mut u, mut v) = (first, second);
    for _ in 0..32 {
        let Some(times) = u.b.checked_div(v.b) else {
            break;
        };
        (u, v) = (v, less(u, times, v));
    }
    let p = v.a.unsigned_abs();
    let along = if u.b < 0 { u.a.wrapping_neg() } else { u.a };
    let s = along.checked_rem_euclid(v.a.wrapping_abs())?;
    Triple::new(p, u.b.unsigned_abs(), s.unsigned_abs())
}

/// Whether turn k carries the lattice onto that of one of these triples, where it is the one that was found.
fn is_found<G: Grid>(k: u32, triple: Triple, found: Triple, others: &[Triple]) -> bool
    requires { k < G.geometry.turns }
    ensures { result ≡ true → IsAlikeOne G.geometry triple others.now }
{
    for other in others {
        if *other == found && is_turned::<G>(k, triple, *other) {
            return true;
        }
    }
    false
}

/// Whether a turn is found that carries the lattice onto that of one of these triples. Cost: for each turn an
/// algorithm of Euclid and a look at each of them.
pub fn is_alike<G: Grid>(triple: Triple, others: &[Triple]) -> bool
    ensures { result ≡ true → IsAlikeOne G.geometry triple others.now }
{
    let (first, second) = (first_vector(triple), second_vector(triple));
    for k in 0..G::TURNS {
        if let Some(found) = spanned(G::turn(k, first), G::turn(k, second)) {
            if is_found::<G>(k, triple, found, others) {
                return true;
            }
        }
    }
    false
}
