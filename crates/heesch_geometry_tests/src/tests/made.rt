//! Cells and isometries in range, and tilings by them.
ghost use Rattle.std.specs.Prelude.{◌≡◌, ◌≤◌, true, length, All, IfOk};
ghost use Rattle.heesch_grid.specs.Vectors.{IsWithin};
ghost use Rattle.heesch_corona.specs.Tiles.{IsInRange as IsTile};
ghost use Rattle.heesch_tiling.specs.Counting.{IsInRange};

use heesch_cert::Tiling;
use heesch_grid::{Cell, Grid, Iso};
use heesch_io::Seq;
use heesch_lattice::Triple;
use std::alloc::Global;
use std::test::Fail;

/// Whether an isometry is in range.
fn is_in_range<G: Grid>(by: Iso) -> bool
    ensures place { result ≡ true → IsInRange G.geometry by }
    ensures tile { result ≡ true → IsTile G.geometry by }
{
    if by.turn >= G::TURNS {
        return false;
    }
    -100000 <= by.da && by.da <= 100000 && -100000 <= by.db && by.db <= 100000
}

/// Whether all isometries are in range.
pub(crate) fn are_in_range<G: Grid>(isos: &[Iso]) -> bool
    ensures places { result ≡ true → All (IsInRange G.geometry) isos.now }
    ensures tiles { result ≡ true → All (IsTile G.geometry) isos.now }
{
    for by in isos {
        if !is_in_range::<G>(*by) {
            return false;
        }
    }
    true
}

/// The tiling of this triple by these places, which are at most 12 and in range.
pub(crate) fn tiling_of<G: Grid>(
    alloc: Global,
    triple: Triple,
    places: &[Iso],
) -> Result<Tiling, Fail>
    ensures few { IfOk result (λ t. length t.places ≤ 12) }
    ensures range { IfOk result (λ t. All (IsInRange G.geometry) t.places) }
{
    if places.len() > 12 || !are_in_range::<G>(places) {
        return Err(Fail::new("far or many places"));
    }
    Ok(Tiling {
        triple,
        places: Seq::from_vec(places.to_vec(alloc)?),
    })
}

/// Whether both coordinates lie within 100,000 of 0.
fn is_within(c: Cell) -> bool
    ensures { result ≡ true → IsWithin 100000 c }
{
    -100000 <= c.a && c.a <= 100000 && -100000 <= c.b && c.b <= 100000
}

/// Whether all cells lie within 100,000 of 0.
pub(crate) fn are_within(cells: &[Cell]) -> bool
    ensures { result ≡ true → All (IsWithin 100000) cells.now }
{
    for c in cells {
        if !is_within(*c) {
            return false;
        }
    }
    true
}
