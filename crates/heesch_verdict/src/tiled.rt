//! The plain tilings that the limit on domains admits.
ghost use Rattle.std.specs.Prelude.{◌≡◌, [], ◌∷◌, IfOk};
ghost use Rattle.heesch_grid.specs.Tiling.{no_move, half_turned};
ghost use Rattle.heesch_cert.specs.Limits.{AreLimits};
ghost use Rattle.heesch_verdict.specs.Shapes.{IsCanonicalShape};
ghost use Rattle.heesch_verdict.specs.Tilings.{IsPlainEnd};

use crate::subject::Subject;
use heesch_cert::{Isos, Kind, Tiling};
use heesch_grid::{Grid, Iso, Sizes};
use heesch_io::{NoMemory, Seq};
use heesch_tiling::{Plain, plain};
use std::alloc::Global;

/// The isometry that moves nothing.
const NO_MOVE: Iso = Iso {
    turn: 0,
    da: 0,
    db: 0,
};

/// A tiling and its kind.
#[derive(Drop)]
pub struct Tiled {
    pub kind: Kind,
    pub tiling: Tiling,
}

/// The place of one tile, which is not moved.
fn one_place(alloc: Global) -> Result<Isos, NoMemory>
    ensures { IfOk result (λ places. places ≡ no_move ∷ []) }
{
    let mut places = Seq::new(alloc);
    places.push(NO_MOVE)?;
    Ok(places)
}

/// The place of a tile that is not moved, and that of its image under the half-turn, moved by
/// (da, db).
fn two_places<G: Grid>(alloc: Global, da: i32, db: i32) -> Result<Isos, NoMemory>
    ensures { IfOk result (λ places. places ≡ no_move ∷ half_turned G.geometry da db ∷ []) }
{
    let mut places = one_place(alloc)?;
    places.push(Iso {
        turn: G::HALF_TURN,
        da,
        db,
    })?;
    Ok(places)
}

impl<'a, G: Grid> Subject<'a, G> {
    /// The plain tiling of the shape, where there is one and the limit on domains admits it.
    pub fn plain_tiling(&self, alloc: Global) -> Result<Option<Tiled>, NoMemory>
        requires limits { AreLimits self.now.limits }
        requires shape { IsCanonicalShape G.geometry self.now.shape.now }
        ensures { IfOk result (IsPlainEnd G.geometry self.now.limits self.now.shape.now) }
    {
        let found = plain(self.shape);
        match &found {
            Some(Plain::Translation { triple }) => Ok(Some(Tiled {
                kind: Kind::Translation,
                tiling: Tiling {
                    triple: *triple,
                    places: one_place(alloc)?,
                },
            })),
            Some(Plain::HalfTurn { .. }) if self.limits.domain < 2 => Ok(None),
            Some(Plain::HalfTurn { triple, da, db }) => Ok(Some(Tiled {
                kind: Kind::HalfTurn,
                tiling: Tiling {
                    triple: *triple,
                    places: two_places::<G>(alloc, *da, *db)?,
                },
            })),
            None => Ok(None),
        }
    }
}
