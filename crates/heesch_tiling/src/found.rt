//! Plain tilings.
use heesch_lattice::Triple;

/// A plain tiling of a polyform.
#[derive(Clone, Copy, Debug, PartialEq, Eq)]
pub enum Plain {
    /// The translates of the polyform alone.
    Translation { triple: Triple },
    /// The translates of the polyform and of its image under the half-turn, moved by (da, db).
    HalfTurn { triple: Triple, da: i32, db: i32 },
}
