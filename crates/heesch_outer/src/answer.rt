//! Answers on the outer number of a shape.

use heesch_cert::{Layers, Proof};

/// What is known of the outer number of an entry's shape, where h is the entry's number of hole-free coronas.
#[derive(Drop)]
pub enum OuterAnswer {
    /// The entry has a tiling, so there is no outer number.
    Tiles,
    /// The entry doesn't know the Heesch number.
    Unknown,
    /// It is h + 1: a layer for each outer corona, with its tiles in rising order of their cell lists, each by its
    /// least isometry.
    More { layers: Layers },
    /// It is h: the proof refutes the corona formula of level h + 1, with cuts of the levels 1 to h alone.
    Same { proof: Proof },
    /// Such a proof, which has as many steps as the limit on turns.
    Spent { proof: Proof },
}
