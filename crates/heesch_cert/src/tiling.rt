//! A written tiling.
use heesch_grid::Iso;
use heesch_io::Seq;
use heesch_lattice::Triple;
use std::marker::Model;

/// Isometries in order.
pub type Isos = Seq<Iso>;

/// A lattice, and the isometries that carry a polyform to the tiles whose translates by lattice vectors are the
/// tiling.
#[derive(Drop)]
pub struct Tiling {
    pub triple: Triple,
    pub places: Isos,
}

/// The class of a tile, from 1, and the symmetry of the tiling that takes the first tile of the class to it.
#[derive(Clone, Copy, Debug, PartialEq, Eq)]
pub struct Member {
    pub class: u32,
    pub by: Iso,
}

impl Model for Member {
    ghost use Rattle.heesch_grid.specs.Symmetry.{Member as InClass};

    ghost Value = { InClass };

    ghost view = { λ m. record { class = m.class; by = m.by } };

    ghost inverse = { λ m. record { class = m.class; by = m.by } };
}

/// The number of classes, and the class of each tile, in the order of the tiling's places.
#[derive(Drop)]
pub struct Classes {
    pub count: u32,
    pub members: Seq<Member>,
}
