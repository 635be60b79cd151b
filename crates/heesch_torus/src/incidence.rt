//! The variables of a torus formula, and which of them have a cell.
ghost use Rattle.std.specs.Prelude.{◌≤◌, ◌*◌, length};
ghost use Rattle.std.proofs.Props.{props};
ghost use Rattle.heesch_grid.specs.Lattice.{IsTriple};
ghost use Rattle.heesch_grid.proofs.Connected.{IsRising-prop};
ghost use Rattle.heesch_torus.specs.Covering.{AreCovering};
ghost use Rattle.heesch_torus.specs.Variables.{sets_of, AreReducedSets};

use crate::found::Variable;
use heesch_grid::Grid;
use heesch_io::Seq;
use heesch_lattice::Triple;
use std::marker::PhantomData;

/// At most 4,608 variables whose residue sets are of the torus of a triple.
#[derive(Drop)]
pub(crate) struct TorusSets<'a, G: Grid> {
    pub triple: Triple,
    pub variables: &'a [Variable],
    pub grid: PhantomData<G>,
    ghost lattice: { IsTriple triple },
    ghost sets: { AreReducedSets G.geometry triple (sets_of variables.now) } by { Prim.hlevel (props, IsRising-prop) },
    ghost few: { length variables.now ≤ 4608 },
}

/// Such variables of a triple with at most 384 translations, and for each pair of the window the numbers of those that
/// have it.
#[derive(Drop)]
pub(crate) struct Incidence<'a, G: Grid> {
    pub sets: &'a TorusSets<'a, G>,
    pub lists: &'a [Seq<u32>],
    ghost small: { sets.now.triple.p * sets.now.triple.q ≤ 384 },
    ghost covering: { AreCovering G.geometry sets.now.triple (sets_of sets.now.variables.now) lists.now },
}
