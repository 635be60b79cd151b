//! The evidence of an entry.

use crate::{Cells, Classes, Isos, Proof, Tiling, Verdict};
use heesch_io::Seq;
use heesch_lattice::Triple;

/// The layers of coronas from the innermost on, each by the isometries of its tiles.
#[derive(Drop)]
pub struct Layers {
    pub layers: Seq<Isos>,
}

/// How the search for one corona more than were found ended, with holes forbidden.
#[derive(Drop)]
pub enum Wall {
    /// As many coronas as the limit on levels were found, so none more were sought.
    Absent,
    /// There are none: the proof refutes the corona formula, with cuts against enclosed holes.
    Refuted { proof: Proof },
    /// The proof has as many steps as the limit on turns.
    Spent { proof: Proof },
    /// The corona formula has more literals than the limit on size.
    Size,
}

/// How the search for coronas with holes allowed ended, after a refutation with holes forbidden.
#[derive(Drop)]
pub enum Bare {
    /// There was no such refutation.
    Absent,
    /// That refutation has no cut, so it serves here too.
    Same,
    /// There are none: the proof, which has no cut, refutes the corona formula.
    Refuted { proof: Proof },
    /// The proof has as many steps as the limit on turns.
    Spent { proof: Proof },
    /// The corona formula has more literals than the limit on size.
    Size,
    /// As many coronas as the limit on levels were found.
    Open,
}

/// How the search for a periodic cover of one triple ended: with a refutation, or with as many steps as the limit on
/// turns.
#[derive(Drop)]
pub struct TripleProof {
    pub triple: Triple,
    pub proof: Proof,
}

/// What shows a verdict.
#[derive(Drop)]
pub enum Evidence {
    /// A periodic cover, and the classes of its tiles.
    Cover {
        tiling: Tiling,
        classes: Classes,
    },
    /// The searches, each to its end or to its limit.
    Search {
        /// The hole-free coronas that were found.
        free: Layers,
        wall: Wall,
        bare: Bare,
        /// More coronas than the hole-free ones, holes allowed, where they were found.
        wider: Option<Layers>,
        /// Where the verdict is undecided, each triple of a domain from 2 to the limit.
        triples: Seq<TripleProof>,
    },
}

/// A polyform by its cells in cell order, with its verdict and what shows it.
#[derive(Drop)]
pub struct Entry {
    pub cells: Cells,
    pub verdict: Verdict,
    pub evidence: Evidence,
}
