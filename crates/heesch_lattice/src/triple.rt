//! The lattice of two vectors.
ghost use Rattle.std.specs.Prelude.{◌≡◌, true, ◌↔◌};
ghost use Rattle.std.specs.Option.{SomeIff};
ghost use Rattle.heesch_grid.specs.Geometry.{IsCell};
ghost use Rattle.heesch_grid.specs.Lattice.{IsTriple, DiffersByLattice, IsReduced};
ghost use Rattle.heesch_lattice.specs.Reduction.{lattice, IsSmallTriple, HasReducedUnit};

use crate::parts::reduced;
use heesch_grid::{Cell, Grid};
use std::marker::Model;

/// The greatest area of a triple, in units.
pub const AREA_MAX: u32 = 4096;

/// The lattice that UNIT times (p, 0) and UNIT times (s, q) span. Contracts see the record of its
/// three numbers; p and q are at least 1, s is below p, and p times q is at most 4,096.
#[derive(Clone, Copy, Debug, PartialEq, Eq)]
pub struct Triple {
    pub p: u32,
    pub q: u32,
    pub s: u32,
}

impl Model for Triple {
    ghost use Rattle.heesch_grid.specs.Lattice.{Triple as Lattice};
    ghost use Rattle.heesch_lattice.specs.Reduction.{lattice, IsSmallTriple};

    ghost Value = { Lattice };

    ghost view = { λ t. lattice t.p t.q t.s };

    ghost invariant = { λ t. IsSmallTriple (lattice t.p t.q t.s) };

    ghost inverse = { λ t. record { p = t.p; q = t.q; s = t.s } };
}

impl Triple {
    /// The triple of these numbers. None exactly where p or q is 0, s isn't below p, or p times q
    /// is above 4,096.
    pub fn new(p: u32, q: u32, s: u32) -> Option<Triple>
        ensures { SomeIff result (IsSmallTriple (lattice p q s)) (lattice p q s) }
    {
        if p == 0 || q == 0 || s >= p {
            return None;
        }
        if p > AREA_MAX || q > AREA_MAX || p * q > AREA_MAX {
            return None;
        }
        Some(Triple { p, q, s })
    }

    /// The one pair that differs from c by a lattice vector and whose unit (a / UNIT and b / UNIT,
    /// rounded down) is at least (0, 0) and below (p, q). The answer is a cell where c is one.
    /// Cost: three divisions.
    pub fn reduce<G: Grid>(self, c: Cell) -> Cell
        ensures triple { IsTriple self }
        ensures differs { DiffersByLattice G.geometry self c result }
        ensures unit { HasReducedUnit G.geometry self result }
        ensures reduced { IsCell G.geometry c → IsReduced G.geometry self result }
    {
        let unit = G::UNIT as i64;
        reduced(
            c,
            unit * self.p as i64,
            unit * self.q as i64,
            unit * self.s as i64,
        )
    }

    /// Whether c and d differ by a lattice vector. Cost: six divisions.
    pub fn same<G: Grid>(self, c: Cell, d: Cell) -> bool
        ensures { (result ≡ true) ↔ DiffersByLattice G.geometry self c d }
    {
        self.reduce::<G>(c) == self.reduce::<G>(d)
    }
}
