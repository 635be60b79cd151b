//! What is left of the triples of an area.
ghost use Rattle.std.specs.Prelude.{◌≡◌, ◌<◌, ◌≤◌, ◌+◌, ◌%◌, true, ◌↔◌};
ghost use Rattle.std.specs.Iterator.{YieldsFirst, item_count};
ghost use Rattle.heesch_lattice.specs.Listed.{triples_from, AreTriples};

use crate::triple::Triple;
use std::marker::Model;

/// The triples that are left, by p and then by s. Contracts see the list of these triples.
#[derive(Drop)]
pub struct Triples {
    area: u32,
    p: u32,
    s: u32,
}

impl Model for Triples {
    ghost use Rattle.std.specs.Prelude.{List};
    ghost use Rattle.heesch_grid.specs.Lattice.{Triple as Lattice};
    ghost use Rattle.heesch_lattice.specs.Listed.{triples_from, IsWithinArea};

    ghost Value = { List Lattice };

    ghost view = { λ l. triples_from l.area l.p l.s };

    ghost invariant = { λ l. IsWithinArea l.area l.p };
}

/// Whether the area has a triple of p and s.
fn is_of_area(area: u32, p: u32, s: u32) -> bool
    requires { 1 ≤ p }
    ensures { (result ≡ true) ↔ ((area % p ≡ 0) × (s < p)) }
{
    area % p == 0 && s < p
}

/// The first p and s from these on that stand for a triple of the area; p is above the area where
/// there is none.
fn settled(area: u32, p: u32, s: u32) -> (u32, u32)
    requires some { 1 ≤ area }
    requires few { area ≤ 4096 }
    requires positive { 1 ≤ p }
    requires below { p ≤ area + 1 }
    ensures same { triples_from area result.0 result.1 ≡ triples_from area p s }
    ensures positive { 1 ≤ result.0 }
    ensures below { result.0 ≤ area + 1 }
    ensures found { result.0 ≤ area → (area % result.0 ≡ 0) × (result.1 < result.0) }
{
    let mut column = p;
    let mut shift = s;
    while column <= area && !is_of_area(area, column, shift) {
        column += 1;
        shift = 0;
    }
    (column, shift)
}

/// The first triple of the area.
pub(crate) fn from_first(area: u32) -> Triples
    requires some { 1 ≤ area }
    requires few { area ≤ 4096 }
    ensures { AreTriples area result }
{
    Triples { area, p: 1, s: 0 }
}

impl Iterator for Triples {
    type Item = Triple;

    ghost next_gives = { YieldsFirst (λ l. l) };

    ghost remaining = { item_count (λ l. l) };

    fn next(&mut self) -> Option<Triple> {
        let (p, s) = settled(self.area, self.p, self.s);
        self.p = p;
        if p > self.area {
            self.s = s;
            return None;
        }
        self.s = s + 1;
        Some(Triple {
            p,
            q: self.area / p,
            s,
        })
    }
}
