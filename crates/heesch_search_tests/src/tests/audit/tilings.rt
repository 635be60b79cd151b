//! Tilings by translations and half-turns.
use super::super::made::{HOLED, LEAST, seq};
use super::expect;
use heesch_cert::{Classes, Entry, Evidence, Kind, Limits, Member, Tiling, Verdict};
use heesch_grid::{Cell, Iamond, Iso, Square};
use heesch_io::{NoMemory, Seq};
use heesch_lattice::Triple;
use heesch_made::{LIMITS, cells, isos};
use std::alloc::Global;
use std::test::Fail;

/// The triple of one unit.
const UNIT: Triple = Triple { p: 1, q: 1, s: 0 };

/// Cells, a triple, a verdict, places, symmetries in their classes, the limits, and the part that fails, or 0.
type Row<'a> = (
    &'a [Cell],
    Triple,
    Verdict,
    &'a [Iso],
    &'a [(u32, Iso)],
    Limits,
    u32,
);

/// Classes, each with the isometry of these numbers. Members can't stand in a constant.
macro_rules! in_classes {
    ($($class:literal, $turn:literal, $da:literal, $db:literal);*) => {
        [$(($class, Iso { turn: $turn, da: $da, db: $db })),*]
    };
}

/// The members of these classes.
fn members_of(alloc: Global, members: &[(u32, Iso)]) -> Result<Seq<Member>, NoMemory> {
    let mut all = Seq::new(alloc);
    for (class, by) in members {
        all.push(Member {
            class: *class,
            by: *by,
        })?;
    }
    Ok(all)
}

/// The entry of a row.
fn tiled(alloc: Global, row: &Row) -> Result<Entry, NoMemory> {
    let (cells, triple, verdict, places, members, ..) = row;
    let tiling = Tiling {
        triple: *triple,
        places: seq(alloc, *places)?,
    };
    let classes = Classes {
        count: 1,
        members: members_of(alloc, members)?,
    };
    Ok(Entry {
        cells: seq(alloc, *cells)?,
        verdict: *verdict,
        evidence: Evidence::Cover { tiling, classes },
    })
}

/// The verdict of a tiling of this kind by two tiles, in so many classes.
macro_rules! tiles {
    ($kind:ident, $classes:literal) => {
        Verdict::Tiles {
            kind: Kind::$kind,
            domain: 2,
            classes: $classes,
        }
    };
}

const TRIANGLE: [Cell; 1] = cells![1, 1];

const ONE: Verdict = tiles!(HalfTurn, 1);

const PLACES: [Iso; 2] = isos![0, 0, 0; 3, 0, 0];

const MEMBERS: [(u32, Iso); 2] = in_classes![1, 0, 0, 0; 1, 1, 0, -1];

/// The first place and the first symmetry alone.
const PLACE: [Iso; 1] = isos![0, 0, 0];

const MEMBER: [(u32, Iso); 1] = in_classes![1, 0, 0, 0];

/// Two classes; a symmetry too, but not of the least turn; and a turn that there isn't.
const APART: [(u32, Iso); 2] = in_classes![1, 0, 0, 0; 2, 0, 0, 0];

const GREATER: [(u32, Iso); 2] = in_classes![1, 0, 0, 0; 1, 3, 0, 0];

const NO_TURN: [(u32, Iso); 2] = in_classes![1, 0, 0, 0; 1, 12, 0, 0];

/// The tiling of the triangle, with its tiles and classes as they should be, and otherwise. The limit on domains
/// doesn't admit the last one.
const TRIANGLES: [Row; 8] = [
    (&TRIANGLE, UNIT, ONE, &PLACES, &MEMBERS, LIMITS, 0),
    (&TRIANGLE, UNIT, ONE, &PLACE, &MEMBER, LIMITS, 2),
    (
        &TRIANGLE,
        UNIT,
        tiles!(Periodic, 1),
        &PLACES,
        &MEMBERS,
        LIMITS,
        2,
    ),
    (
        &TRIANGLE,
        UNIT,
        tiles!(HalfTurn, 2),
        &PLACES,
        &MEMBERS,
        LIMITS,
        4,
    ),
    (&TRIANGLE, UNIT, ONE, &PLACES, &APART, LIMITS, 4),
    (&TRIANGLE, UNIT, ONE, &PLACES, &GREATER, LIMITS, 4),
    (&TRIANGLE, UNIT, ONE, &PLACES, &NO_TURN, LIMITS, 4),
    (&TRIANGLE, UNIT, ONE, &PLACES, &MEMBERS, LEAST, 2),
];

/// A triple of 14 units.
const LONG: Triple = Triple { p: 14, q: 1, s: 0 };

const PERIODIC: Verdict = tiles!(Periodic, 1);

const QUARTER: [Iso; 2] = isos![0, 0, 0; 1, 0, 0];

const EIGHTH: [Iso; 2] = isos![0, 0, 0; 8, 0, 0];

/// Not the grid's cell, which is told before the turn that there isn't; no cover of the heptomino's, since a tile meets
/// the other; and a turn that there isn't.
const SQUARES: [Row; 3] = [
    (&TRIANGLE, UNIT, ONE, &PLACES, &NO_TURN, LIMITS, 1),
    (&HOLED, LONG, PERIODIC, &QUARTER, &MEMBERS, LIMITS, 3),
    (&HOLED, LONG, PERIODIC, &EIGHTH, &MEMBERS, LIMITS, 3),
];

#[test]
fn tilings(rt: HostRuntime) -> Result<(), Fail> {
    for row in &TRIANGLES {
        let entry = tiled(rt.alloc(), row)?;
        expect::<Iamond, _>(&rt, rt.alloc(), &entry, row.5, row.6)?;
    }
    for row in &SQUARES {
        let entry = tiled(rt.alloc(), row)?;
        expect::<Square, _>(&rt, rt.alloc(), &entry, row.5, row.6)?;
    }
    Ok(())
}
