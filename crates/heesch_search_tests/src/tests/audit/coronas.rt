//! Searches that ended with holes forbidden.
use super::super::made::{AROUND, LEAST, seq};
use super::expect;
use heesch_cert::{Bare, Entry, Evidence, Layers, Limits, Phase, Verdict, Wall};
use heesch_grid::{Iamond, Iso};
use heesch_io::{NoMemory, Seq};
use heesch_made::cells;
use std::alloc::Global;
use std::test::Fail;

/// The limits under which the formula of one corona, of 12 literals, is too large.
const TIGHT: Limits = Limits { size: 11, ..LEAST };

/// An entry of searches for coronas of the triangle that ended with holes forbidden, at a wall or at none.
fn searched(
    alloc: Global,
    verdict: Verdict,
    layers: &[&[Iso]],
    wall: Wall,
) -> Result<Entry, NoMemory> {
    let mut all = Seq::new(alloc);
    for layer in layers {
        all.push(seq(alloc, *layer)?)?;
    }
    let free = Layers { layers: all };
    Ok(Entry {
        cells: seq(alloc, &cells![1, 1])?,
        verdict,
        evidence: Evidence::Search {
            free,
            wall,
            bare: Bare::Absent,
            wider: None,
            triples: Seq::new(alloc),
        },
    })
}

const LEVELS: Verdict = Verdict::Levels { h: 1 };

const SIZE: Verdict = Verdict::Size {
    h: 0,
    phase: Phase::Free,
    at: 1,
};

/// A verdict, layers, whether the wall's formula is too large, the limits, and the part that fails, or 0.
const ROWS: [(Verdict, &[&[Iso]], bool, Limits, u32); 8] = [
    // One corona, under its limits and others.
    (LEVELS, &[&AROUND], false, LEAST, 0),
    (LEVELS, &[&AROUND], false, TIGHT, 0),
    // The plain tiling is sought anew.
    (LEVELS, &[&AROUND], false, Limits { domain: 2, ..LEAST }, 2),
    (LEVELS, &[&AROUND], false, Limits { levels: 2, ..LEAST }, 2),
    // A layer too many.
    (LEVELS, &[&AROUND, &AROUND], false, LEAST, 5),
    // No corona, where the formula is too large.
    (SIZE, &[], true, TIGHT, 0),
    (SIZE, &[], true, LEAST, 6),
    (SIZE, &[], false, TIGHT, 2),
];

#[test]
fn coronas(rt: HostRuntime) -> Result<(), Fail> {
    for (verdict, layers, too_large, limits, part) in &ROWS {
        let wall = if *too_large { Wall::Size } else { Wall::Absent };
        let entry = searched(rt.alloc(), *verdict, layers, wall)?;
        expect::<Iamond, _>(&rt, rt.alloc(), &entry, *limits, *part)?;
    }
    Ok(())
}

/// A layer without its last tile; the first two tiles in the other order; and one by a greater turn, and by none of the
/// grid's.
#[test]
fn altered_coronas(rt: HostRuntime) -> Result<(), Fail> {
    let mut swapped = AROUND;
    swapped.swap(0, 1);
    let mut turned = AROUND;
    turned[5].turn = 2;
    let mut other_turn = AROUND;
    other_turn[5].turn = 12;
    for layer in [&AROUND[..11], &swapped, &turned, &other_turn] {
        let entry = searched(rt.alloc(), LEVELS, &[layer], Wall::Absent)?;
        expect::<Iamond, _>(&rt, rt.alloc(), &entry, LEAST, 5)?;
    }
    Ok(())
}
