//! Entries worked by hand.
use super::made::{AROUND, HOLED, LEAST, is_by};
use heesch_cert::{Bare, Entry, Evidence, Kind, Limits, Phase, Proof, Verdict, Wall};
use heesch_grid::{Iamond, Iso, Square};
use heesch_lattice::Triple;
use heesch_made::{LIMITS, canonical_of, cells, isos, members, same};
use heesch_verdict::classify;
use std::alloc::Global;
use std::test::Fail;

/// The triangle tiles by translations and half-turns, in one class.
#[test]
fn the_triangle_tiles(rt: HostRuntime) -> Result<(), Fail> {
    let shape = canonical_of::<Iamond>(&cells![1, 1])?;
    let entry = classify(rt.alloc(), &shape, LIMITS)?;
    let wanted = Verdict::Tiles {
        kind: Kind::HalfTurn,
        domain: 2,
        classes: 1,
    };
    same("verdict", entry.verdict, wanted)?;
    let Evidence::Cover { tiling, classes } = &entry.evidence else {
        return Err(Fail::new("no cover"));
    };
    same("triple", tiling.triple, Triple { p: 1, q: 1, s: 0 })?;
    same(
        "places",
        tiling.places.as_slice(),
        isos![0, 0, 0; 3, 0, 0].as_slice(),
    )?;
    let members = members![1, 0, 0, 0; 1, 1, 0, -1];
    same("members", classes.members.as_slice(), members.as_slice())
}

/// The verdict on the triangle where its half-turns aren't admitted.
fn undecided(alloc: Global, size: u32) -> Result<Entry, Fail> {
    if size < 1 || size > 60_000_000 {
        return Err(Fail::new("out of range"));
    }
    let shape = canonical_of::<Iamond>(&cells![1, 1])?;
    Ok(classify(alloc, &shape, Limits { size, ..LEAST })?)
}

/// The one layer of an open search without triples, if it is one.
fn only_layer(evidence: &Evidence) -> &[Iso] {
    match evidence {
        Evidence::Search {
            free,
            wall: Wall::Absent,
            bare: Bare::Absent,
            wider: None,
            triples,
        } if triples.is_empty() => match free.layers.as_slice() {
            [layer] => layer.as_slice(),
            _ => &[],
        },
        _ => &[],
    }
}

/// One corona of it is found, at 12 literals and not at 11.
#[test]
fn the_triangle_is_undecided(rt: HostRuntime) -> Result<(), Fail> {
    let entry = undecided(rt.alloc(), 12)?;
    same("12", entry.verdict, Verdict::Levels { h: 1 })?;
    same("corona", only_layer(&entry.evidence), AROUND.as_slice())?;
    let entry = undecided(rt.alloc(), 11)?;
    let phase = Phase::Free;
    same("11", entry.verdict, Verdict::Size { h: 0, phase, at: 1 })
}

/// The proof of a wall in a search that found no layer, and whose coronas with holes have the same proof.
fn proof_of_wall(evidence: &Evidence) -> Option<&Proof> {
    match evidence {
        Evidence::Search {
            free,
            wall: Wall::Refuted { proof },
            bare: Bare::Same,
            wider: None,
            triples,
        } if free.layers.is_empty() && triples.is_empty() => Some(proof),
        _ => None,
    }
}

/// No placement covers the hole of the holed heptomino: its ninth cell around refutes at once.
#[test]
fn the_holed_heptomino_has_no_corona(rt: HostRuntime) -> Result<(), Fail> {
    let shape = canonical_of::<Square>(&HOLED)?;
    let limits = Limits {
        domain: 1,
        ..LIMITS
    };
    let entry = classify(rt.alloc(), &shape, limits)?;
    same("verdict", entry.verdict, Verdict::Heesch { h: 0, m: 1 })?;
    let Some(proof) = proof_of_wall(&entry.evidence) else {
        return Err(Fail::new("no proof"));
    };
    is_by(proof, 9)
}
