//! Refutations, and the numbers of their steps.
use super::super::made::{HOLED, seq};
use super::expect;
use heesch_cert::{Bare, Cut, Entry, Evidence, Layers, Limits, Proof, Step, Verdict, Wall};
use heesch_cnf::Lit;
use heesch_encode::encode_flat;
use heesch_grid::Square;
use heesch_io::Seq;
use heesch_made::{LIMITS, canonical_of, cells};
use std::alloc::Global;
use std::test::Fail;

/// A cut, at this level, of the heptomino's middle cell without a border.
fn middle_cut(alloc: Global, level: u32) -> Result<Step, Fail> {
    let cut = Cut {
        level,
        hole: seq(alloc, &cells![1, 1])?,
        border: Seq::new(alloc),
    };
    Ok(Step::Cut { cut })
}

/// How many cuts of the heptomino's middle cell there are, their level, and the hint of the final line.
type Cuts = (u32, u32, u32);

/// A proof with these cuts and this hint.
fn proof(alloc: Global, (cuts, level, hint): Cuts) -> Result<Proof, Fail> {
    let mut steps = Seq::new(alloc);
    for _ in 0..cuts {
        steps.push(middle_cut(alloc, level)?)?;
    }
    let last = Some(seq(alloc, &[hint])?);
    Ok(Proof { steps, last })
}

/// The entry of the holed heptomino, whose wall stands beyond m levels.
fn refuted(alloc: Global, m: u32, wall: Proof, bare: Bare) -> Result<Entry, Fail> {
    let free = Layers {
        layers: Seq::new(alloc),
    };
    Ok(Entry {
        cells: seq(alloc, &HOLED)?,
        verdict: Verdict::Heesch { h: 0, m },
        evidence: Evidence::Search {
            free,
            wall: Wall::Refuted { proof: wall },
            bare,
            wider: None,
            triples: Seq::new(alloc),
        },
    })
}

/// The refutation of coronas with holes; none for no cuts.
fn bare(alloc: Global, cuts: Option<Cuts>) -> Result<Bare, Fail> {
    let Some(cuts) = cuts else {
        return Ok(Bare::Same);
    };
    let proof = proof(alloc, cuts)?;
    Ok(Bare::Refuted { proof })
}

/// How many levels the wall stands beyond, its cuts, those of coronas with holes, the size, and the part that fails.
type Row = (u32, Cuts, Option<Cuts>, u32, u32);

/// The holed heptomino has no corona: the clause of its ninth cell is empty. A cut isn't needed for that, but allowed
/// where holes are forbidden.
const ROWS: [Row; 8] = [
    (1, (0, 1, 9), None, LIMITS.size, 0),
    (1, (0, 1, 8), None, LIMITS.size, 6),
    (2, (0, 1, 9), None, LIMITS.size, 2),
    (1, (1, 1, 9), None, LIMITS.size, 8),
    (1, (1, 1, 9), Some((0, 1, 9)), LIMITS.size, 0),
    (1, (1, 1, 9), Some((0, 1, 9)), 1, 6),
    (1, (1, 1, 9), Some((1, 1, 9)), LIMITS.size, 8),
    (1, (1, 0, 9), Some((0, 1, 9)), LIMITS.size, 6),
];

#[test]
fn refutations(rt: HostRuntime) -> Result<(), Fail> {
    let alloc = rt.alloc();
    for (m, cuts, holed, size, part) in &ROWS {
        let bare = bare(alloc, *holed)?;
        let entry = refuted(alloc, *m, proof(alloc, *cuts)?, bare)?;
        let limits = Limits {
            size: *size,
            ..LIMITS
        };
        expect::<Square, _>(&rt, alloc, &entry, limits, *part)?;
    }
    Ok(())
}

/// A learnt clause that the heptomino's empty one shows, two cuts, and a final line with this hint.
fn learnt_and_cuts(alloc: Global, hint: u32) -> Result<Proof, Fail> {
    let mut steps = Seq::new(alloc);
    let first = Lit {
        var: 1,
        positive: true,
    };
    steps.push(Step::Learn {
        clause: seq(alloc, &[first])?,
        hints: seq(alloc, &[9])?,
    })?;
    steps.push(middle_cut(alloc, 1)?)?;
    steps.push(middle_cut(alloc, 1)?)?;
    let last = Some(seq(alloc, &[hint])?);
    Ok(Proof { steps, last })
}

/// How many clauses the formula of the heptomino has.
fn clauses_of_heptomino(alloc: Global) -> Result<u32, Fail> {
    let shape = canonical_of::<Square>(&HOLED)?;
    let encoded = encode_flat(alloc, &shape, 1, LIMITS.size, LIMITS.version)?;
    Ok(encoded.formula.len() as u32)
}

/// The steps count on from the formula's clauses: the first is learnt, and the clauses of the cuts are empty, since no
/// tile fills the middle cell.
#[test]
fn steps_count_on(rt: HostRuntime) -> Result<(), Fail> {
    let alloc = rt.alloc();
    let count = clauses_of_heptomino(alloc)?;
    for (step, part) in [(1, 6), (2, 0), (3, 0), (4, 6)] {
        let wall = learnt_and_cuts(alloc, count.saturating_add(step))?;
        let entry = refuted(alloc, 1, wall, bare(alloc, Some((0, 1, 9)))?)?;
        expect::<Square, _>(&rt, alloc, &entry, LIMITS, part)?;
    }
    Ok(())
}
