//! Answers of the specification's rows, and of a shape that can be surrounded with holes alone.
ghost use Rattle.std.specs.Prelude.{◌≡◌, ◌≤◌, [], IfOk};
ghost use Rattle.heesch_grid.specs.Polyform.{IsCanonicalListOf};
ghost use Rattle.heesch_outer.specs.Found.{IsNearAnswer};

use super::made::{CROSSING, HOLED, LEAST, is_by, seq};
use heesch_audit::{EntryAnswer, audit, is_near};
use heesch_cert::{
    Bare, Classes, Cut, Entry, Evidence, Kind, Layers, Limits, Phase, Proof, Step, Tiling, Verdict,
    Wall,
};
use heesch_grid::{Cell, Grid, Iamond, Square};
use heesch_io::Seq;
use heesch_lattice::Triple;
use heesch_levels::{LevelAnswer, WallAnswer, level, wall};
use heesch_made::{canonical_of, cells, isos, members, same};
use heesch_outer::{OuterAnswer, check_outer, outer};
use heesch_shape::Shape;
use std::alloc::Global;
use std::test::Fail;
use std::thread::Threads;

/// An octomino that can be surrounded once without holes.
const HOOKED: [Cell; 8] = cells![0, 0; 1, 0; 2, 0; 2, 1; 3, 1; 2, 2; 1, 3; 2, 3];

/// No layers.
fn no_layers(alloc: Global) -> Layers
    ensures { result.layers ≡ [] }
{
    Layers {
        layers: Seq::new(alloc),
    }
}

/// The answer for the entry, which has to be true; the check has to accept it, and to refuse the other one.
fn checked_answer<G: Grid, T: Threads + Sync>(
    rt: &T,
    alloc: Global,
    entry: &Entry,
    other: &OuterAnswer,
    limits: Limits,
) -> Result<OuterAnswer, Fail>
    requires { IsNearAnswer other.now }
{
    if !limits.valid() || !is_near(entry) {
        return Err(Fail::new("not near"));
    }
    if audit::<G, T>(rt, alloc, entry, limits)? != EntryAnswer::Valid {
        return Err(Fail::new("not true"));
    }
    let answer = outer::<G>(alloc, entry, limits)?;
    if !check_outer::<G, T>(rt, alloc, entry, &answer, limits)? {
        return Err(Fail::new("the answer is refused"));
    }
    if check_outer::<G, T>(rt, alloc, entry, other, limits)? {
        return Err(Fail::new("another answer is accepted"));
    }
    Ok(answer)
}

/// The same answer with a cut of level 1 added to its proof.
fn with_cut(alloc: Global, last: u32) -> Result<OuterAnswer, Fail>
    ensures { IfOk result IsNearAnswer }
{
    let mut steps = Seq::new(alloc);
    steps.push(Step::Cut {
        cut: Cut {
            level: 1,
            hole: Seq::new(alloc),
            border: Seq::new(alloc),
        },
    })?;
    let last = Some(seq(alloc, &[last])?);
    Ok(OuterAnswer::Same {
        proof: Proof { steps, last },
    })
}

/// An entry of searches.
fn search_entry(
    alloc: Global,
    cells: &[Cell],
    verdict: Verdict,
    free: Layers,
    wall: Wall,
    bare: Bare,
    wider: Option<Layers>,
) -> Result<Entry, Fail> {
    Ok(Entry {
        cells: seq(alloc, cells)?,
        verdict,
        evidence: Evidence::Search {
            free,
            wall,
            bare,
            wider,
            triples: Seq::new(alloc),
        },
    })
}

/// The wall's own proof, and not with a cut added.
#[test]
fn enclosed_cell(rt: HostRuntime) -> Result<(), Fail> {
    let alloc = rt.alloc();
    let proof = Proof {
        steps: Seq::new(alloc),
        last: Some(seq(alloc, &[9])?),
    };
    let verdict = Verdict::Heesch { h: 0, m: 1 };
    let wall = Wall::Refuted { proof };
    let entry = search_entry(
        alloc,
        &HOLED,
        verdict,
        no_layers(alloc),
        wall,
        Bare::Same,
        None,
    )?;
    let answer = checked_answer::<Square, _>(&rt, alloc, &entry, &with_cut(alloc, 9)?, LEAST)?;
    let OuterAnswer::Same { proof } = &answer else {
        return Err(Fail::new("another answer"));
    };
    is_by(proof, 9)
}

/// The layers of h hole-free coronas.
fn free_layers<G: Grid>(alloc: Global, shape: &Shape<G>, h: u32) -> Result<Layers, Fail>
    requires level { h ≤ 5 }
    requires canonical { IsCanonicalListOf G.geometry shape.now shape.now }
{
    if h == 0 {
        return Ok(no_layers(alloc));
    }
    match level(
        alloc,
        shape,
        h,
        true,
        LEAST.turns,
        LEAST.size,
        LEAST.version,
    )? {
        LevelAnswer::Coronas { layers } => Ok(layers),
        _ => Err(Fail::new("no hole-free coronas")),
    }
}

/// How many outer coronas are found of a shape with Heesch number h that has h + 1 coronas with holes; fewer aren't
/// accepted.
fn count_outer<G: Grid, T: Threads + Sync>(
    rt: &T,
    alloc: Global,
    shape: &Shape<G>,
    h: u32,
) -> Result<usize, Fail>
    requires level { h ≤ 5 }
    requires canonical { IsCanonicalListOf G.geometry shape.now shape.now }
{
    let WallAnswer::Holed { proof, layers } = wall(
        alloc,
        shape,
        h + 1,
        LEAST.turns,
        LEAST.size,
        LEAST.version,
    )?
    else {
        return Err(Fail::new("no coronas with holes"));
    };
    let entry = search_entry(
        alloc,
        shape.cells(),
        Verdict::Holes { h },
        free_layers(alloc, shape, h)?,
        Wall::Refuted { proof },
        Bare::Open,
        Some(layers),
    )?;
    let limits = Limits {
        levels: h + 1,
        ..LEAST
    };
    let none = OuterAnswer::More {
        layers: no_layers(alloc),
    };
    match checked_answer::<G, T>(rt, alloc, &entry, &none, limits)? {
        OuterAnswer::More { layers } => Ok(layers.layers.len()),
        _ => Err(Fail::new("no outer coronas")),
    }
}

/// A shape that can be surrounded, but never without a hole, has outer number 1.
#[test]
fn surrounded_with_holes(rt: HostRuntime) -> Result<(), Fail> {
    let shape: Shape<Square> = canonical_of(&CROSSING)?;
    same("outer number", count_outer(&rt, rt.alloc(), &shape, 0)?, 1)
}

/// One that can be surrounded twice, but then never without a hole, has outer number 2.
#[test]
fn surrounded_twice(rt: HostRuntime) -> Result<(), Fail> {
    let shape: Shape<Square> = canonical_of(&HOOKED)?;
    same("outer number", count_outer(&rt, rt.alloc(), &shape, 1)?, 2)
}

/// A triangle for which nothing is sought.
#[test]
fn unknown_number(rt: HostRuntime) -> Result<(), Fail> {
    let alloc = rt.alloc();
    let limits = Limits { size: 11, ..LEAST };
    let verdict = Verdict::Size {
        h: 0,
        phase: Phase::Free,
        at: 1,
    };
    let cells = cells![1, 1];
    let entry = search_entry(
        alloc,
        &cells,
        verdict,
        no_layers(alloc),
        Wall::Size,
        Bare::Absent,
        None,
    )?;
    let answer = checked_answer::<Iamond, _>(&rt, alloc, &entry, &OuterAnswer::Tiles, limits)?;
    same("unknown", matches!(&answer, OuterAnswer::Unknown), true)
}

/// A square tiles.
#[test]
fn square_that_tiles(rt: HostRuntime) -> Result<(), Fail> {
    let alloc = rt.alloc();
    let tiling = Tiling {
        triple: Triple { p: 1, q: 1, s: 0 },
        places: seq(alloc, &isos![0, 0, 0])?,
    };
    let classes = Classes {
        count: 1,
        members: seq(alloc, &members![1, 0, 0, 0])?,
    };
    let entry = Entry {
        cells: seq(alloc, &cells![0, 0])?,
        verdict: Verdict::Tiles {
            kind: Kind::Translation,
            domain: 1,
            classes: 1,
        },
        evidence: Evidence::Cover { tiling, classes },
    };
    let answer = checked_answer::<Square, _>(&rt, alloc, &entry, &OuterAnswer::Unknown, LEAST)?;
    same("tiles", matches!(&answer, OuterAnswer::Tiles), true)
}
