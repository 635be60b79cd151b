//! Covers and plain tilings of small polyforms.
use super::made::tiling_of;
use heesch_grid::{Cell, Grid, Iamond, Square};
use heesch_lattice::Triple;
use heesch_made::{cells, isos, same, shape_of};
use heesch_tiling::{Cover, Plain, check_cover, plain};
use std::test::Fail;

/// The plain tiling by translations of this triple.
fn by_translation(p: u32, q: u32, s: u32) -> Option<Plain> {
    let triple = Triple::new(p, q, s)?;
    Some(Plain::Translation { triple })
}

/// The plain tiling by half-turns of this triple and this shift.
fn by_half_turn(p: u32, q: u32, s: u32, da: i32, db: i32) -> Option<Plain> {
    let triple = Triple::new(p, q, s)?;
    Some(Plain::HalfTurn { triple, da, db })
}

/// Squares, and the triple of their plain tiling by translations.
const TETROMINOES: [(&str, [Cell; 4], u32, u32, u32); 5] = [
    ("I", cells![0, 0; 1, 0; 2, 0; 3, 0], 4, 1, 0),
    ("L", cells![0, 0; 1, 0; 2, 0; 0, 1], 4, 1, 1),
    ("T", cells![0, 0; 1, 0; 2, 0; 1, 1], 4, 1, 2),
    ("O", cells![0, 0; 1, 0; 0, 1; 1, 1], 2, 2, 0),
    ("S", cells![0, 0; 1, 0; 1, 1; 2, 1], 2, 2, 0),
];

/// The plain tiling of these cells.
fn plain_of<G: Grid>(cells: &[Cell]) -> Result<Option<Plain>, Fail> {
    let shape = shape_of::<G>(cells)?;
    Ok(plain(&shape))
}

#[test]
fn tetrominoes_tile_by_translations(_rt: HostRuntime) -> Result<(), Fail> {
    for (row, cells, p, q, s) in &TETROMINOES {
        same(row, plain_of::<Square>(cells)?, by_translation(*p, *q, *s))?;
    }
    Ok(())
}

/// A pentomino and two polyiamonds tile by half-turns alone.
#[test]
fn polyforms_by_half_turns(_rt: HostRuntime) -> Result<(), Fail> {
    let cup = plain_of::<Square>(&cells![0, 0; 1, 0; 2, 0; 0, 1; 2, 1])?;
    same("cup", cup, by_half_turn(10, 1, 3, 5, 0))?;
    let triangle = plain_of::<Iamond>(&cells![1, 1])?;
    same("triangle", triangle, by_half_turn(1, 1, 0, 0, 0))?;
    let trapezium = plain_of::<Iamond>(&cells![1, 1; 4, 1; 2, 2])?;
    same("trapezium", trapezium, by_half_turn(3, 1, 0, 0, 0))
}

/// The lattice of dominoes, how many there are, and what they cover.
const DOMINOES: [(&str, Triple, usize, Cover); 4] = [
    ("one", Triple { p: 2, q: 1, s: 1 }, 1, Cover::Exact),
    (
        "its translate",
        Triple { p: 1, q: 2, s: 0 },
        1,
        Cover::Doubled {
            cell: Cell { a: 0, b: 0 },
        },
    ),
    (
        "another",
        Triple { p: 4, q: 1, s: 0 },
        2,
        Cover::Doubled {
            cell: Cell { a: 1, b: 0 },
        },
    ),
    (
        "too few",
        Triple { p: 2, q: 2, s: 0 },
        1,
        Cover::Missed {
            cell: Cell { a: 0, b: 1 },
        },
    ),
];

/// A domino covers each cell once; it meets its translate, or another domino; or it leaves cells.
#[test]
fn covers_by_dominoes(rt: HostRuntime) -> Result<(), Fail> {
    let alloc = rt.alloc();
    let domino = shape_of::<Square>(&cells![0, 0; 1, 0])?;
    let places = isos![0, 0, 0; 0, 1, 0];
    for (row, triple, count, cover) in DOMINOES {
        let tiling = tiling_of::<Square>(alloc, triple, &places[..count.min(2)])?;
        same(row, check_cover(alloc, &domino, &tiling)?, cover)?;
    }
    Ok(())
}
