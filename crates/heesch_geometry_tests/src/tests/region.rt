//! Regions of each grid.
use heesch_grid::{Cell, Grid, Hex, Iamond, Square};
use heesch_io::NoMemory;
use heesch_made::{are_near, same};
use heesch_region::Region;
use std::alloc::Global;
use std::test::Fail;

type Pairs<'a> = &'a [(i32, i32)];

/// The cells at these pairs.
fn cells_at(alloc: Global, pairs: Pairs<'_>) -> Result<Vec<Cell>, NoMemory> {
    let mut cells = Vec::new(alloc);
    for (a, b) in pairs {
        cells.push(Cell { a: *a, b: *b })?;
    }
    Ok(cells)
}

/// The region of these cells; a test fails where they are far from 0.
fn region_of<G: Grid>(alloc: Global, cells: &[Cell]) -> Result<Region<G>, Fail> {
    if !are_near(cells) {
        return Err(Fail::new("far cells"));
    }
    Ok(Region::from_cells(alloc, cells)?)
}

/// How many of the cells the region has.
fn count_in<G: Grid>(region: &Region<G>, cells: &[Cell]) -> usize {
    cells.iter().filter(|c| region.has(**c)).count()
}

/// The greatest hole of the cells at these pairs, which the region has, is at these other ones, in this order, of
/// which it has none; no hole for no pairs.
fn has_hole<G: Grid>(
    alloc: Global,
    row: &str,
    pairs: Pairs<'_>,
    hole: Pairs<'_>,
) -> Result<(), Fail> {
    let cells = cells_at(alloc, pairs)?;
    let hole = cells_at(alloc, hole)?;
    let region = region_of::<G>(alloc, &cells)?;
    same(
        row,
        (count_in(&region, &cells), count_in(&region, &hole)),
        (cells.len(), 0),
    )?;
    let found = region.hole(alloc)?;
    same(row, found.is_some(), !hole.is_empty())?;
    let found = found
        .as_ref()
        .map_or([].as_slice(), |found| found.as_slice());
    same(row, found, hole.as_slice())
}

const RING: Pairs = &[(1, 0), (0, 1), (2, 1), (1, 2)];

/// The heptomino with a hole, the ring of four with gaps at its corners, two holes in one set, the tetrominoes, and
/// nothing.
const SQUARES: [(&str, Pairs, Pairs); 9] = [
    (
        "heptomino",
        &[(0, 0), (1, 0), (2, 0), (0, 1), (2, 1), (0, 2), (1, 2)],
        &[(1, 1)],
    ),
    ("ring of four", RING, &[(1, 1)]),
    (
        "two holes",
        &[
            (-1, 7),
            (1, 7),
            (0, 6),
            (0, 8),
            (2, 8),
            (1, 9),
            (2, 6),
            (3, 7),
        ],
        &[(0, 7), (2, 7), (1, 8)],
    ),
    ("I", &[(0, 0), (1, 0), (2, 0), (3, 0)], &[]),
    ("L", &[(0, 0), (1, 0), (2, 0), (0, 1)], &[]),
    ("T", &[(0, 0), (1, 0), (2, 0), (1, 1)], &[]),
    ("O", &[(0, 0), (1, 0), (0, 1), (1, 1)], &[]),
    ("S", &[(0, 0), (1, 0), (1, 1), (2, 1)], &[]),
    ("nothing", &[], &[]),
];

/// The ring of six hexagons, five of them, and the ring of four.
const HEXAGONS: [(&str, Pairs, Pairs); 3] = [
    (
        "six",
        &[(1, 0), (2, 0), (0, 1), (2, 1), (0, 2), (1, 2)],
        &[(1, 1)],
    ),
    ("five", &[(2, 0), (0, 1), (2, 1), (0, 2), (1, 2)], &[]),
    ("four", RING, &[]),
];

/// The triangles around one, two of them, and a pair that is no cell beside a triangle.
const TRIANGLES: [(&str, Pairs, Pairs); 3] = [
    ("three", &[(2, -1), (-1, 2), (2, 2)], &[(1, 1)]),
    ("two", &[(2, -1), (-1, 2)], &[]),
    ("no cell", &[(2, 1), (1, 1)], &[]),
];

#[test]
fn holes_of_small_sets(rt: HostRuntime) -> Result<(), Fail> {
    for (row, pairs, hole) in &SQUARES {
        has_hole::<Square>(rt.alloc(), row, pairs, hole)?;
    }
    for (row, pairs, hole) in &HEXAGONS {
        has_hole::<Hex>(rt.alloc(), row, pairs, hole)?;
    }
    for (row, pairs, hole) in &TRIANGLES {
        has_hole::<Iamond>(rt.alloc(), row, pairs, hole)?;
    }
    Ok(())
}

/// A frame of 200 columns with a wall in it, and its insides.
fn frame(alloc: Global) -> Result<(Vec<(i32, i32)>, Vec<(i32, i32)>), NoMemory> {
    let mut frame = Vec::new(alloc);
    let mut inside = Vec::new(alloc);
    for a in -100..100 {
        frame.push((a, -1))?;
        frame.push((a, 1))?;
        if a == -100 || a == 99 || a == 90 {
            frame.push((a, 0))?;
        } else {
            inside.push((a, 0))?;
        }
    }
    Ok((frame, inside))
}

/// The insides go across several words, and a gap opens one of them.
#[test]
fn holes_across_words(rt: HostRuntime) -> Result<(), Fail> {
    let alloc = rt.alloc();
    let (mut frame, inside) = frame(alloc)?;
    has_hole::<Square>(alloc, "squares", &frame, &inside)?;
    has_hole::<Hex>(alloc, "hexagons", &frame, &inside)?;
    frame.pop();
    frame.pop();
    let last = inside.len().saturating_sub(8);
    has_hole::<Square>(alloc, "a gap", &frame, &inside[..last])
}
