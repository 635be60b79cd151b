//! Layers of squares and of pentominoes.
ghost use Rattle.std.specs.Prelude.{All, IfOk};
ghost use Rattle.heesch_corona.specs.Tiles.{IsInRange};

use super::made::are_in_range;
use heesch_cert::Layers;
use heesch_corona::{CoronaAnswer, check_coronas};
use heesch_grid::{Cell, Grid, Iso, Square};
use heesch_io::Seq;
use heesch_made::{cells, isos, same, shape_of};
use std::alloc::Global;
use std::test::Fail;

const EIGHT: [Iso; 8] =
    isos![0, -1, -1; 0, 0, -1; 0, 1, -1; 0, -1, 0; 0, 1, 0; 0, -1, 1; 0, 0, 1; 0, 1, 1];

const SEVEN: [Iso; 7] = isos![0, -1, -1; 0, 0, -1; 0, 1, -1; 0, -1, 0; 0, 1, 0; 0, -1, 1; 0, 0, 1];

const TWICE: [Iso; 4] = isos![0, 1, 0; 3, 0, 1; 0, 0, 1; 1, 1, 0];

const ORIGIN: [Iso; 2] = isos![0, 1, 1; 1, 0, 0];

const FAR: [Iso; 3] = isos![0, 2, 0; 0, 3, 0; 0, 5, 5];

const NEXT: [Iso; 1] = isos![0, 2, 0];

const NOTCHED: [Iso; 6] = isos![0, -3, -1; 2, 2, -1; 0, 3, -2; 0, 3, 0; 2, 1, 2; 0, 2, 2];

/// These layers, whose isometries are in range.
fn layers_of<G: Grid>(alloc: Global, layers: &[&[Iso]]) -> Result<Layers, Fail>
    ensures { IfOk result (λ made. All (All (IsInRange G.geometry)) made.layers) }
{
    let mut all = Seq::new(alloc);
    for layer in layers {
        if !are_in_range::<G>(layer) {
            return Err(Fail::new("a far tile"));
        }
        all.push(Seq::from_vec(layer.to_vec(alloc)?))?;
    }
    Ok(Layers { layers: all })
}

/// The answer for these layers of a polyform.
fn checked<G: Grid>(
    alloc: Global,
    cells: &[Cell],
    layers: &[&[Iso]],
    hole_free: bool,
) -> Result<CoronaAnswer, Fail> {
    let shape = shape_of::<G>(cells)?;
    let layers = layers_of::<G>(alloc, layers)?;
    if layers.layers.len() > 6 {
        return Err(Fail::new("many layers"));
    }
    Ok(check_coronas(alloc, &shape, &layers, hole_free)?)
}

/// An answer in a word, with its numbers and its uncovered cell. A hole is told by its level alone.
type Said = (&'static str, usize, usize, Option<Cell>);

fn said(answer: &CoronaAnswer) -> Said {
    match answer {
        CoronaAnswer::Holds => ("holds", 0, 0, None),
        CoronaAnswer::Meets { i, j } => ("meets", *i, *j, None),
        CoronaAnswer::Loose { i } => ("loose", *i, 0, None),
        CoronaAnswer::Uncovered { level, cell } => ("uncovered", *level as usize, 0, Some(*cell)),
        CoronaAnswer::Hole { level, .. } => ("hole", *level as usize, 0, None),
    }
}

/// The cells of the hole that is told.
fn hole_of(answer: &CoronaAnswer) -> &[Cell] {
    match answer {
        CoronaAnswer::Hole { cells, .. } => cells.as_slice(),
        _ => &[],
    }
}

/// Layers around a single square, and each answer but one: the first that applies.
const ROWS: [(&str, &[&[Iso]], Said); 7] = [
    (
        "seven",
        &[&SEVEN],
        ("uncovered", 1, 0, Some(Cell { a: 1, b: 1 })),
    ),
    (
        "eight and a next one",
        &[&EIGHT, &NEXT],
        ("uncovered", 2, 0, Some(Cell { a: -2, b: -2 })),
    ),
    ("eight", &[&EIGHT], ("holds", 0, 0, None)),
    ("no layer", &[], ("holds", 0, 0, None)),
    ("one twice", &[&TWICE], ("meets", 1, 4, None)),
    (
        "the square itself",
        &[&SEVEN, &ORIGIN],
        ("meets", 0, 9, None),
    ),
    ("a far one", &[&SEVEN, &FAR], ("loose", 9, 0, None)),
];

#[test]
fn layers_of_squares(rt: HostRuntime) -> Result<(), Fail> {
    for (row, layers, wanted) in &ROWS {
        let answer = checked::<Square>(rt.alloc(), &cells![0, 0], layers, true)?;
        same(row, said(&answer), *wanted)?;
    }
    Ok(())
}

/// A corona of the pentomino with a notch that leaves two holes, found by a search apart from this program.
#[test]
fn a_corona_with_holes(rt: HostRuntime) -> Result<(), Fail> {
    let notched = cells![0, 0; 1, 0; 2, 0; 0, 1; 2, 1];
    for (row, hole_free, word, level, hole) in [
        ("holes are admitted", false, "holds", 0, [].as_slice()),
        ("holes are forbidden", true, "hole", 1, &cells![4, -1; 4, 1]),
    ] {
        let answer = checked::<Square>(rt.alloc(), &notched, &[&NOTCHED], hole_free)?;
        same(row, said(&answer), (word, level, 0, None))?;
        same(row, hole_of(&answer), hole)?;
    }
    Ok(())
}
