//! Searches over small polyforms, by what another program found.
ghost use Rattle.std.specs.Prelude.{◌≤◌};

use super::made::{AROUND, CROSSING, HOLED, is_by};
use heesch_cert::Layers;
use heesch_cnf::Version;
use heesch_grid::{Cell, Grid, Hex, Iamond, Iso, Square};
use heesch_levels::{LevelAnswer, WallAnswer, level, wall};
use heesch_made::{canonical_of, cells, same};
use std::alloc::Global;
use std::test::Fail;

/// What is found at level 1, holes forbidden.
fn found<G: Grid>(alloc: Global, cells: &[Cell], size: u32) -> Result<LevelAnswer, Fail>
    requires { (1 ≤ size) × (size ≤ 60000000) }
{
    let shape = canonical_of::<G>(cells)?;
    Ok(level(alloc, &shape, 1, true, 20_000, size, Version::One)?)
}

/// A cell that the shape encloses is covered by no tile: its clause, of this number, is empty, and refutes the formula.
fn is_enclosed<G: Grid>(alloc: Global, cells: &[Cell], number: u32) -> Result<(), Fail> {
    let answer = found::<G>(alloc, cells, 60_000_000)?;
    let LevelAnswer::Refuted { proof } = &answer else {
        return Err(Fail::new("not refuted"));
    };
    is_by(proof, number)
}

#[test]
fn enclosed_cells(rt: HostRuntime) -> Result<(), Fail> {
    is_enclosed::<Square>(rt.alloc(), &HOLED, 9)?;
    is_enclosed::<Hex>(rt.alloc(), &cells![1, 0; 2, 0; 0, 1; 2, 1; 0, 2; 1, 2], 7)
}

/// The one layer, if there is just one.
fn only_layer(layers: &Layers) -> &[Iso] {
    match layers.layers.as_slice() {
        [layer] => layer.as_slice(),
        _ => &[],
    }
}

/// The one corona of the single triangle, whose formula has 12 literals.
#[test]
fn single_triangle(rt: HostRuntime) -> Result<(), Fail> {
    let answer = found::<Iamond>(rt.alloc(), &cells![1, 1], 12)?;
    let LevelAnswer::Coronas { layers } = &answer else {
        return Err(Fail::new("no coronas"));
    };
    same("corona", only_layer(layers), AROUND.as_slice())
}

#[test]
fn formula_too_large(rt: HostRuntime) -> Result<(), Fail> {
    let answer = found::<Iamond>(rt.alloc(), &cells![1, 1], 11)?;
    same("too large", matches!(answer, LevelAnswer::TooLarge), true)
}

/// How many layers with holes are found at level 1.
fn holed_layers(alloc: Global, cells: &[Cell], version: Version) -> Result<Option<usize>, Fail> {
    let shape = canonical_of::<Square>(cells)?;
    match &wall(alloc, &shape, 1, 20_000, 60_000_000, version)? {
        WallAnswer::Holed { layers, .. } => Ok(Some(layers.layers.len())),
        _ => Ok(None),
    }
}

/// This heptomino can be surrounded, but never without a hole.
#[test]
fn surrounded_with_holes(rt: HostRuntime) -> Result<(), Fail> {
    same(
        "one",
        holed_layers(rt.alloc(), &CROSSING, Version::One)?,
        Some(1),
    )?;
    same(
        "two",
        holed_layers(rt.alloc(), &CROSSING, Version::Two)?,
        Some(1),
    )
}
