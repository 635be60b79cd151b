//! Draws and shapes worked outside of this program.
use heesch_grid::{Cell, Grid, Hex, Iamond, Square};
use heesch_grow::{Draws, grown};
use heesch_made::{cells, same};
use std::test::Fail;

/// The number of cells, the seed, the cells of the shape, and what is drawn next.
type Row<'a> = (u32, u64, &'a [Cell], u32);

const SQUARES: [Row; 3] = [
    (1, 0, &cells![0, 0], 167951807),
    (2, 0, &cells![0, 0; 0, 1], 218396424),
    (
        8,
        0,
        &cells![-1, -2; 0, -2; -2, -1; -1, -1; 0, -1; -1, 0; 0, 0; 0, 1],
        764459975,
    ),
];

const HEXAGONS: Row = (
    6,
    1,
    &cells![0, -2; 0, -1; 1, -1; 2, -1; -1, 0; 0, 0],
    1074839795,
);

const TRIANGLES: Row = (
    5,
    u64::MAX,
    &cells![1, 1; 4, 1; -1, 2; 2, 2; -2, 4],
    2086932864,
);

/// The shape of the row's seed has its cells, and leaves a state from which its number is drawn next.
fn grows<G: Grid>(row: &Row) -> Result<(), Fail> {
    let (n, seed, cells, next) = row;
    if *n < 1 || *n > 32 {
        return Err(Fail::new("too many cells"));
    }
    let mut draws = Draws::new(*seed);
    let shape = grown::<G>(*n, &mut draws);
    same("cells", shape.cells(), cells)?;
    same("next", draws.next(), *next)
}

#[test]
fn shapes_grow_from_seeds(_rt: HostRuntime) -> Result<(), Fail> {
    for row in &SQUARES {
        grows::<Square>(row)?;
    }
    grows::<Hex>(&HEXAGONS)?;
    grows::<Iamond>(&TRIANGLES)
}
