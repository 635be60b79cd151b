//! Formulas of small polyforms, by numbers that another program gave.
use heesch_cnf::{Formula, Lit, Version};
use heesch_encode::{EncodeStop, encode};
use heesch_grid::{Cell, Grid, Hex, Iamond, Square};
use heesch_made::{canonical_of, cells, lits, same};
use std::alloc::Global;
use std::test::Fail;

/// How many variables, clauses and literals the formula has.
fn sizes(formula: &Formula) -> (u32, usize, u64) {
    (formula.vars, formula.clauses.len(), formula.literals())
}

/// Whether the formula has a clause of just these literals at this place, from 0.
fn has_clause(formula: &Formula, place: usize, literals: &[Lit]) -> bool {
    let clause = formula.clauses.as_slice().get(place);
    clause.is_some_and(|clause| clause.as_slice() == literals)
}

/// A formula's sizes, or why there is none.
type Sizes = Result<(u32, usize, u64), EncodeStop>;

/// Squares, a level, as many literals, a version, and the sizes.
const SIZES: [(&[Cell], u32, u32, Version, Sizes); 6] = [
    (&cells![0, 0], 2, 168, Version::One, Ok((24, 80, 168))),
    (
        &cells![0, 0],
        2,
        167,
        Version::One,
        Err(EncodeStop::TooLarge),
    ),
    (&cells![0, 0], 2, 168, Version::Two, Ok((24, 80, 168))),
    (&cells![0, 0; 1, 0], 1, 118, Version::One, Ok((24, 52, 118))),
    (&cells![0, 0; 1, 0], 1, 170, Version::Two, Ok((44, 78, 170))),
    (
        &cells![0, 0; 1, 0],
        1,
        169,
        Version::Two,
        Err(EncodeStop::TooLarge),
    ),
];

/// The formula of these cells, and how many variables its universe has. A test fails where the level or the size is out
/// of range.
fn encoded<G: Grid>(
    alloc: Global,
    cells: &[Cell],
    level: u32,
    size: u32,
    version: Version,
) -> Result<Result<(Formula, u32), EncodeStop>, Fail> {
    if level < 1 || level > 6 || size < 1 || size > 60_000_000 {
        return Err(Fail::new("out of range"));
    }
    let shape = canonical_of::<G>(cells)?;
    match encode(alloc, &shape, level, size, version) {
        Ok(encoded) => {
            let count = encoded.universe.count();
            Ok(Ok((encoded.formula, count)))
        }
        Err(stop) => Ok(Err(stop)),
    }
}

/// What is told of a formula.
fn told(encoded: &Result<(Formula, u32), EncodeStop>) -> Sizes {
    match encoded {
        Ok((formula, _)) => Ok(sizes(formula)),
        Err(stop) => Err(*stop),
    }
}

/// The formulas of the single square and of the domino fit in as many literals, and not in one less.
#[test]
fn formulas_have_their_sizes(rt: HostRuntime) -> Result<(), Fail> {
    for (cells, level, size, version, wanted) in &SIZES {
        let encoded = encoded::<Square>(rt.alloc(), cells, *level, *size, *version)?;
        same("sizes", told(&encoded), *wanted)?;
    }
    Ok(())
}

/// Squares, a level, a version, the place of a clause, from 0, and its literals.
const CLAUSES: [(&[Cell], u32, Version, usize, &[i32]); 5] = [
    (&cells![0, 0], 2, Version::One, 8, &[-1, 9]),
    (&cells![0, 0; 1, 0], 1, Version::Two, 0, &[1, 5, 6, 7]),
    (&cells![0, 0; 1, 0], 1, Version::Two, 10, &[-1, -25]),
    (&cells![0, 0; 1, 0], 1, Version::Two, 12, &[-5, 25]),
    (&cells![0, 0; 1, 0], 1, Version::Two, 17, &[-7, 26]),
];

/// Each universe has 24 variables, also where the formula has more.
#[test]
fn formulas_have_their_clauses(rt: HostRuntime) -> Result<(), Fail> {
    for (cells, level, version, place, numbers) in &CLAUSES {
        let encoded = encoded::<Square>(rt.alloc(), cells, *level, 60_000_000, *version)?;
        let (formula, count) = encoded?;
        let literals = lits(rt.alloc(), numbers)?;
        let found = (has_clause(&formula, *place, literals.as_slice()), count);
        same("clause", found, (true, 24))?;
    }
    Ok(())
}

/// Cells, a level, and how many variables of the universe, clauses and literals the formula has.
type Row<'a> = (&'a [Cell], u32, (u32, usize, u64));

const SQUARES: [Row; 3] = [
    (&cells![0, 0; 1, 0; 0, 1], 1, (64, 418, 911)),
    (&cells![0, 0; 1, 0; 0, 1], 2, (288, 3967, 16673)),
    (&cells![0, 0; 1, 0], 3, (344, 2932, 12712)),
];

const HEXAGONS: [Row; 2] = [
    (&cells![0, 0; 1, 0; 0, 1], 3, (324, 3936, 16179)),
    (&cells![0, 0; 1, 0], 2, (144, 926, 3192)),
];

const TRIANGLES: [Row; 3] = [
    (&cells![1, 1; 2, 2; 4, 1; 1, 4], 2, (108, 873, 2988)),
    (&cells![1, 1; 2, 2; 4, 1], 2, (288, 3280, 14530)),
    (&cells![1, 1; 2, 2], 3, (330, 2804, 12176)),
];

/// The formula has as many variables, clauses and literals as the row.
fn has_counts<G: Grid>(alloc: Global, row: &Row) -> Result<(), Fail> {
    let (cells, level, counts) = row;
    let (formula, count) = encoded::<G>(alloc, cells, *level, 60_000_000, Version::One)??;
    let (_, clauses, literals) = sizes(&formula);
    same("counts", (count, clauses, literals), *counts)
}

/// Of the three grids.
#[test]
fn formulas_of_small_shapes(rt: HostRuntime) -> Result<(), Fail> {
    for row in &SQUARES {
        has_counts::<Square>(rt.alloc(), row)?;
    }
    for row in &HEXAGONS {
        has_counts::<Hex>(rt.alloc(), row)?;
    }
    for row in &TRIANGLES {
        has_counts::<Iamond>(rt.alloc(), row)?;
    }
    Ok(())
}
