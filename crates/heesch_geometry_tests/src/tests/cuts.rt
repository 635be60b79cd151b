//! Cuts over the universes of small shapes.
ghost use Rattle.std.specs.Prelude.{◌≡◌, ◌≤◌, IfOk, vec_len};

use super::made::are_within;
use heesch_cert::Cut;
use heesch_cnf::Lit;
use heesch_cuts::{clause_of, cut_for, lawful};
use heesch_grid::{Cell, Grid, Hex, Square};
use heesch_io::{NoMemory, Seq};
use heesch_made::{canonical_of, cells, same};
use heesch_place::Universe;
use std::alloc::Global;
use std::test::Fail;

/// The cut of this level, hole and border.
fn cut_of(alloc: Global, level: u32, hole: &[Cell], border: &[u32]) -> Result<Cut, NoMemory>
    ensures { IfOk result (λ cut. cut.hole ≡ hole.now) }
{
    Ok(Cut {
        level,
        hole: Seq::from_vec(hole.to_vec(alloc)?),
        border: Seq::from_vec(border.to_vec(alloc)?),
    })
}

/// The literals as numbers of variables, negative where negated.
fn numbers_of(alloc: Global, clause: &[Lit]) -> Result<Vec<i64>, NoMemory> {
    let mut numbers = Vec::new(alloc);
    for literal in clause {
        let var = i64::from(literal.var);
        numbers.push(if literal.positive { var } else { -var })?;
    }
    Ok(numbers)
}

/// The clause of the cut over the universe of the single square at level 2, or None where the cut isn't lawful.
fn clause_over_square(
    alloc: Global,
    level: u32,
    hole: &[Cell],
    border: &[u32],
) -> Result<Option<Vec<i64>>, Fail> {
    if !are_within(hole) {
        return Err(Fail::new("a far hole"));
    }
    let square = canonical_of::<Square>(&cells![0, 0])?;
    let universe = Universe::of(alloc, &square, 2)?;
    let cut = cut_of(alloc, level, hole, border)?;
    if !lawful(alloc, &square, &universe, &cut)? {
        return Ok(None);
    }
    let clause = clause_of(alloc, &universe, &cut)?;
    Ok(Some(numbers_of(alloc, clause.as_slice())?))
}

/// A level, a hole and a border, which differ from those of a lawful cut in one condition.
const UNLAWFUL: [(&str, u32, &[Cell], &[u32]); 12] = [
    ("a hole of two", 2, &cells![0, 1; 1, 1], &[2]),
    ("level 0", 0, &cells![1, 1], &[5, 7, 19, 23]),
    ("level 1", 1, &cells![1, 1], &[5, 7, 19, 23]),
    ("level 3", 3, &cells![1, 1], &[5, 7, 19, 23]),
    ("a gap", 2, &cells![1, 1], &[5, 7, 19]),
    ("another order", 2, &cells![1, 1], &[7, 5, 19, 23]),
    ("a tile over the hole", 2, &cells![1, 1], &[5, 7, 8, 19, 23]),
    ("variable 0", 2, &cells![1, 1], &[0, 5, 7, 19, 23]),
    ("variable 25", 2, &cells![1, 1], &[5, 7, 19, 23, 25]),
    ("nothing", 2, &[], &[]),
    ("the shape's own cell", 2, &cells![0, 0], &[2, 4, 5, 7]),
    ("a cell twice", 2, &cells![1, 1; 1, 1], &[5, 7, 19, 23]),
];

#[test]
fn conditions_of_a_cut_are_all_needed(rt: HostRuntime) -> Result<(), Fail> {
    for (row, level, hole, border) in &UNLAWFUL {
        let clause = clause_over_square(rt.alloc(), *level, hole, border)?;
        same(row, clause.is_none(), true)?;
    }
    Ok(())
}

/// The values of so many variables, of which these are true.
fn model_of(alloc: Global, count: u32, chosen: &[u32]) -> Result<Vec<bool>, NoMemory>
    ensures { IfOk result (λ model. vec_len model ≡ count) }
{
    let mut model = Vec::new(alloc);
    for i in 0..count {
        model.push(chosen.contains(&(i + 1)))?;
    }
    Ok(model)
}

/// The cut for the model in which these variables are true, with its clause.
fn cut_with_clause<G: Grid>(
    alloc: Global,
    cells: &[Cell],
    level: u32,
    chosen: &[u32],
) -> Result<Option<(Cut, Vec<i64>)>, Fail>
    requires { (1 ≤ level) × (level ≤ 6) }
{
    let shape = canonical_of::<G>(cells)?;
    let universe = Universe::of(alloc, &shape, level)?;
    let model = model_of(alloc, universe.count(), chosen)?;
    let Some(cut) = cut_for(alloc, &shape, &universe, &model)? else {
        return Ok(None);
    };
    let clause = clause_of(alloc, &universe, &cut)?;
    let numbers = numbers_of(alloc, clause.as_slice())?;
    Ok(Some((cut, numbers)))
}

/// The cut for that model has the level of the model, one hole of one cell, and this border and clause.
fn gives<G: Grid>(
    alloc: Global,
    cells: &[Cell],
    level: u32,
    chosen: &[u32],
    hole: Cell,
    border: &[u32],
    clause: &[i64],
) -> Result<(), Fail>
    requires { (1 ≤ level) × (level ≤ 6) }
{
    let Some((cut, numbers)) = cut_with_clause::<G>(alloc, cells, level, chosen)? else {
        return Err(Fail::new("no cut"));
    };
    same("level", cut.level, level)?;
    same("hole", cut.hole.as_slice(), [hole].as_slice())?;
    same("border", cut.border.as_slice(), border)?;
    same("clause", numbers.as_slice(), clause)
}

/// The variables that are true, the hole, the border and the clause. There are two holes each, and the first gets the
/// cut.
const HOLED: [(&[u32], Cell, &[u32], &[i64]); 2] = [
    (
        &[5, 7, 19, 23],
        Cell { a: 1, b: 1 },
        &[5, 7, 19, 23],
        &[-5, -7, 8, -19, -23],
    ),
    (
        &[2, 4, 5, 7, 9, 10, 14, 19, 23],
        Cell { a: -1, b: -1 },
        &[2, 4, 10, 14],
        &[1, -2, -4, -10, -14],
    ),
];

/// Over the single square at level 2. The first cut is lawful, with this clause.
#[test]
fn models_with_holes_get_a_joined_one(rt: HostRuntime) -> Result<(), Fail> {
    let alloc = rt.alloc();
    for (chosen, hole, border, clause) in &HOLED {
        gives::<Square>(alloc, &cells![0, 0], 2, chosen, *hole, border, clause)?;
    }
    let found = clause_over_square(alloc, 2, &cells![1, 1], &[5, 7, 19, 23])?;
    same("clause", found, Some([-5, -7, 8, -19, -23].to_vec(alloc)?))
}

/// Shapes that have a hole themselves get a cut without border.
#[test]
fn shapes_with_a_hole_get_an_empty_clause(rt: HostRuntime) -> Result<(), Fail> {
    let alloc = rt.alloc();
    let hole = Cell { a: 1, b: 1 };
    let heptomino = cells![0, 0; 1, 0; 2, 0; 0, 1; 2, 1; 0, 2; 1, 2];
    gives::<Square>(alloc, &heptomino, 1, &[], hole, &[], &[])?;
    let ring = cells![1, 0; 2, 0; 0, 1; 2, 1; 0, 2; 1, 2];
    gives::<Hex>(alloc, &ring, 1, &[], hole, &[], &[])
}

/// The single square has no hole with no placement, nor with the whole first level.
#[test]
fn open_models_get_none(rt: HostRuntime) -> Result<(), Fail> {
    for (row, chosen) in [
        ("no placement", [].as_slice()),
        ("the first level", &[1, 2, 3, 4, 5, 6, 7, 8]),
        ("no hole", &[5, 7, 8, 19, 23]),
    ] {
        let cut = cut_with_clause::<Square>(rt.alloc(), &cells![0, 0], 2, chosen)?;
        same(row, cut.is_none(), true)?;
    }
    Ok(())
}
