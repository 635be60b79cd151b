//! Faults with their places, and canonical forms of images under all turns.
use heesch_grid::{Cell, Grid, Hex, Iamond, Iso, Square};
use heesch_made::{are_near, cells, same, shape_of};
use heesch_shape::{Shape, ShapeFault};
use std::test::Fail;

/// The fault of these cells; a test fails where they are far from 0.
fn fault_of<G: Grid>(cells: &[Cell]) -> Result<Option<ShapeFault>, Fail> {
    if !are_near(cells) {
        return Err(Fail::new("far cells"));
    }
    Ok(Shape::<G>::of(cells).err())
}

/// The image under each turn has the wanted canonical form; a test fails and tells the row where one has another.
fn all_turns_give<G: Grid>(row: usize, given: &[Cell], wanted: &[Cell]) -> Result<(), Fail> {
    let base = shape_of::<G>(given)?.normalised();
    for k in 0..G::TURNS {
        let by = Iso {
            turn: k,
            da: 0,
            db: 0,
        };
        let form = base.image(by).canonical();
        if form.cells() != wanted {
            return Err(Fail::new(format_args!("another form at {row}")));
        }
    }
    Ok(())
}

/// Squares, and their fault.
const FAULTS: [(&str, &[Cell], Option<ShapeFault>); 5] = [
    ("nothing", &[], Some(ShapeFault::Empty)),
    (
        "33 cells",
        &[Cell { a: 0, b: 0 }; 33],
        Some(ShapeFault::TooMany),
    ),
    (
        "a cell twice",
        &cells![0, 0; 1, 0; 0, 0],
        Some(ShapeFault::Repeated { at: 2 }),
    ),
    (
        "two apart",
        &cells![0, 0; 2, 0],
        Some(ShapeFault::Apart { at: 1 }),
    ),
    ("three squares", &cells![0, 0; 1, 1; 1, 0], None),
];

#[test]
fn faults_have_places(_rt: HostRuntime) -> Result<(), Fail> {
    for (row, cells, fault) in &FAULTS {
        same(row, fault_of::<Square>(cells)?, *fault)?;
    }
    let fault = fault_of::<Iamond>(&cells![2, 1])?;
    same("no triangle", fault, Some(ShapeFault::NotACell { at: 0 }))
}

/// Squares, and their canonical form.
const PENTOMINOES: [([Cell; 5], [Cell; 5]); 12] = [
    (
        cells![2, 8; 2, 9; 2, 11; 2, 10; 2, 7],
        cells![0, 0; 1, 0; 2, 0; 3, 0; 4, 0],
    ),
    (
        cells![-8, 2; -6, 2; -6, 1; -7, 2; -9, 2],
        cells![0, 0; 1, 0; 2, 0; 3, 0; 0, 1],
    ),
    (
        cells![-8, -4; -9, -4; -9, -3; -9, -5; -9, -6],
        cells![0, 0; 1, 0; 2, 0; 3, 0; 1, 1],
    ),
    (
        cells![-8, -5; -9, -5; -7, -5; -7, -6; -8, -6],
        cells![0, 0; 1, 0; 2, 0; 0, 1; 1, 1],
    ),
    (
        cells![-7, -3; -9, -2; -9, -3; -7, -2; -8, -3],
        cells![0, 0; 1, 0; 2, 0; 0, 1; 2, 1],
    ),
    (
        cells![-3, 9; -3, 8; -5, 8; -3, 10; -4, 8],
        cells![0, 0; 1, 0; 2, 0; 0, 1; 0, 2],
    ),
    (
        cells![0, -10; -2, -10; 0, -9; -1, -10; 0, -11],
        cells![0, 0; 1, 0; 2, 0; 1, 1; 1, 2],
    ),
    (
        cells![-6, 3; -7, 2; -6, 4; -7, 1; -7, 3],
        cells![0, 0; 1, 0; 2, 0; 2, 1; 3, 1],
    ),
    (
        cells![0, 2; 0, 3; -2, 3; -1, 4; -1, 3],
        cells![0, 0; 1, 0; 1, 1; 2, 1; 1, 2],
    ),
    (
        cells![5, 5; 4, 5; 4, 4; 6, 6; 5, 6],
        cells![0, 0; 1, 0; 1, 1; 2, 1; 2, 2],
    ),
    (
        cells![3, -9; 2, -8; 2, -9; 2, -7; 1, -7],
        cells![0, 0; 1, 0; 1, 1; 1, 2; 2, 2],
    ),
    (
        cells![7, -7; 6, -7; 6, -8; 6, -6; 5, -7],
        cells![1, 0; 0, 1; 1, 1; 2, 1; 1, 2],
    ),
];

/// Hexagons, and their canonical form.
const PENTAHEXES: [([Cell; 5], [Cell; 5]); 5] = [
    (
        cells![-1, 10; 2, 7; 1, 8; -2, 11; 0, 9],
        cells![0, 0; 1, 0; 2, 0; 3, 0; 4, 0],
    ),
    (
        cells![2, -1; 2, -2; 1, -2; 1, 0; 2, 0],
        cells![0, 0; 1, 0; 2, 0; 0, 1; 2, 1],
    ),
    (
        cells![10, 0; 7, 2; 10, 1; 9, 0; 8, 1],
        cells![0, 0; 1, 0; 2, 0; 2, 1; 1, 2],
    ),
    (
        cells![3, -4; 2, -3; 2, -2; 1, 0; 1, -1],
        cells![0, 0; 1, 0; 1, 1; 2, 1; 2, 2],
    ),
    (
        cells![2, 5; 3, 4; 2, 4; 1, 6; 2, 6],
        cells![1, 0; 2, 0; 1, 1; 0, 2; 1, 2],
    ),
];

/// Triangles, and their canonical form.
const PENTIAMONDS: [([Cell; 5], [Cell; 5]); 4] = [
    (
        cells![-5, 7; -2, 7; -1, 8; -4, 8; 1, 7],
        cells![1, 1; 4, 1; 7, 1; 2, 2; 5, 2],
    ),
    (
        cells![-29, -20; -29, -23; -26, -23; -28, -22; -31, -19],
        cells![1, 1; 4, 1; 2, 2; 5, 2; 1, 4],
    ),
    (
        cells![31, -17; 32, -16; 35, -19; 29, -16; 34, -17],
        cells![1, 1; 4, 1; 2, 2; 5, 2; 4, 4],
    ),
    (
        cells![-7, -28; -11, -26; -10, -28; -8, -29; -10, -25],
        cells![4, 1; 2, 2; 5, 2; 1, 4; 4, 4],
    ),
];

#[test]
fn turned_polyforms_of_five_cells_have_one_form(_rt: HostRuntime) -> Result<(), Fail> {
    for (row, (given, form)) in PENTOMINOES.iter().enumerate() {
        all_turns_give::<Square>(row, given, form)?;
    }
    for (row, (given, form)) in PENTAHEXES.iter().enumerate() {
        all_turns_give::<Hex>(row, given, form)?;
    }
    for (row, (given, form)) in PENTIAMONDS.iter().enumerate() {
        all_turns_give::<Iamond>(row, given, form)?;
    }
    Ok(())
}
