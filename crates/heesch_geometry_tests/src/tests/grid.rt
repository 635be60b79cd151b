//! Neighbours and isometries.
use heesch_grid::{Cell, Grid, Hex, Iamond, Iso, Square, cells};
use heesch_made::{isos, same};
use std::test::Fail;

const ORIGIN: Cell = Cell { a: 0, b: 0 };

/// A triangle of one kind, and one of the other.
const UP: Cell = Cell { a: 1, b: 1 };

const DOWN: Cell = Cell { a: 2, b: 2 };

/// The i-th neighbours are those of the tables of the grids, in cell order.
#[test]
fn neighbours_stand_in_cell_order(_rt: HostRuntime) -> Result<(), Fail> {
    let adjacent = [
        Square::adjacent(ORIGIN, 1),
        Hex::adjacent(ORIGIN, 1),
        Iamond::adjacent(UP, 0),
        Iamond::adjacent(DOWN, 2),
    ];
    same("adjacent", adjacent, cells![-1, 0; 1, -1; 2, -1; 1, 4])?;
    let touching = [
        Square::touching(ORIGIN, 6),
        Hex::touching(ORIGIN, 4),
        Iamond::touching(UP, 11),
        Iamond::touching(DOWN, 0),
    ];
    same("touching", touching, cells![0, 1; -1, 1; -1, 5; 4, -2])?;
    let are_cells = [
        Iamond::is_cell(UP),
        Iamond::is_cell(DOWN),
        Iamond::is_cell(ORIGIN),
    ];
    same("cells", are_cells, [true, true, false])
}

/// A turn of three triangles, and a half-turn with its inverse.
#[test]
fn isometries_follow_the_tables(_rt: HostRuntime) -> Result<(), Fail> {
    let sixth = Iso {
        turn: 1,
        da: 0,
        db: -1,
    };
    let half = Iso {
        turn: 3,
        da: 0,
        db: 0,
    };
    let far = Iso {
        turn: 0,
        da: -300000,
        db: 0,
    };
    let both = sixth.then::<Iamond>(half);
    let wanted = Iso {
        turn: 4,
        da: 0,
        db: 1,
    };
    if both != wanted {
        return Err(Fail::new("another turn"));
    }
    same("undone", [both.undo::<Iamond>()], isos![2, 1, 0])?;
    same(
        "turned",
        sixth.apply::<Iamond>(UP),
        half.apply::<Iamond>(UP),
    )?;
    same("far", far.apply_far::<Iamond>(Cell { a: 900001, b: 1 }), UP)
}
