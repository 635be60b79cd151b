//! Lists that overlap, merged by one worker and by several.
ghost use Rattle.std.specs.Prelude.{◌≡◌, ◌<◌, true, IfOk, All};
ghost use Rattle.heesch_grid.specs.declared.Cell.{Cell};
ghost use Rattle.heesch_grid.specs.Cells.{cells_before, has};
ghost use Rattle.heesch_grid.specs.Listing.{IsRising};
ghost use Rattle.heesch_grid.specs.Vectors.{IsWithin};

use crate::merge_all;
use heesch_grid::{Cell, Square, cells};
use heesch_io::NoMemory;
use heesch_shape::Shape;
use std::alloc::Global;
use std::test::Fail;

/// The list of the one shape with these cells.
fn list_of(alloc: Global, cells: &[Cell]) -> Result<Vec<Shape<Square>>, NoMemory>
    requires { (c : Cell) → has cells.now c ≡ true → IsWithin 100000 c }
    ensures { IfOk result (λ list. IsRising cells_before list.items) }
{
    let mut list = Vec::new(alloc);
    if let Ok(shape) = Shape::of(cells) {
        list.push(shape)?;
    }
    Ok(list)
}

#[test]
fn tetrominoes_stand_once_each_in_order(rt: HostRuntime) -> Result<(), Fail> {
    let alloc = rt.alloc();
    let straight = cells![0, 0; 1, 0; 2, 0; 3, 0];
    let bent = cells![0, 0; 1, 0; 2, 0; 0, 1];
    let branched = cells![0, 0; 1, 0; 2, 0; 1, 1];
    let square = cells![0, 0; 1, 0; 0, 1; 1, 1];
    let stepped = cells![0, 0; 1, 0; 1, 1; 2, 1];
    let mut parts = Vec::new(alloc);
    parts.push(list_of(alloc, &stepped)?)?;
    parts.push(list_of(alloc, &branched)?)?;
    parts.push(list_of(alloc, &bent)?)?;
    parts.push(Vec::new(alloc))?;
    parts.push(list_of(alloc, &square)?)?;
    parts.push(list_of(alloc, &straight)?)?;
    parts.push(list_of(alloc, &branched)?)?;
    let merged = merge_all(&rt, alloc, parts, 1)?;
    assert_eq!(rt; merged.len(), 5);
    for (shape, wanted) in merged
        .iter()
        .zip([straight, bent, branched, square, stepped])
    {
        assert!(rt; shape.cells() == wanted.as_slice());
    }
    let none: Vec<Shape<Square>> = merge_all(&rt, alloc, Vec::new(alloc), 1)?;
    assert!(rt; none.is_empty());
    Ok(())
}

/// How many cells the square has. A quarter of the lists of `single_cells` has 8,192 shapes, enough for two threads.
const CELLS: u32 = 16_384;

/// The cell of this number, in cell order, of a square of 128 by 128.
fn cell_at(number: u32) -> Cell
    requires { number < 16384 }
    ensures { IsWithin 100000 result }
{
    Cell {
        a: (number % 128) as i32,
        b: (number / 128) as i32,
    }
}

/// For each cell of the square two lists of the one shape that it alone is, far from their order.
fn single_cells(alloc: Global) -> Result<Vec<Vec<Shape<Square>>>, NoMemory>
    ensures { IfOk result (λ lists. All (λ list. IsRising cells_before list.items) lists.items) }
{
    let mut lists = Vec::new(alloc);
    for number in 0..2 * CELLS {
        let cell = cell_at(number * 7_919 % CELLS);
        lists.push(list_of(alloc, &[cell])?)?;
    }
    Ok(lists)
}

/// Two workers halve the lists in threads, and four their quarters too.
#[test]
fn several_workers_give_the_list_of_one(rt: HostRuntime) -> Result<(), Fail> {
    let alloc = rt.alloc();
    for workers in [0, 1, 2, 3, 4] {
        let merged = merge_all(&rt, alloc, single_cells(alloc)?, workers)?;
        assert_eq!(rt; merged.len(), CELLS as usize);
        for number in 0..CELLS {
            let shape = &merged[number as usize];
            assert!(rt;
                shape.cells() == [cell_at(number)].as_slice(),
                "{workers} workers"
            );
        }
    }
    Ok(())
}
