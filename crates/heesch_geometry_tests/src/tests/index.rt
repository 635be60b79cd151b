//! The numbers at a cell rise, also beyond 2^16 of them.
use heesch_grid::{Cell, cells};
use heesch_index::CellIndex;
use heesch_io::NoMemory;
use heesch_made::same;
use std::alloc::Global;
use std::test::Fail;

/// Four overlapping sets of squares.
fn four_sets(alloc: Global) -> Result<CellIndex, NoMemory> {
    let mut index = CellIndex::new(alloc);
    index.add(&cells![0, 0; 1, 0; 0, 1])?;
    index.add(&cells![1, 0; 2, 0])?;
    index.add(&[])?;
    index.add(&cells![1, 0; 0, 1; -1, 2])?;
    Ok(index)
}

/// A cell, and the numbers of the sets that have it: none at the last one.
const NUMBERS: [(&str, Cell, &[u32]); 6] = [
    ("1,0", Cell { a: 1, b: 0 }, &[1, 2, 4]),
    ("0,1", Cell { a: 0, b: 1 }, &[1, 4]),
    ("0,0", Cell { a: 0, b: 0 }, &[1]),
    ("2,0", Cell { a: 2, b: 0 }, &[2]),
    ("-1,2", Cell { a: -1, b: 2 }, &[4]),
    ("5,5", Cell { a: 5, b: 5 }, &[]),
];

/// Their numbers rise from 1 at each cell, whatever the order of the cells in between.
#[test]
fn numbers_of_overlapping_sets_rise(rt: HostRuntime) -> Result<(), Fail> {
    let index = four_sets(rt.alloc())?;
    for (row, cell, numbers) in &NUMBERS {
        same(row, index.covering(*cell), numbers)?;
    }
    same("sets", index.len(), 4)
}

/// The cells of the set of this number, if there is one.
fn cells_of(index: &CellIndex, number: u32) -> &[Cell] {
    if number < 1 || number > index.len() {
        return &[];
    }
    index.cells(number)
}

#[test]
fn an_empty_index_has_no_number(rt: HostRuntime) -> Result<(), Fail> {
    let index = CellIndex::new(rt.alloc());
    same("sets", index.len(), 0)?;
    same("0,0", index.covering(Cell { a: 0, b: 0 }).len(), 0)?;
    let index = four_sets(rt.alloc())?;
    same(
        "the second set",
        cells_of(&index, 2),
        cells![1, 0; 2, 0].as_slice(),
    )
}

/// More sets than numbers of 16 bits can count, and than any bound near: each has the next number, and the last one is
/// found at its cell, behind 512 others.
#[test]
fn numbers_go_on_beyond_65536(rt: HostRuntime) -> Result<(), Fail> {
    let mut index = CellIndex::new(rt.alloc());
    for i in 0..131_073 {
        index.add(&[Cell { a: i % 256, b: 0 }])?;
    }
    let first = Cell { a: 0, b: 0 };
    let numbers = index.covering(first);
    same(
        "numbers",
        (index.len(), numbers.len(), numbers.last()),
        (131_073, 513, Some(&131_073)),
    )?;
    same("cells", cells_of(&index, 131_073), [first].as_slice())
}
