//! Lines and lists that are read, and ones that are refused.
use super::made::long_list;
use heesch_io::NoMemory;
use heesch_line::{LineFault, ListLine, ListStop, read_line, read_list};
use heesch_made::same;
use std::alloc::Global;
use std::test::Fail;

/// Lines of worked texts.
const WORKED: [&str; 29] = [
    "heesch 1 iamond 1 turns 20000 levels 3 domain 4 size 60000000",
    "brief 1 square given turns 20000 levels 3 domain 4 size 12",
    "heesch 2 square 14 turns 20000 levels 3 domain 4 size 60000000",
    "shape 1,1",
    "shape 0,0 1,0 2,0 0,1 2,1 0,2 1,2",
    "verdict tiles halfturn domain 2 classes 1",
    "verdict heesch 0 nontiler 1",
    "verdict undecided levels 1",
    "verdict undecided holes 2",
    "verdict undecided size 0 free 1",
    "verdict undecided turns 1 bare 3",
    "lattice 10 1 3",
    "tile 3 0 0 class 1 by 1 0 -1",
    "coronas 1",
    "layer 0,0,-1 0,1,-1 1,0,-1 1,1,-1 1,2,-1 0,-1,0",
    "wall 1 refuted",
    "wall 1 size",
    "bare 1 same",
    "bare 3 open",
    "bare 2 spent",
    "open 2",
    "triple 2 1 0 refuted",
    "triple 2 1 1 spent",
    "learn -1 2 : 9 10",
    "cut 2 : 1,1 0,1 : 5 7 19 23",
    "cut 1 : 1,1 :",
    "empty 9",
    "spent",
    "end 4294967295",
];

/// Texts that are no lines.
const OTHERS: [&str; 29] = [
    "",
    "end 01",
    "end -0",
    "end  1",
    "end 1 ",
    " end 1",
    "end 4294967296",
    "end",
    "end 1\n",
    "spent 1",
    "shape ",
    "shape 0,-0",
    "shape 100001,0",
    "shape 0,-100001",
    "shape 0,0  1,0",
    "shape 0,0,0",
    "layer 12,0,0",
    "lattice 2 1 2",
    "lattice 4097 1 0",
    "learn : 1",
    "learn 1 :",
    "learn 0 : 1",
    "cut 1 : : 1",
    "cut 1 : 1,1 : ",
    "wall 1 open",
    "heesch 1 square 13 turns 20000 levels 3 domain 4 size 60000000",
    "heesch 2 square 15 turns 20000 levels 3 domain 4 size 60000000",
    "heesch 3 square 12 turns 20000 levels 3 domain 4 size 60000000",
    "heesch 1 square 4 turns 20000 levels 7 domain 4 size 60000000",
];

/// The fault of a line, if it has one.
fn fault_of(alloc: Global, line: &str) -> Option<LineFault> {
    read_line(alloc, line.as_bytes()).err()
}

#[test]
fn lines_are_read_and_other_texts_refused(rt: HostRuntime) -> Result<(), Fail> {
    for line in &WORKED {
        same(line, fault_of(rt.alloc(), line), None)?;
    }
    for line in &OTHERS {
        same(line, fault_of(rt.alloc(), line), Some(LineFault::NotALine))?;
    }
    Ok(())
}

/// A list text, and the number of cells of each line, or why it is none.
type Row<'a> = (&'a str, Result<&'a [usize], ListStop>);

const LISTS: [Row; 12] = [
    ("", Ok(&[])),
    ("0,0", Ok(&[1])),
    ("0,0\n", Ok(&[1])),
    ("0,0\n\n", Ok(&[1, 0])),
    ("\n0,0 -5,6 100000,7", Ok(&[0, 3])),
    ("0,0 ", Err(ListStop::NotText { line: 1 })),
    ("0,0 \n", Err(ListStop::NotText { line: 1 })),
    ("0,0\n 1,0", Err(ListStop::NotText { line: 2 })),
    ("0,0\n0,0  1,0\nx", Err(ListStop::NotText { line: 2 })),
    ("0,0\n\n100001,0", Err(ListStop::NotText { line: 3 })),
    ("0,0\n0,-0", Err(ListStop::NotText { line: 2 })),
    ("0,0\r\n", Err(ListStop::NotText { line: 1 })),
];

/// The number of cells of each line.
fn sizes(alloc: Global, text: &[u8]) -> Result<Vec<usize>, ListStop> {
    let shapes = read_list(alloc, text)?;
    let mut sizes = Vec::new(alloc);
    for cells in shapes.as_slice() {
        sizes.push(cells.len()).map_err(|_| ListStop::NoMemory)?;
    }
    Ok(sizes)
}

/// What is told of a list, as in a row.
fn told(sizes: &Result<Vec<usize>, ListStop>) -> Result<&[usize], ListStop> {
    match sizes {
        Ok(sizes) => Ok(sizes.as_slice()),
        Err(stop) => Err(*stop),
    }
}

#[test]
fn lists_are_read_up_to_their_first_fault(rt: HostRuntime) -> Result<(), Fail> {
    for (text, wanted) in &LISTS {
        let sizes = sizes(rt.alloc(), text.as_bytes());
        same(text, told(&sizes), *wanted)?;
    }
    Ok(())
}

#[test]
fn the_10001st_line_is_one_too_many(rt: HostRuntime) -> Result<(), Fail> {
    let mut text = long_list(rt.alloc())?;
    same("10,000 lines", read_list(rt.alloc(), &text).is_ok(), true)?;
    text.push(b'x')?;
    let stop = read_list(rt.alloc(), &text).err();
    same(
        "one more",
        stop,
        Some(ListStop::TooManyShapes { line: 10_001 }),
    )
}

/// The number of cells that are kept of a line, which is taken byte by byte.
fn kept(alloc: Global, text: &[u8]) -> Result<usize, LineFault> {
    let mut line = ListLine::new(alloc);
    for byte in text {
        line.take(*byte)?;
    }
    let cells = line.finish()?;
    Ok(cells.len())
}

/// A line, and how many cells are kept of it.
const LINES: [(&str, Result<usize, LineFault>); 11] = [
    ("", Ok(0)),
    ("0,0", Ok(1)),
    ("-100000,-100000 5,6", Ok(2)),
    (" ", Err(LineFault::NotALine)),
    ("0,0 ", Err(LineFault::NotALine)),
    (" 0,0", Err(LineFault::NotALine)),
    ("0,0  1,0", Err(LineFault::NotALine)),
    ("0,-0", Err(LineFault::NotALine)),
    ("0,0x", Err(LineFault::NotALine)),
    ("x", Err(LineFault::NotALine)),
    ("0,0000000000000000000000", Err(LineFault::NotALine)),
];

/// A line of 1,001 cells.
fn long_line(alloc: Global) -> Result<Vec<u8>, NoMemory> {
    let mut long = Vec::new(alloc);
    for _ in 0..1000 {
        long.extend_from_slice(b"7,7 ")?;
    }
    long.extend_from_slice(b"7,7")?;
    Ok(long)
}

#[test]
fn a_line_is_taken_byte_by_byte(rt: HostRuntime) -> Result<(), Fail> {
    let alloc = rt.alloc();
    for (text, wanted) in &LINES {
        same(text, kept(alloc, text.as_bytes()), *wanted)?;
    }
    let mut long = long_line(alloc)?;
    same("1,001 cells", kept(alloc, &long), Ok(33))?;
    long.push(b',')?;
    same(
        "a comma behind",
        kept(alloc, &long),
        Err(LineFault::NotALine),
    )
}
