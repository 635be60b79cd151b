//! Exchanges worked by hand, over the single cell.
use heesch_cnf::Version;
use heesch_exchange::{answer, formula, is_endless};
use heesch_grid::GridName;
use heesch_line::LineStop;
use heesch_made::same;
use std::alloc::Global;
use std::test::Fail;

/// More than any input here has.
const MANY: u64 = 1_000;

/// The two sides of an exchange.
#[derive(Clone, Copy)]
enum Side {
    Formula,
    Answer,
}

/// What a side says of an input at level 1, of which at most so many bytes are read: the text, or the fault. A size
/// beyond the range counts as want of memory.
fn said<const MOST: u64>(
    alloc: Global,
    side: Side,
    grid: GridName,
    size: u32,
    input: &str,
) -> Result<Vec<u8>, LineStop<u32>> {
    if size < 1 || size > 60_000_000 {
        return Err(LineStop::NoMemory);
    }
    let input = input.as_bytes();
    match side {
        Side::Formula => formula::<MOST>(alloc, grid, 1, size, Version::Two, input),
        Side::Answer => answer::<MOST>(alloc, grid, 1, size, Version::Two, input),
    }
}

/// The formula of a square: a clause for each cell around it.
const SQUARE: &str = "p cnf 8 8\n1 0\n2 0\n3 0\n4 0\n5 0\n6 0\n7 0\n8 0\n";

const KITE: &str = "p cnf 9 9\n1 0\n2 0\n3 0\n4 0\n5 0\n6 0\n7 0\n8 0\n9 0\n";

/// The one corona of the single square.
const CORONA: &str = "coronas 1\nlayer 0,-1,-1 0,0,-1 0,1,-1 0,-1,0 0,1,0 0,-1,1 0,0,1 0,1,1\n";

/// A side, its grid, the size, the input and the text: the formula of one cell, its corona, and an assignment that is
/// none.
const TEXTS: [(Side, GridName, u32, &str, &str); 6] = [
    (Side::Formula, GridName::Square, 8, "0,0", SQUARE),
    (Side::Formula, GridName::Square, 8, "7,-3\n", SQUARE),
    (Side::Formula, GridName::Kite, 9, "1,1", KITE),
    (
        Side::Answer,
        GridName::Square,
        8,
        "0,0\ns SATISFIABLE\nv 1 2 3 4 5 6 7 8 0\n",
        CORONA,
    ),
    (
        Side::Answer,
        GridName::Square,
        8,
        "0,0\nc by hand\ns SATISFIABLE\nv 8 7 6 5\nv 1 2 3 4 0\n",
        CORONA,
    ),
    (
        Side::Answer,
        GridName::Square,
        8,
        "0,0\ns SATISFIABLE\nv 1 0\n",
        "false 2\n",
    ),
];

#[test]
fn texts_of_one_cell(rt: HostRuntime) -> Result<(), Fail> {
    for (side, grid, size, input, text) in &TEXTS {
        let found = said::<MANY>(rt.alloc(), *side, *grid, *size, input)?;
        same(input, found.as_slice(), text.as_bytes())?;
    }
    Ok(())
}

/// A side, an input, the size, and the line and the number of the first fault.
const FAULTS: [(Side, &str, u32, u64, u32); 14] = [
    (Side::Formula, "", 8, 1, 13),
    (Side::Formula, "\n", 8, 1, 1),
    (Side::Formula, "0,0 ", 8, 1, 6),
    (Side::Formula, "0,0 0,0\n0,0\n", 8, 1, 4),
    (Side::Formula, "0,0 2,0", 8, 1, 5),
    (Side::Formula, "0,0\n\n", 7, 1, 14),
    (Side::Formula, "0,0\n\n", 8, 2, 13),
    (Side::Answer, "", 8, 1, 13),
    (Side::Answer, "0,0", 8, 1, 6),
    (Side::Answer, "0,0 2,0\nx\n", 8, 1, 5),
    (Side::Answer, "0,0\nx\n", 7, 1, 14),
    (Side::Answer, "0,0\n", 8, 2, 6),
    (Side::Answer, "0,0\ns SATISFIABLE\nv 9 0\n", 8, 3, 15),
    (Side::Answer, "0,0\ns SATISFIABLE\nv 1\n", 8, 4, 6),
];

#[test]
fn the_first_fault_is_named(rt: HostRuntime) -> Result<(), Fail> {
    for (side, input, size, line, fault) in &FAULTS {
        let found = said::<MANY>(rt.alloc(), *side, GridName::Square, *size, input);
        let (line, fault) = (*line, *fault);
        same(input, found.err(), Some(LineStop::Fault { line, fault }))?;
    }
    Ok(())
}

/// An input of which 8 bytes are read, the line and the fault that the formula's side tells and those of the other one.
const ENDLESS: [(&str, (u64, u32), (u64, u32)); 7] = [
    ("0,0 2,0", (1, 5), (1, 6)),
    ("0,0 2,0\n", (1, 5), (1, 5)),
    ("0,0 2,0\nx", (1, 5), (1, 5)),
    ("0,0 1,0 ", (1, 6), (1, 6)),
    ("0,0 1,0 \n", (1, 8), (1, 8)),
    ("0,0 0,0 0", (1, 8), (1, 8)),
    ("0,0\n0,0\n\n", (2, 13), (2, 6)),
];

/// The line and the number of the first fault of an input of which 8 bytes are read.
fn fault_of(alloc: Global, side: Side, input: &str) -> Option<(u64, u32)> {
    match said::<8>(alloc, side, GridName::Square, 8, input) {
        Err(LineStop::Fault { line, fault }) => Some((line, fault)),
        _ => None,
    }
}

/// A first line that doesn't end in 8 bytes has fault 8, and no other, if the input goes on.
#[test]
fn an_endless_line_is_too_long(rt: HostRuntime) -> Result<(), Fail> {
    for (input, asked, answered) in &ENDLESS {
        same(
            input,
            fault_of(rt.alloc(), Side::Formula, input),
            Some(*asked),
        )?;
        same(
            input,
            fault_of(rt.alloc(), Side::Answer, input),
            Some(*answered),
        )?;
        same(input, is_endless::<8>(input.as_bytes()), *asked == (1, 8))?;
    }
    Ok(())
}
