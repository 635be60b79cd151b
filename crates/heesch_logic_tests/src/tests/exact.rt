//! Small exact covers that are counted by hand, and the example of Knuth's paper.
use heesch_exact::{CoverAnswer, exact_cover};
use heesch_io::NoMemory;
use heesch_made::same;
use std::alloc::Global;
use std::test::Fail;

/// Sets, the points to be covered, and so many nodes; and the sets of the cover, or None.
type Row<'a> = (&'a str, &'a [u64], u64, u32, Option<&'a [u32]>);

/// The last five have no cover.
const ROWS: [Row; 9] = [
    // Its points 1 to 7 are the bits 0 to 6, and rows 1, 4 and 5 are its one cover.
    (
        "the example of \"Dancing Links\"",
        &[
            0b0110100, 0b1001001, 0b0100110, 0b0001001, 0b1000010, 0b1011000,
        ],
        0b1111111,
        1000,
        Some(&[0, 3, 4]),
    ),
    (
        "all sets of two of four points",
        &[0b0011, 0b0101, 0b1001, 0b0110, 0b1010, 0b1100],
        0b1111,
        2,
        Some(&[0, 5]),
    ),
    (
        "the last point, and sets in the other order",
        &[u64::MAX >> 1, 3, 1 << 63],
        u64::MAX,
        2,
        Some(&[0, 2]),
    ),
    ("no point needs no set and no node", &[1], 0, 0, Some(&[])),
    (
        "sets of two have an even number of points",
        &[
            0b00011, 0b00101, 0b01001, 0b10001, 0b00110, 0b01010, 0b10010, 0b01100, 0b10100,
            0b11000,
        ],
        0b11111,
        1000,
        None,
    ),
    ("a point of no set", &[0b01], 0b11, 1000, None),
    ("a set that has another point", &[0b111], 0b011, 1000, None),
    ("two sets that meet", &[0b011, 0b110], 0b111, 1000, None),
    // Five cells of one colour and three of the other.
    (
        "dominoes on a board of 3 by 3 without the middle of a side",
        &[
            0b000001001,
            0b000100100,
            0b000011000,
            0b000110000,
            0b001001000,
            0b010010000,
            0b100100000,
            0b011000000,
            0b110000000,
        ],
        0b111111101,
        1000,
        None,
    ),
];

/// What is answered for this many nodes, and the nodes that are left.
fn answer(
    alloc: Global,
    masks: &[u64],
    points: u64,
    mut nodes: u32,
) -> Result<(CoverAnswer, u32), NoMemory> {
    if masks.len() > 100 {
        return Ok((CoverAnswer::Open, nodes));
    }
    let answer = exact_cover(alloc, masks, points, &mut nodes)?;
    Ok((answer, nodes))
}

/// The sets of the cover, if it is one.
fn sets_of(answer: &CoverAnswer) -> Option<&[u32]> {
    match answer {
        CoverAnswer::Cover { chosen } => Some(chosen.as_slice()),
        _ => None,
    }
}

#[test]
fn covers_are_found_or_ruled_out(rt: HostRuntime) -> Result<(), Fail> {
    for (row, masks, points, nodes, sets) in &ROWS {
        let (found, left) = answer(rt.alloc(), masks, *points, *nodes)?;
        same(row, sets_of(&found), *sets)?;
        same(row, matches!(found, CoverAnswer::Open), false)?;
        if *nodes <= 2 {
            same(row, left, 0)?;
        }
    }
    Ok(())
}

#[test]
fn used_up(rt: HostRuntime) -> Result<(), Fail> {
    let (found, left) = answer(rt.alloc(), &[0b01, 0b10], 0b11, 1)?;
    same(
        "two sets by one node",
        (matches!(found, CoverAnswer::Open), left),
        (true, 0),
    )
}
