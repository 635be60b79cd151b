//! List texts of which few bytes are read, with faults worked by hand.
use super::made::{long_list, source_of};
use heesch_given::shapes_given;
use heesch_grid::Square;
use heesch_io::{MemorySource, NoMemory};
use heesch_line::InputStop;
use heesch_made::same;
use std::alloc::Global;
use std::test::Fail;

/// 64 bytes in 16 lines.
const WHOLE: &str =
    "0,0\n0,0\n0,0\n0,0\n0,0\n0,0\n0,0\n0,0\n0,0\n0,0\n0,0\n0,0\n0,0\n0,0\n0,0\n0,0\n";

/// 33 cells in a row.
const ROW: &str =
    "0,0 1,0 2,0 3,0 4,0 5,0 6,0 7,0 8,0 9,0 10,0 11,0 12,0 13,0 14,0 15,0 16,0 17,0 18,0 19,0 20,0 21,0 \
22,0 23,0 24,0 25,0 26,0 27,0 28,0 29,0 30,0 31,0 32,0";

/// How many shapes a text has, or the line and the number of its fault, and how many of its bytes stay unread.
type Told = (Result<usize, (u64, u32)>, usize);

/// Reads two texts, one behind the other, seven bytes a call and at most 64.
fn read(alloc: Global, front: &str, back: &str) -> Result<Told, Fail> {
    let mut source = source_of(alloc, front, back, 7)?;
    let shapes = match shapes_given::<Square, MemorySource, 64>(alloc, &mut source) {
        Ok(shapes) => Ok(shapes.len()),
        Err(InputStop::Fault { line, fault }) => Err((line, fault)),
        Err(stop) => return Err(Fail::from(stop)),
    };
    Ok((shapes, source.bytes.len() - source.at))
}

/// Two texts, one behind the other, how many shapes they have or the line and the number of the fault, and how many
/// bytes stay unread.
const TEXTS: [(&str, &str, Result<usize, (u64, u32)>, usize); 13] = [
    ("", "", Ok(0), 0),
    ("0,0", "", Ok(1), 0),
    ("5,5 5,6 6,6\n", "0,0 1,0\n", Ok(2), 0),
    (WHOLE, "", Ok(16), 0),
    ("0,0 1,0\n0,0 1,0 0,0\n", "", Err((2, 4)), 0),
    ("0,0 2,0\n", "x\n", Err((1, 5)), 0),
    ("0,0\n\n", "", Err((2, 1)), 0),
    ("0,0 ", "", Err((1, 6)), 0),
    // The rest of the text isn't read.
    ("x\nx\nx\n", WHOLE, Err((1, 6)), 63),
    // Beyond the bound: on the next line, and on the line that doesn't end, whatever it holds.
    (WHOLE, "0,0", Err((17, 8)), 2),
    ("0,0\n", ROW, Err((2, 8)), 93),
    ("x", ROW, Err((1, 8)), 90),
    ("0,0 1,0", ROW, Err((1, 8)), 96),
];

#[test]
fn lists_end_within_the_bound_or_at_their_first_fault(rt: HostRuntime) -> Result<(), Fail> {
    for (front, back, shapes, unread) in &TEXTS {
        same(front, read(rt.alloc(), front, back)?, (*shapes, *unread))?;
    }
    Ok(())
}

#[test]
fn more_cells_than_a_shape_has(rt: HostRuntime) -> Result<(), Fail> {
    let mut source = source_of(rt.alloc(), ROW, "", 4096)?;
    let shapes = shapes_given::<Square, MemorySource, 154>(rt.alloc(), &mut source);
    same(
        "33 cells",
        shapes.err(),
        Some(InputStop::Fault { line: 1, fault: 2 }),
    )
}

/// Why the list of 10,000 lines and a byte more is refused, where so many bytes are read.
fn stop_of_long_list<const MOST: u64>(alloc: Global) -> Result<Option<InputStop<u32>>, NoMemory> {
    let mut bytes = long_list(alloc)?;
    bytes.push(b'x')?;
    let mut source = MemorySource::new(bytes, 4096, Vec::new(alloc));
    Ok(shapes_given::<Square, MemorySource, MOST>(alloc, &mut source).err())
}

#[test]
fn line_10_001_has_fault_7(rt: HostRuntime) -> Result<(), Fail> {
    let fault = 7;
    let stop = Some(InputStop::Fault {
        line: 10_001,
        fault,
    });
    same("all bytes", stop_of_long_list::<40_001>(rt.alloc())?, stop)?;
    same(
        "one byte less",
        stop_of_long_list::<40_000>(rt.alloc())?,
        stop,
    )
}

#[test]
fn a_source_fails_in_the_middle(rt: HostRuntime) -> Result<(), Fail> {
    let bytes = WHOLE.as_bytes().to_vec(rt.alloc())?;
    let mut source = MemorySource::new(bytes, 7, [3].to_vec(rt.alloc())?);
    let shapes = shapes_given::<Square, MemorySource, 64>(rt.alloc(), &mut source);
    same(
        "the third call",
        (shapes.err(), source.at),
        (Some(InputStop::Failed), 14),
    )
}
