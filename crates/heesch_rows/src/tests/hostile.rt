//! `heesch` over altered catalogues and failing sources.
use super::checks::{CORONA, holed};
use super::running::{all_run, ends_with, room};
use heesch_app::Status;
use heesch_io::MemorySource;
use heesch_made::{TRIANGLE, same};
use std::alloc::Global;
use std::test::Fail;
use std::thread::Threads;

/// What `check` tells of the first bytes of the catalogue of the triangle, where these are fewer than so many.
const FRONTS: [(usize, &str); 6] = [
    (62, "invalid header\n"),
    (68, "invalid end\n"),
    (185, "invalid entry 1\n"),
    (186, "invalid end\n"),
    (189, "invalid entry 1\n"),
    (191, "invalid end\n"),
];

#[test]
fn every_front_of_a_catalogue_is_invalid(rt: HostRuntime) -> Result<(), Fail> {
    let alloc = rt.alloc();
    let bytes = TRIANGLE.as_bytes();
    let mut from = 0;
    for (until, line) in FRONTS {
        for len in from..until {
            let front = str::from_utf8(&bytes[..len.min(bytes.len())])?;
            all_run(&rt, alloc, &[("check", front, Status::Invalid, line)])?;
        }
        from = until;
    }
    same("bytes", from, bytes.len())
}

const SQUARE: &str = "heesch 1 square 1 turns 20000 levels 3 domain 4 size 60000000
shape 0,0
verdict tiles translation domain 1 classes 1
lattice 1 1 0
tile 0 0 0 class 1 by 0 0 0
end 1
";

/// A shape line of 33 cells.
const MANY_CELLS: &str =
    "shape 0,0 1,0 2,0 3,0 4,0 5,0 6,0 7,0 8,0 9,0 10,0 11,0 12,0 13,0 14,0 15,0 16,0 17,0 18,0 19,0 20,0 21,0 22,0 23,0 24,0 25,0 26,0 27,0 28,0 29,0 30,0 31,0 32,0";

/// What `check` tells of a catalogue whose header, or whose first entry, is altered.
const HEADER: &str = "invalid header\n";

const ENTRY: &str = "invalid entry 1\n";

/// Of a valid text one part, in a line that says what stands in it, in a tiling or in a corona, another in its place,
/// and what is told.
const ALTERED: [(&str, &str, &str, &str); 20] = [
    (SQUARE, "heesch 1", "brief 1", HEADER),
    (TRIANGLE, "iamond 1 turns", "iamond 16 turns", HEADER),
    (TRIANGLE, "iamond 1 turns", "kite 1 turns", HEADER),
    (TRIANGLE, "60000000", "60000001", HEADER),
    (TRIANGLE, "shape 1,1", "shape 1,1 1,1", ENTRY),
    (TRIANGLE, "shape 1,1", MANY_CELLS, ENTRY),
    (
        TRIANGLE,
        "halfturn domain 2",
        "halfturn domain 4294967295",
        ENTRY,
    ),
    (TRIANGLE, "classes 1", "classes 4294967296", ENTRY),
    (TRIANGLE, "domain 4 size", "domain 1 size", ENTRY),
    (TRIANGLE, "lattice 1 1 0", "lattice 1 4097 0", ENTRY),
    (TRIANGLE, "tile 3 0 0", "tile 3 100001 0", ENTRY),
    (TRIANGLE, "tile 3 0 0", "tile 12 0 0", ENTRY),
    (TRIANGLE, "tile 3 0 0", "tile 3 100000 100000", ENTRY),
    (TRIANGLE, "0 0 0 class 1", "0 0 0 class 0", ENTRY),
    (TRIANGLE, "tile 3 0 0 class 1 by 1 0 -1\n", "", ENTRY),
    (TRIANGLE, "by 1 0 -1", "by 3 0 0", ENTRY),
    (TRIANGLE, "tile 0 0 0", "tile 0 0  0", ENTRY),
    (TRIANGLE, "by 0 0 0", "by 0 0 -0", ENTRY),
    (SQUARE, "tile 0 0 0", "tile 8 0 0", ENTRY),
    (CORONA, " 1,0,1\n", "\n", ENTRY),
];

/// The same of the heptomino with a hole: in its header and in its refutation.
const ALTERED_HOLED: [(&str, &str, &str); 9] = [
    ("2 square given", "1 kite given", HEADER),
    ("empty 9", "empty 8", ENTRY),
    ("empty 9", "empty 0", ENTRY),
    ("empty 9", "empty 4294967295", ENTRY),
    ("empty 9", "empty 9 9", ENTRY),
    ("empty 9", "cut 1 : 1,1 :\nempty 9", ENTRY),
    ("bare 1 same", "bare 2 same", ENTRY),
    ("bare 1 same\n", "", ENTRY),
    ("nontiler 1", "nontiler 2", ENTRY),
];

/// `check` tells this of the text with the new part for the old one.
fn is_found<T: Threads + Sync>(
    rt: &T,
    alloc: Global,
    text: &str,
    part: (&str, &str),
    told: &str,
) -> Result<(), Fail> {
    let altered = text.replacen(alloc, part.0, part.1, 1)?;
    all_run(
        rt,
        alloc,
        &[("check", altered.as_str(), Status::Invalid, told)],
    )
}

#[test]
fn an_altered_line_is_found(rt: HostRuntime) -> Result<(), Fail> {
    let alloc = rt.alloc();
    for (text, old, new, told) in &ALTERED {
        is_found(&rt, alloc, text, (*old, *new), told)?;
    }
    let holed = holed(alloc)?;
    for (old, new, told) in &ALTERED_HOLED {
        is_found(&rt, alloc, &holed, (*old, *new), told)?;
    }
    Ok(())
}

/// The catalogue of the triangle comes in 25 calls, the last for the end: each that fails leaves nothing written.
#[test]
fn a_source_that_fails_gets_no_answer(rt: HostRuntime) -> Result<(), Fail> {
    let alloc = rt.alloc();
    for call in 1..=26 {
        let bytes = TRIANGLE.as_bytes().to_vec(alloc)?;
        let source = MemorySource::new(bytes, 8, [call].to_vec(alloc)?);
        let wanted = if call <= 25 {
            (Status::ReadFault, "")
        } else {
            (Status::Done, "valid 1\n")
        };
        ends_with(&rt, alloc, "check", source, room(alloc, 100)?, wanted)?;
    }
    Ok(())
}
