//! Worked texts, each with its answer.
ghost use Rattle.std.specs.Prelude.{◌≤◌};

use heesch_check::{Checked, check, write_checked};
use heesch_io::{IoStop, MemorySource, NoMemory};
use heesch_made::same;
use heesch_pool::{Crew, Open};
use std::alloc::Global;
use std::test::Fail;
use std::thread::Threads;

const HEADER: &str = "heesch 1 iamond 1 turns 20000 levels 3 domain 4 size 60000000\n";

const LARGE: &str = "heesch 1 iamond 15 turns 20000 levels 3 domain 4 size 60000000\n";

const BRIEF: &str = "brief 1 iamond 1 turns 20000 levels 3 domain 4 size 60000000\n";

const GIVEN: &str = "heesch 1 iamond given turns 20000 levels 3 domain 4 size 60000000\n";

const SHAPE: &str = "shape 1,1\nverdict tiles halfturn domain 2 classes 1\nlattice 1 1 0\n";

const TILES: &str = "tile 0 0 0 class 1 by 0 0 0\ntile 3 0 0 class 1 by 1 0 -1\n";

const END: &str = "end 1\n";

/// The answer of a text that comes in pieces of at most 5 bytes, by so many workers.
fn answer_of<T: Threads + Sync>(
    rt: &T,
    alloc: Global,
    text: &str,
    workers: u32,
) -> Result<Checked, IoStop>
    requires { (1 ≤ workers) × (workers ≤ 64) }
{
    let Ok(bytes) = text.as_bytes().to_vec(alloc) else {
        return Err(IoStop::NoMemory);
    };
    let mut source = MemorySource::new(bytes, 5, Vec::new(alloc));
    check(&Crew::new(rt, alloc, workers, &Open), &mut source)
}

/// Pieces of a text, and its answer.
type Row<'a> = (&'a [&'a str], Checked);

const ROWS: [Row; 11] = [
    (&[HEADER, SHAPE, TILES, END], Checked::Valid { count: 1 }),
    (&[HEADER, SHAPE, END], Checked::InvalidEntry { number: 1 }),
    (
        &[HEADER, SHAPE, TILES, "shape 1,1 2,2\n"],
        Checked::InvalidEntry { number: 2 },
    ),
    (
        &[HEADER, "shape 1,1 2,2\n", SHAPE],
        Checked::InvalidEntry { number: 1 },
    ),
    (&[HEADER, SHAPE, TILES, END, END], Checked::InvalidEnd),
    (&[HEADER, SHAPE, TILES, "end 1"], Checked::InvalidEnd),
    (&[HEADER, "end 0\n"], Checked::InvalidEnd),
    (&[BRIEF, SHAPE, TILES, END], Checked::InvalidHeader),
    (&[LARGE, "xyz\n"], Checked::InvalidEnd),
    (
        &[
            LARGE,
            "shape 1,1\nverdict tiles halfturn domain 2 classes 1\n",
            "shape 1,1\nverdict tiles halfturn domain 2 classes 1\n",
        ],
        Checked::InvalidEntry { number: 1 },
    ),
    (&[], Checked::InvalidHeader),
];

/// The text of these pieces.
fn joined(alloc: Global, pieces: &[&str]) -> Result<String, NoMemory> {
    let mut text = String::new(alloc);
    for piece in pieces {
        text.push_str(piece)?;
    }
    Ok(text)
}

#[test]
fn the_first_invalid_part_is_told(rt: HostRuntime) -> Result<(), Fail> {
    for (pieces, answer) in &ROWS {
        let text = joined(rt.alloc(), pieces)?;
        same(&text, answer_of(&rt, rt.alloc(), &text, 1), Ok(*answer))?;
    }
    Ok(())
}

/// A text of given shapes, 300 times the single triangle, where entries of these numbers, from 0, lack a line.
fn rounds(alloc: Global, faulty: &[u32], end: &str) -> Result<String, NoMemory> {
    let mut text = String::new(alloc);
    text.push_str(GIVEN)?;
    for number in 0..300 {
        text.push_str(SHAPE)?;
        if !faulty.contains(&number) {
            text.push_str(TILES)?;
        }
    }
    text.push_str(end)?;
    Ok(text)
}

/// The numbers of the entries that lack a line, the text of the end, and the answer.
const ROUNDS: [(&[u32], &str, Checked); 5] = [
    (&[], "end 300\n", Checked::Valid { count: 300 }),
    (
        &[270, 299],
        "end 300\n",
        Checked::InvalidEntry { number: 271 },
    ),
    (&[200, 3], "end 300\n", Checked::InvalidEntry { number: 4 }),
    (&[], "end 301\n", Checked::InvalidEnd),
    (&[299], "shape 0\n", Checked::InvalidEntry { number: 300 }),
];

#[test]
fn the_least_invalid_entry_of_a_round_is_told(rt: HostRuntime) -> Result<(), Fail> {
    for (faulty, end, answer) in &ROUNDS {
        let text = rounds(rt.alloc(), faulty, end)?;
        same(end, answer_of(&rt, rt.alloc(), &text, 3), Ok(*answer))?;
    }
    Ok(())
}

/// An answer of each kind.
const ANSWERS: [Checked; 4] = [
    Checked::Valid { count: 108 },
    Checked::InvalidEntry { number: 3 },
    Checked::InvalidEnd,
    Checked::InvalidHeader,
];

const LINES: &[u8] = b"valid 108\ninvalid entry 3\ninvalid end\ninvalid header\n";

#[test]
fn the_line_of_an_answer_is_written(rt: HostRuntime) -> Result<(), Fail> {
    let mut text = Vec::new(rt.alloc());
    for answer in &ANSWERS {
        write_checked(*answer, &mut text)?;
    }
    same("lines", text.as_slice(), LINES)
}

#[test]
fn a_failing_source_is_told(rt: HostRuntime) -> Result<(), Fail> {
    let alloc = rt.alloc();
    let bytes = HEADER.as_bytes().to_vec(alloc)?;
    let mut source = MemorySource::new(bytes, 5, [3].to_vec(alloc)?);
    let found = check(&Crew::new(&rt, alloc, 1, &Open), &mut source);
    same("the third call", found, Err(IoStop::Failed))
}
