//! `heesch list`: how much is written, and what is refused.
use super::running::{Row, all_run, written};
use heesch_app::Status;
use heesch_io::NoMemory;
use heesch_made::same;
use std::alloc::Global;
use std::test::Fail;
use std::thread::Threads;

/// How many free polyominoes, polyhexes, polyiamonds and polykites there are of 1 cell, 2 cells and so on.
const COUNTS: [(&str, [usize; 10]); 4] = [
    ("square", [1, 1, 2, 5, 12, 35, 108, 369, 1285, 4655]),
    ("hex", [1, 1, 3, 7, 22, 82, 333, 1448, 0, 0]),
    ("iamond", [1, 1, 1, 3, 4, 12, 24, 66, 160, 448]),
    ("kite", [1, 2, 4, 10, 27, 85, 262, 873, 0, 0]),
];

/// How many lines the words write.
fn lines_of<T: Threads + Sync>(rt: &T, alloc: Global, line: &str) -> Result<usize, NoMemory> {
    let held = written(rt, alloc, line)?;
    Ok(held.iter().filter(|byte| **byte == b'\n').count())
}

#[test]
fn lists_have_the_known_lengths(rt: HostRuntime) -> Result<(), Fail> {
    let alloc = rt.alloc();
    for (grid, counts) in &COUNTS {
        for (below, count) in counts.iter().enumerate() {
            if *count != 0 {
                let line = format!(in alloc; "list {grid} {}", below + 1)?;
                same(&line, lines_of(&rt, alloc, &line)?, *count)?;
            }
        }
    }
    Ok(())
}

/// Words of one list, by so many workers.
const WORKERS: [&str; 4] = [
    "list square 7 --workers 1",
    "list square 7 --workers 2",
    "list square 7 --workers 5",
    "list square 7 --workers 64",
];

#[test]
fn workers_change_no_byte(rt: HostRuntime) -> Result<(), Fail> {
    let one = written(&rt, rt.alloc(), "list square 7")?;
    same("empty", one.is_empty(), false)?;
    for line in &WORKERS {
        let held = written(&rt, rt.alloc(), line)?;
        same(line, held.as_slice(), one.as_slice())?;
    }
    Ok(())
}

const OTHER_WORDS: [Row; 15] = [
    ("", "", Status::Usage, ""),
    ("list", "", Status::Usage, ""),
    ("list square 0", "", Status::Usage, ""),
    ("list square 15", "", Status::Usage, ""),
    ("classify square 13 --version 1", "", Status::Usage, ""),
    ("list kite 11", "", Status::Usage, ""),
    ("classify kite 1 --version 1", "", Status::Usage, ""),
    ("classify kite given --version 1", "", Status::Usage, ""),
    ("sample kite 1 1 1 --version 1", "", Status::Usage, ""),
    ("list square 4 --version 2", "", Status::Usage, ""),
    ("list square 04", "", Status::Usage, ""),
    ("list square --workers 3 4", "", Status::Usage, ""),
    ("list square 4 --workers 0", "", Status::Usage, ""),
    (
        "list square 4 --workers 2 --workers 2",
        "",
        Status::Usage,
        "",
    ),
    ("table --brief", "", Status::Usage, ""),
];

#[test]
fn other_words_are_refused_and_nothing_is_written(rt: HostRuntime) -> Result<(), Fail> {
    all_run(&rt, rt.alloc(), &OTHER_WORDS)
}
