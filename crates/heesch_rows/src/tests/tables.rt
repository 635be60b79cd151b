//! `heesch table` and `heesch sample`: tallies.
ghost use Rattle.std.specs.Prelude.{◌≤◌};

use super::running::{Row, all_run, written, written_over};
use heesch_app::Status;
use heesch_grid::Square;
use heesch_grow::{Draws, grown};
use heesch_io::{MemorySource, NoMemory};
use heesch_made::{BRIEF_TETROMINOES, HOLED, same};
use heesch_text::write_shape;
use std::alloc::Global;
use std::test::Fail;
use std::thread::Threads;

const TALLIES: [Row; 3] = [
    (
        "table",
        BRIEF_TETROMINOES,
        Status::Done,
        "shapes 5
holed 0
translation 5
halfturn 0
periodic 0
isohedral 5
undecided levels 0
undecided holes 0
undecided turns 0
undecided size 0
",
    ),
    (
        "table",
        HOLED,
        Status::Done,
        "shapes 1
holed 1
translation 0
halfturn 0
periodic 0
isohedral 0
heesch 0 1
undecided levels 0
undecided holes 0
undecided turns 0
undecided size 0
",
    ),
    (
        "sample square 2 4 0",
        "",
        Status::Done,
        "shapes 4
holed 0
translation 4
halfturn 0
periodic 0
isohedral 4
undecided levels 0
undecided holes 0
undecided turns 0
undecided size 0
",
    ),
];

#[test]
fn tallies_of_small_catalogues_are_those_worked_by_hand(rt: HostRuntime) -> Result<(), Fail> {
    all_run(&rt, rt.alloc(), &TALLIES)
}

/// The tally of the catalogue that the words write.
fn tally_of<T: Threads + Sync>(rt: &T, alloc: Global, line: &str) -> Result<Vec<u8>, NoMemory> {
    let catalogue = written(rt, alloc, line)?;
    let source = MemorySource::new(catalogue, 4096, Vec::new(alloc));
    written_over(rt, alloc, "table", source)
}

/// What stands behind the word in each of so many lines of a tally, from the third line on, in sum.
fn sum_of(text: &str, lines: usize) -> u64 {
    let mut sum: u64 = 0;
    for line in text.lines().skip(2).take(lines) {
        let count = line.split_whitespace().nth(1);
        let count = count.and_then(|digits| digits.parse::<u64>().ok());
        sum = sum.saturating_add(count.unwrap_or(0));
    }
    sum
}

/// Words of the catalogue of all polyominoes of a size, their number with those that have a hole, and how many, from
/// and up to, tile by a translation or a half-turn (two lines), or by any cover (three).
const SIZES: [(&str, &str, usize, u64, u64); 2] = [
    (
        "classify square 6 --brief",
        "shapes 35\nholed 0\n",
        2,
        35,
        35,
    ),
    (
        "classify square 7 --brief --domain 2 --levels 1 --turns 50",
        "shapes 108\nholed 1\n",
        3,
        101,
        104,
    ),
];

#[test]
fn tallies_of_sizes_have_the_known_counts(rt: HostRuntime) -> Result<(), Fail> {
    for (words, begin, lines, least, most) in &SIZES {
        let held = tally_of(&rt, rt.alloc(), words)?;
        let text = str::from_utf8(&held)?;
        let tilings = sum_of(text, *lines);
        let is_known = *least <= tilings && tilings <= *most;
        same(words, (text.starts_with(*begin), is_known), (true, true))?;
    }
    Ok(())
}

/// Texts behind their header, and the first faulty entry's fault: in one entry a line that can't stand comes before a
/// shape's fault.
const FAULTS: [Row; 7] = [
    (
        "table",
        "brief 1 square given turns 20000 levels 3 domain 4 size 60000000\n",
        Status::BadInput,
        "bad input 2 6\n",
    ),
    (
        "table",
        "brief 1 square given turns 20000 levels 3 domain 4 size 60000000
shape 0,0 2,0
verdict heesch 0 nontiler 1
end 1
",
        Status::BadInput,
        "bad input 2 5\n",
    ),
    (
        "table",
        "brief 1 square given turns 20000 levels 3 domain 4 size 60000000
shape 0,0 2,0
verdict heesch 0 nontiler 1
verdict
",
        Status::BadInput,
        "bad input 4 6\n",
    ),
    (
        "table",
        "brief 1 square given turns 20000 levels 3 domain 4 size 60000000
shape 0,0 0,0
verdict heesch 0 nontiler 1
shape x
",
        Status::BadInput,
        "bad input 2 4\n",
    ),
    (
        "table",
        "brief 1 square given turns 20000 levels 3 domain 4 size 60000000
shape 0,0
verdict heesch 0 nontiler 1
end 2
",
        Status::BadInput,
        "bad input 4 6\n",
    ),
    (
        "table",
        "brief 1 square given turns 20000 levels 3 domain 4 size 60000000\nend 0",
        Status::BadInput,
        "bad input 2 6\n",
    ),
    ("table", "", Status::BadInput, "bad input 1 6\n"),
];

#[test]
fn the_first_faulty_entry_is_told(rt: HostRuntime) -> Result<(), Fail> {
    all_run(&rt, rt.alloc(), &FAULTS)
}

/// The list text of the shapes that `sample` grows from a seed.
fn grown_list(alloc: Global, n: u32, count: u32, seed: u64) -> Result<Vec<u8>, NoMemory>
    requires { (1 ≤ n) × (n ≤ 32) }
{
    let mut draws = Draws::new(seed);
    let mut text = Vec::new(alloc);
    for _made in 0..count {
        write_shape(grown::<Square>(n, &mut draws).cells(), &mut text)?;
    }
    Ok(text)
}

/// The tally of the catalogue of the shapes that `sample` grows from seed 1.
fn tally_of_grown<T: Threads + Sync>(
    rt: &T,
    alloc: Global,
    n: u32,
    count: u32,
) -> Result<Vec<u8>, NoMemory> {
    if n < 1 || n > 32 {
        return Ok(Vec::new(alloc));
    }
    let list = MemorySource::new(grown_list(alloc, n, count, 1)?, 4096, Vec::new(alloc));
    let words = "classify square given --domain 2 --levels 1 --turns 200";
    let catalogue = written_over(rt, alloc, words, list)?;
    let source = MemorySource::new(catalogue, 4096, Vec::new(alloc));
    written_over(rt, alloc, "table", source)
}

/// Words of a sample and of the same by four workers, the size and the number of its shapes, and how its tally begins.
const SAMPLES: [(&str, &str, u32, u32, &[u8]); 2] = [
    (
        "sample square 7 200 1 --domain 2 --levels 1 --turns 200",
        "sample square 7 200 1 --domain 2 --levels 1 --turns 200 --workers 4",
        7,
        200,
        b"shapes 200\n",
    ),
    (
        "sample square 8 40 1 --domain 2 --levels 1 --turns 200",
        "sample square 8 40 1 --domain 2 --levels 1 --turns 200 --workers 4",
        8,
        40,
        b"shapes 40\n",
    ),
];

/// A sample's tally is that of the catalogue of its shapes, for each number of workers.
#[test]
fn a_sample_is_the_tally_of_its_catalogue(rt: HostRuntime) -> Result<(), Fail> {
    let alloc = rt.alloc();
    for (words, by_four, n, count, begin) in &SAMPLES {
        let sampled = written(&rt, alloc, words)?;
        let again = written(&rt, alloc, by_four)?;
        let counted = tally_of_grown(&rt, alloc, *n, *count)?;
        same(by_four, again.as_slice(), sampled.as_slice())?;
        same(words, counted.as_slice(), sampled.as_slice())?;
        same(words, sampled.starts_with(*begin), true)?;
    }
    Ok(())
}
