//! The shares of a small catalogue joined, and texts that aren't shares. The faults are worked by hand.
use super::made::{source_of, text_of};
use heesch_io::{MemorySource, NoMemory, Seq};
use heesch_line::InputStop;
use heesch_made::{same, tetrominoes};
use heesch_parts::{Span, joined, span};
use heesch_reader::Item;
use std::alloc::Global;
use std::test::Fail;

const HEADER: &str = "heesch 2 square 4 turns 20000 levels 3 domain 4 size 60000000\n";

/// Share i of 2, which has the tetrominoes of these numbers, from 0.
fn share(alloc: Global, i: u32, numbers: &[usize]) -> Result<String, NoMemory> {
    let head = format!(in alloc; "share {i} 2\n{HEADER}")?;
    let end = format!(in alloc; "end {}\n", numbers.len())?;
    tetrominoes(alloc, &head, numbers, &end)
}

/// Share 1 of 2.
fn first_share(alloc: Global) -> Result<String, NoMemory> {
    share(alloc, 1, &[0, 1])
}

/// Share 2 of 2.
fn second_share(alloc: Global) -> Result<String, NoMemory> {
    share(alloc, 2, &[2, 3, 4])
}

/// The catalogue of which they are shares.
fn whole(alloc: Global) -> Result<String, NoMemory> {
    tetrominoes(alloc, HEADER, &[0, 1, 2, 3, 4], "end 5\n")
}

/// Joins two texts, one behind the other, so many bytes a read.
fn join(
    alloc: Global,
    front: &str,
    back: &str,
    size: usize,
) -> Result<Result<Seq<Item>, InputStop<u32>>, NoMemory> {
    let mut source = source_of(alloc, front, back, size)?;
    Ok(joined::<MemorySource, 1000>(alloc, &mut source))
}

#[test]
fn spans_of_the_tetrominoes(_rt: HostRuntime) -> Result<(), Fail> {
    for (row, i, k, from, until) in [
        ("1 of 2", 1, 2, 0, 2),
        ("2 of 2", 2, 2, 2, 5),
        ("1 of 7", 1, 7, 0, 0),
        ("7 of 7", 7, 7, 4, 5),
    ] {
        same(row, span(5, i, k), Span { from, until })?;
    }
    Ok(())
}

#[test]
fn both_shares_give_the_catalogue(rt: HostRuntime) -> Result<(), Fail> {
    let alloc = rt.alloc();
    let first = first_share(alloc)?;
    let second = second_share(alloc)?;
    let whole = whole(alloc)?;
    for size in [1, 7, 500] {
        let items = join(alloc, &first, &second, size)??;
        let (out, line) = text_of(alloc, items.as_slice())?;
        same("text", out.as_slice(), whole.as_bytes())?;
        same("line", line, 22)?;
    }
    Ok(())
}

/// Two texts, and the line and the number of the fault that they have, one behind the other.
type Faulty<'a> = (&'a str, &'a str, u64, u32);

/// Each of these texts has its fault.
fn have_faults(alloc: Global, texts: &[Faulty]) -> Result<(), Fail> {
    for (front, back, line, fault) in texts {
        let (line, fault) = (*line, *fault);
        let found = join(alloc, front, back, 100)?.err();
        same(front, found, Some(InputStop::Fault { line, fault }))?;
    }
    Ok(())
}

#[test]
fn the_first_fault_is_told(rt: HostRuntime) -> Result<(), Fail> {
    let first = first_share(rt.alloc())?;
    let first = first.as_str();
    let second = second_share(rt.alloc())?;
    let whole = whole(rt.alloc())?;
    let texts = [
        ("", second.as_str(), 1, 9),
        (first, "", 12, 11),
        ("", "", 1, 6),
        (first, first, 12, 9),
        (first, "share 2 3\n", 12, 9),
        (first, "share 3 2\n", 12, 6),
        (first, "share 2 2\n", 13, 6),
        ("share 1 1\n", first, 2, 6),
        (first, whole.as_str(), 12, 6),
        // a header has to be the first one
        (
            first,
            "share 2 2\nheesch 1 square 4 turns 1 levels 1 domain 1 size 1\n",
            13,
            10,
        ),
    ];
    have_faults(rt.alloc(), &texts)
}

/// Headers that a share can't have, or not there.
const HEADERS: [Faulty; 4] = [
    (HEADER, "", 1, 6),
    (
        "brief 1 square 4 turns 1 levels 1 domain 1 size 1\n",
        "",
        1,
        10,
    ),
    (
        "share 1 1\n",
        "heesch 1 square given turns 1 levels 1 domain 1 size 1\n",
        2,
        10,
    ),
    (
        "share 1 1\nheesch 3 square 4 turns 1 levels 1 domain 1 size 1\n",
        "",
        2,
        6,
    ),
];

#[test]
fn a_header_has_to_be_one_of_a_share(rt: HostRuntime) -> Result<(), Fail> {
    have_faults(rt.alloc(), &HEADERS)
}

#[test]
fn the_bound_is_told(rt: HostRuntime) -> Result<(), Fail> {
    let first = first_share(rt.alloc())?;
    let mut source = source_of(rt.alloc(), &first, "", 4096)?;
    let items = joined::<MemorySource, 100>(rt.alloc(), &mut source);
    let stop = InputStop::Fault { line: 4, fault: 8 };
    same("100 bytes", (items.err(), source.at), (Some(stop), 101))
}
