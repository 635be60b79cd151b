//! `heesch share` and `heesch join`: a catalogue in parts.
use super::running::{room, run_over, written};
use heesch_app::Status;
use heesch_io::{MemorySource, NoMemory};
use heesch_made::same;
use std::alloc::Global;
use std::test::Fail;
use std::thread::Threads;

const NO_SHAPES: &str =
    "share 1 7\nheesch 2 square 4 turns 20000 levels 3 domain 4 size 60000000\nend 0\n";

/// A share without shapes is its line, the header and the end.
#[test]
fn a_share_may_have_no_shapes(rt: HostRuntime) -> Result<(), Fail> {
    let share = written(&rt, rt.alloc(), "share square 4 1 7")?;
    same("share", share.as_slice(), NO_SHAPES.as_bytes())
}

/// What `join` writes over these bytes, and how it ends.
fn joined<T: Threads + Sync>(
    rt: &T,
    alloc: Global,
    input: Vec<u8>,
) -> Result<(Status, Vec<u8>), NoMemory> {
    let source = MemorySource::new(input, 5, Vec::new(alloc));
    let (ended, sink) = run_over(rt, alloc, "join", source, room(alloc, 4_000)?)?;
    Ok((ended, sink.held))
}

/// The texts of both shares, joined, are the catalogue.
#[test]
fn shares_are_joined_to_their_catalogue(rt: HostRuntime) -> Result<(), Fail> {
    let alloc = rt.alloc();
    let mut both = written(&rt, alloc, "share square 4 1 2")?;
    let second = written(&rt, alloc, "share square 4 2 2")?;
    both.extend_from_slice(&second)?;
    let (ended, text) = joined(&rt, alloc, both)?;
    let whole = written(&rt, alloc, "classify square 4")?;
    same("both", ended, Status::Done)?;
    same("both", text.as_slice(), whole.as_slice())
}

/// The words of one share, or none, and the fault of the text alone.
const FAULTS: [(&str, &[u8]); 3] = [
    ("share square 4 2 2", b"bad input 1 9\n"),
    ("share square 4 1 2", b"bad input 12 11\n"),
    ("", b"bad input 1 6\n"),
];

#[test]
fn one_share_alone_has_its_fault(rt: HostRuntime) -> Result<(), Fail> {
    for (words, fault) in &FAULTS {
        let share = written(&rt, rt.alloc(), words)?;
        let (ended, text) = joined(&rt, rt.alloc(), share)?;
        same(words, ended, Status::BadInput)?;
        same(words, text.as_slice(), *fault)?;
    }
    Ok(())
}
