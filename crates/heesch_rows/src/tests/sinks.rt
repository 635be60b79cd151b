//! `heesch` over a sink that fails.
use super::FIVE_TETROMINOES;
use super::running::{bytes_of, room, run_into, run_past};
use heesch_app::Status;
use heesch_io::{MemorySink, NoMemory};
use heesch_made::same;
use heesch_pool::Gate;
use std::alloc::Global;
use std::sync::atomic::{AtomicU64, Ordering};
use std::test::Fail;
use std::thread::Threads;

/// The five tetrominoes are written in 5 calls of at most 16 bytes: each that fails leaves what was written before.
#[test]
fn a_sink_that_fails_keeps_a_prefix(rt: HostRuntime) -> Result<(), Fail> {
    let alloc = rt.alloc();
    let text = FIVE_TETROMINOES.as_bytes();
    for call in 1..=5 {
        let sink = MemorySink::new(alloc, 100, 16, [call].to_vec(alloc)?)?;
        let (status, sink) = run_into(&rt, alloc, "list square 4", sink)?;
        let held = sink.held.as_slice();
        let is_prefix = text.starts_with(held) && held.len() as u64 <= 16 * (call - 1);
        same(
            "call",
            (call, status, is_prefix),
            (call, Status::WriteFault, true),
        )?;
    }
    Ok(())
}

/// Counts the tickets that pass it.
struct Passes {
    count: AtomicU64,
}

impl Passes {
    fn new() -> Passes {
        Passes {
            count: AtomicU64::new(0),
        }
    }

    fn count(&self) -> u64 {
        self.count.load(Ordering::SeqCst)
    }
}

impl Gate for Passes {
    fn pass(&self, _worker: u32, _ticket: u32) {
        self.count.fetch_add(1, Ordering::SeqCst);
    }
}

impl Drop for Passes {
    fn drop(self) {
        let Self { count: _ } = self;
    }
}

/// How many tickets pass in a run of the words over this sink, how it ends, and what the sink holds then.
fn passed<T: Threads + Sync>(
    rt: &T,
    alloc: Global,
    line: &str,
    sink: MemorySink,
) -> Result<(u64, Status, Vec<u8>), NoMemory> {
    let gate = Passes::new();
    let (status, sink) = run_past(rt, alloc, line, bytes_of(alloc, "")?, sink, &gate)?;
    Ok((gate.count(), status, sink.held))
}

/// There are 369 octominoes. A sink that fails its second call holds the header's text alone, and 256 were classified.
#[test]
fn a_catalogue_ends_where_its_sink_fails(rt: HostRuntime) -> Result<(), Fail> {
    let alloc = rt.alloc();
    let (listed, status, _) = passed(&rt, alloc, "list square 8", room(alloc, 20_000)?)?;
    same("list", status, Status::Done)?;
    let classify = "classify square 8 --domain 1 --levels 1 --turns 1 --workers 2";
    let sink = MemorySink::new(alloc, 20_000, 20_000, [2].to_vec(alloc)?)?;
    let (all, status, held) = passed(&rt, alloc, classify, sink)?;
    same(
        "classified",
        (status.number(), all.checked_sub(listed)),
        (5, Some(256)),
    )?;
    let header = b"heesch 2 square 8 turns 1 levels 1 domain 1 size 60000000\n";
    same("held", held.as_slice(), header.as_slice())
}
