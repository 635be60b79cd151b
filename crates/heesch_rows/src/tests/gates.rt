//! `heesch check` and `check outer` use the workers and the gate that they are given.
use super::FIVE_TETROMINOES;
use super::running::{bytes_of, room, run_past, written_over};
use heesch_app::Status;
use heesch_io::MemorySource;
use heesch_made::same;
use heesch_pool::Gate;
use std::sync::atomic::{AtomicU64, Ordering};
use std::test::Fail;
use std::thread;

/// Holds ticket 0 until another has passed, for so many turns at most, and counts the others.
struct Hold {
    turns: u64,
    others: AtomicU64,
    expired: AtomicU64,
}

impl Hold {
    fn new(turns: u64) -> Hold {
        Hold {
            turns,
            others: AtomicU64::new(0),
            expired: AtomicU64::new(0),
        }
    }

    fn others(&self) -> u64 {
        self.others.load(Ordering::SeqCst)
    }

    fn has_expired(&self) -> bool {
        self.expired.load(Ordering::SeqCst) != 0
    }
}

impl Gate for Hold {
    fn pass(&self, _worker: u32, ticket: u32) {
        if ticket != 0 {
            self.others.fetch_add(1, Ordering::SeqCst);
            return;
        }
        for _ in 0..self.turns {
            if self.others() != 0 {
                return;
            }
            thread::yield_now();
        }
        self.expired.store(1, Ordering::SeqCst);
    }
}

impl Drop for Hold {
    fn drop(self) {
        let Self {
            turns: _,
            others: _,
            expired: _,
        } = self;
    }
}

/// Words that write a text of five entries, words that check it, how many turns the gate holds at most, and whether it
/// expires.
const ROWS: [(&str, &str, u64, bool); 4] = [
    (
        "classify square given",
        "check --workers 2",
        200_000_000,
        false,
    ),
    ("classify square given", "check", 1_000, true),
    (
        "outer square given",
        "check outer square given --workers 2",
        200_000_000,
        false,
    ),
    (
        "outer square given",
        "check outer square given",
        1_000,
        true,
    ),
];

/// Two workers audit five entries, each once: one of them comes to another entry while the gate holds the first. One
/// worker alone lets the gate expire.
#[test]
fn check_uses_its_workers_and_its_gate(rt: HostRuntime) -> Result<(), Fail> {
    let alloc = rt.alloc();
    for (made, line, turns, expires) in &ROWS {
        let text = written_over(&rt, alloc, made, bytes_of(alloc, FIVE_TETROMINOES)?)?;
        let source = MemorySource::new(text, 4096, Vec::new(alloc));
        let gate = Hold::new(*turns);
        let (status, sink) = run_past(&rt, alloc, line, source, room(alloc, 100)?, &gate)?;
        same(
            line,
            (status, gate.others(), gate.has_expired()),
            (Status::Done, 4, *expires),
        )?;
        same(line, sink.held.as_slice(), b"valid 5\n".as_slice())?;
    }
    Ok(())
}
