//! `heesch` reads before it writes, whatever it is asked.
use super::FIVE_TETROMINOES;
use super::running::{bytes_of, room, written};
use heesch_app::{Status, run};
use heesch_io::{Failed, MemorySink, MemorySource, NoMemory, Sink, Source};
use heesch_made::{TRIANGLE, same, words_of};
use heesch_pool::Open;
use std::alloc::Global;
use std::sync::atomic::{AtomicU64, Ordering};
use std::test::Fail;
use std::thread::Threads;

/// A source that notes the time of its last call, on a clock that it shares with a sink.
#[derive(Drop)]
struct TimedSource<'a> {
    source: MemorySource,
    clock: &'a AtomicU64,
    last: u64,
}

impl<'a> Source for TimedSource<'a> {
    ghost left = { λ s. ⟦<MemorySource as Source>⟧.left s.source };

    ghost faults = { λ s. ⟦<MemorySource as Source>⟧.faults s.source };

    fn read(&mut self, into: &mut [u8]) -> Result<usize, Failed> {
        self.last = self.clock.fetch_add(1, Ordering::SeqCst);
        self.source.read(into)
    }
}

/// A sink that notes the time of its first call; before it, the greatest.
#[derive(Drop)]
struct TimedSink<'a> {
    sink: MemorySink,
    clock: &'a AtomicU64,
    first: u64,
}

impl<'a> Sink for TimedSink<'a> {
    ghost held = { λ s. ⟦<MemorySink as Sink>⟧.held s.sink };

    ghost faults = { λ s. ⟦<MemorySink as Sink>⟧.faults s.sink };

    fn write(&mut self, bytes: &[u8]) -> Result<usize, Failed> {
        let now = self.clock.fetch_add(1, Ordering::SeqCst);
        self.first = self.first.min(now);
        self.sink.write(bytes)
    }
}

/// How the words over an input ended, and the times of the last read and of the first write.
fn timed<T: Threads + Sync>(
    rt: &T,
    alloc: Global,
    line: &str,
    input: &str,
) -> Result<(Status, u64, u64), NoMemory> {
    let clock = AtomicU64::new(0);
    let words = words_of(alloc, line)?;
    let mut source = TimedSource {
        source: bytes_of(alloc, input)?,
        clock: &clock,
        last: 0,
    };
    let mut sink = TimedSink {
        sink: room(alloc, 10_000)?,
        clock: &clock,
        first: u64::MAX,
    };
    let status = run(rt, alloc, &words, &mut source, &mut sink, &Open);
    Ok((status, source.last, sink.first))
}

/// The first write of the words comes behind their last read, and there are both.
fn reads_before_it_writes<T: Threads + Sync>(
    rt: &T,
    alloc: Global,
    line: &str,
    input: &str,
) -> Result<(), Fail> {
    let (status, last, first) = timed(rt, alloc, line, input)?;
    same(line, status, Status::Done)?;
    same(line, 0 < last && last < first && first < u64::MAX, true)
}

/// Each command that reads, but `join`, with an input.
const COMMANDS: [(&str, &str); 7] = [
    ("classify square given", FIVE_TETROMINOES),
    ("outer square given", FIVE_TETROMINOES),
    ("check", TRIANGLE),
    ("check outer square given", "end 0\n"),
    ("table", TRIANGLE),
    ("formula square 1", "0,0\n"),
    (
        "answer square 1",
        "0,0\ns SATISFIABLE\nv 1 2 3 4 5 6 7 8 0\n",
    ),
];

#[test]
fn every_command_reads_before_it_writes(rt: HostRuntime) -> Result<(), Fail> {
    for (line, input) in &COMMANDS {
        reads_before_it_writes(&rt, rt.alloc(), line, input)?;
    }
    let share = written(&rt, rt.alloc(), "share square 4 1 1")?;
    reads_before_it_writes(&rt, rt.alloc(), "join", str::from_utf8(&share)?)
}
