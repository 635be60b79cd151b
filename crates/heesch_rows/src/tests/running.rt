//! Runs of the program over a source and a sink in memory.
use heesch_app::{Status, run};
use heesch_io::{MemorySink, MemorySource, NoMemory};
use heesch_made::{same, words_of};
use heesch_pool::{Gate, Open};
use std::alloc::Global;
use std::test::Fail;
use std::thread::Threads;

/// A run: its words, what the source gives, how it has to end, and what the sink has to hold then.
pub(crate) type Row<'a> = (&'a str, &'a str, Status, &'a str);

/// How a run of these words ended, and what the sink holds after it. The source is empty.
pub(crate) fn run_into<T: Threads + Sync>(
    rt: &T,
    alloc: Global,
    line: &str,
    sink: MemorySink,
) -> Result<(Status, MemorySink), NoMemory> {
    run_over(rt, alloc, line, bytes_of(alloc, "")?, sink)
}

/// How a run of these words over a source ended, and what the sink holds after it.
pub(crate) fn run_over<T: Threads + Sync>(
    rt: &T,
    alloc: Global,
    line: &str,
    source: MemorySource,
    sink: MemorySink,
) -> Result<(Status, MemorySink), NoMemory> {
    run_past(rt, alloc, line, source, sink, &Open)
}

/// The same of a run whose tickets pass a gate.
pub(crate) fn run_past<T: Threads + Sync, H: Gate + Sync>(
    rt: &T,
    alloc: Global,
    line: &str,
    mut source: MemorySource,
    mut sink: MemorySink,
    gate: &H,
) -> Result<(Status, MemorySink), NoMemory> {
    let words = words_of(alloc, line)?;
    let status = run(rt, alloc, &words, &mut source, &mut sink, gate);
    Ok((status, sink))
}

/// What the words write, or nothing where they don't end Done. The source is empty.
pub(crate) fn written<T: Threads + Sync>(
    rt: &T,
    alloc: Global,
    line: &str,
) -> Result<Vec<u8>, NoMemory> {
    written_over(rt, alloc, line, bytes_of(alloc, "")?)
}

/// What the words write over a source, or nothing where they don't end Done.
pub(crate) fn written_over<T: Threads + Sync>(
    rt: &T,
    alloc: Global,
    line: &str,
    source: MemorySource,
) -> Result<Vec<u8>, NoMemory> {
    let (status, sink) = run_over(rt, alloc, line, source, room(alloc, 1_000_000)?)?;
    if status == Status::Done {
        Ok(sink.held)
    } else {
        Ok(Vec::new(alloc))
    }
}

/// The first row that doesn't run so, with what happened; None where all do. What writes nothing has to make no call.
pub(crate) fn first_other<T: Threads + Sync>(
    rt: &T,
    alloc: Global,
    rows: &[Row],
) -> Result<Option<String>, NoMemory> {
    for (line, input, status, text) in rows {
        let source = bytes_of(alloc, input)?;
        let (ended, sink) = run_over(rt, alloc, line, source, room(alloc, 10_000)?)?;
        let held = sink.held.as_slice();
        let is_so = ended == *status && held == text.as_bytes();
        if !is_so || text.is_empty() && sink.calls != 0 {
            let held = str::from_utf8(held).unwrap_or("no text");
            let told = format!(in alloc; "{line} over {input} ended {ended:?} with {held}")?;
            return Ok(Some(told));
        }
    }
    Ok(None)
}

/// All of these rows run so; a test fails where one doesn't, and tells what happened.
pub(crate) fn all_run<T: Threads + Sync>(rt: &T, alloc: Global, rows: &[Row]) -> Result<(), Fail> {
    same("run", first_other(rt, alloc, rows)?, None)
}

/// The words over a source and a sink end so, and the sink holds the text then, if they write any.
pub(crate) fn ends_with<T: Threads + Sync>(
    rt: &T,
    alloc: Global,
    line: &str,
    source: MemorySource,
    sink: MemorySink,
    wanted: (Status, &str),
) -> Result<(), Fail> {
    let (ended, sink) = run_over(rt, alloc, line, source, sink)?;
    same(
        line,
        (ended, sink.calls == 0),
        (wanted.0, wanted.1.is_empty()),
    )?;
    same(line, sink.held.as_slice(), wanted.1.as_bytes())
}

/// A source of these bytes, which gives at most 5 a call.
pub(crate) fn bytes_of(alloc: Global, text: &str) -> Result<MemorySource, NoMemory> {
    let bytes = text.as_bytes().to_vec(alloc)?;
    Ok(MemorySource::new(bytes, 5, Vec::new(alloc)))
}

/// A sink with so much room.
pub(crate) fn room(alloc: Global, bytes: usize) -> Result<MemorySink, NoMemory> {
    MemorySink::new(alloc, bytes, bytes.max(1), Vec::new(alloc))
}
