//! Standard input and output. What they give and take is outside what any contract says.
ghost use Rattle.std.specs.Prelude.{◌≡◌, ◌<◌, ◌≤◌, ◌+◌, None, IfOk, IsErr, length};
ghost use Rattle.std.specs.Io.{ReadsAtMost};
ghost use Rattle.std.specs.Io.KnownBytes.{ReadConsumes, WriteAppends};
ghost use Rattle.heesch_io.specs.Causes.{HasCause, Rose};
ghost use Rattle.heesch_io.specs.Contents.{TakesSome};
ghost use Rattle.heesch_io.specs.Counts.{capped};

use crate::{Failed, NoMemory, Sink, Source};
use std::alloc::Global;
use std::io::{BufReader, BufWriter, Read, Stdin, Stdout, Write};

/// Standard input, and how often it failed. It tells nothing of what it will give.
#[derive(Drop)]
pub struct StdSource {
    reader: BufReader<Stdin>,
    faults: u64,
}

impl StdSource {
    pub fn new(input: Stdin, alloc: Global) -> Result<StdSource, NoMemory>
        ensures { IfOk result (λ source. ⟦<StdSource as Source>⟧.faults source ≡ 0) }
    {
        match BufReader::new(alloc, input) {
            Ok(reader) => Ok(StdSource { reader, faults: 0 }),
            Err(_) => Err(NoMemory),
        }
    }
}

impl Source for StdSource {
    ghost left = { λ _. None };

    ghost faults = { λ s. s.faults };

    fn read(&mut self, into: &mut [u8]) -> Result<usize, Failed>
        ensures bound { ReadsAtMost result into.new }
        ensures bytes { ReadConsumes None None result into.new }
        ensures cause { HasCause self.old.faults self.new.faults result }

        ensures same { IfOk result (λ _. self.new.faults ≡ self.old.faults) }
        ensures counted { IsErr result → self.new.faults ≡ capped (self.old.faults + 1) }
    {
        match self.reader.read(into) {
            Ok(count) => Ok(count),
            Err(_) => Err(count_fault(&mut self.faults)),
        }
    }
}

/// Standard output, and how often it failed. It tells nothing of what it took; it flushes before it
/// answers.
#[derive(Drop)]
pub struct StdSink {
    writer: BufWriter<Stdout>,
    faults: u64,
}

impl StdSink {
    pub fn new(output: Stdout, alloc: Global) -> Result<StdSink, NoMemory>
        ensures { IfOk result (λ sink. ⟦<StdSink as Sink>⟧.faults sink ≡ 0) }
    {
        match BufWriter::new(alloc, output) {
            Ok(writer) => Ok(StdSink { writer, faults: 0 }),
            Err(_) => Err(NoMemory),
        }
    }
}

impl Sink for StdSink {
    ghost held = { λ _. None };

    ghost faults = { λ s. s.faults };

    /// A write that takes nothing counts as a fault, and so does a flush that fails.
    fn write(&mut self, bytes: &[u8]) -> Result<usize, Failed>
        requires { 0 < length bytes.now }
        ensures count { TakesSome result bytes.now }
        ensures bytes { WriteAppends None None result bytes.now }
        ensures cause { HasCause self.old.faults self.new.faults result }

        ensures same { IfOk result (λ _. self.new.faults ≡ self.old.faults) }
        ensures counted { IsErr result → self.new.faults ≡ capped (self.old.faults + 1) }
    {
        match self.writer.write(bytes) {
            Ok(count) if count > 0 && self.writer.flush().is_ok() => Ok(count),
            _ => Err(count_fault(&mut self.faults)),
        }
    }
}

fn count_fault(faults: &mut u64) -> Failed
    ensures later { faults.old ≤ faults.new }
    ensures rose { Rose faults.old faults.new }
    ensures counted { faults.new ≡ capped (faults.old + 1) }
{
    *faults = faults.saturating_add(1);
    Failed
}
