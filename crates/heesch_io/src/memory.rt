//! A source and a sink in memory, whose calls fail where a test wants it.
ghost use Rattle.std.specs.Prelude.{◌≡◌, ◌<◌, ◌≤◌, ◌+◌, ◌-◌, ◌^◌, ◌↔◌, ◌⊎◌, [], ◌++◌, drop, take, length, min, Some};
ghost use Rattle.std.specs.Prelude.{IsTrue, IsErr, IfOk, OnOk, OnErr, vec_len};
ghost use Rattle.std.specs.Vec.{vec_capacity};
ghost use Rattle.std.specs.Io.{ReadsAtMost};
ghost use Rattle.std.specs.Io.KnownBytes.{ReadConsumes, WriteAppends};
ghost use Rattle.heesch_io.specs.Causes.{HasCause};
ghost use Rattle.heesch_io.specs.Contents.{TakesSome};
ghost use Rattle.heesch_io.specs.Counts.{reached, capped, FailsNext, IsFull};

use crate::{Failed, NoMemory, Sink, Source};
use std::alloc::Global;

/// Gives bytes from memory, at most `most` a call. Calls are numbered from 1, and those whose numbers
/// stand in `fails` fail. `at` is the number of bytes given; `calls` stays at the greatest `u64`.
#[derive(Debug, Drop)]
pub struct MemorySource {
    pub bytes: Vec<u8>,
    pub at: usize,
    pub most: usize,
    pub fails: Vec<u64>,
    pub calls: u64,
    ghost within: { at ≤ vec_len bytes },
    ghost some: { 0 < most },
}

impl MemorySource {
    /// A source of which nothing was read. It takes no memory.
    pub fn new(bytes: Vec<u8>, most: usize, fails: Vec<u64>) -> MemorySource
        requires { 0 < most }
        ensures bytes { result.bytes ≡ bytes }
        ensures most { result.most ≡ most }
        ensures fails { result.fails ≡ fails }
        ensures start { (result.at ≡ 0) × (result.calls ≡ 0) }
    {
        MemorySource {
            bytes,
            at: 0,
            most,
            fails,
            calls: 0,
        }
    }
}

impl Source for MemorySource {
    ghost left = { λ s. Some (drop s.at s.bytes.items) };

    ghost faults = { λ s. capped (reached s.fails.items s.calls) };

    fn read(&mut self, into: &mut [u8]) -> Result<usize, Failed>
        ensures bound { ReadsAtMost result into.new }
        ensures bytes { ReadConsumes (Some (drop self.old.at self.old.bytes.items))
            (Some (drop self.new.at self.new.bytes.items)) result into.new }
        ensures cause { HasCause (capped (reached self.old.fails.items self.old.calls))
            (capped (reached self.new.fails.items self.new.calls)) result }

        ensures failing { IsErr result ↔ FailsNext self.old.fails.items self.old.calls }
        ensures count { IfOk result (λ count. count
            ≡ min (min (length into.old) self.old.most) (vec_len self.old.bytes - self.old.at)) }
        ensures calls { self.new.calls ≡ capped (self.old.calls + 1) }
        ensures same { (self.new.bytes ≡ self.old.bytes) × (self.new.most ≡ self.old.most)
            × (self.new.fails ≡ self.old.fails) }
        ensures untouched { IsErr result → into.new ≡ into.old }
        ensures behind { IfOk result (λ count. drop count into.new ≡ drop count into.old) }
    {
        if begins_failing(&mut self.calls, &self.fails) {
            return Err(Failed);
        }
        let rest = &self.bytes[self.at..];
        let count = into.len().min(self.most).min(rest.len());
        into[..count].copy_from_slice(&rest[..count]);
        self.at += count;
        Ok(count)
    }
}

/// Holds bytes in reserved room, at most `most` more a call. Calls are numbered from 1, and those whose
/// numbers stand in `fails` fail; `full` counts those that failed for want of room for a byte.
#[derive(Debug, Drop)]
pub struct MemorySink {
    pub held: Vec<u8>,
    pub most: usize,
    pub fails: Vec<u64>,
    pub calls: u64,
    pub full: u64,
    ghost some: { 0 < most },
}

impl MemorySink {
    /// A sink that holds nothing, with room for so many bytes. Its writes take no memory.
    pub fn new(
        alloc: Global,
        room: usize,
        most: usize,
        fails: Vec<u64>,
    ) -> Result<MemorySink, NoMemory>
        requires { 0 < most }
        ensures held { IfOk result (λ sink. sink.held.items ≡ []) }
        ensures room { IfOk result (λ sink. vec_capacity sink.held ≡ room) }
        ensures most { IfOk result (λ sink. sink.most ≡ most) }
        ensures fails { IfOk result (λ sink. sink.fails ≡ fails) }
        ensures start { IfOk result (λ sink. (sink.calls ≡ 0) × (sink.full ≡ 0)) }
    {
        let held = Vec::with_capacity(alloc, room)?;
        Ok(MemorySink {
            held,
            most,
            fails,
            calls: 0,
            full: 0,
        })
    }
}

impl Sink for MemorySink {
    ghost held = { λ s. Some s.held.items };

    ghost faults = { λ s. capped (reached s.fails.items s.calls + s.full) };

    fn write(&mut self, bytes: &[u8]) -> Result<usize, Failed>
        requires { 0 < length bytes.now }
        ensures count { TakesSome result bytes.now }
        ensures bytes { WriteAppends (Some self.old.held.items) (Some self.new.held.items) result bytes.now }
        ensures cause { HasCause (capped (reached self.old.fails.items self.old.calls + self.old.full))
            (capped (reached self.new.fails.items self.new.calls + self.new.full)) result }

        ensures failing { IsErr result ↔ FailsNext self.old.fails.items self.old.calls ⊎ IsFull self.old.held }
        ensures taken { IfOk result (λ count. count
            ≡ min (min (length bytes.now) self.old.most) (vec_capacity self.old.held - vec_len self.old.held)) }
        ensures calls { self.new.calls ≡ capped (self.old.calls + 1) }
        ensures full { IsFull self.old.held → ¬ FailsNext self.old.fails.items self.old.calls
            → self.new.full ≡ capped (self.old.full + 1) }
        ensures not_full { FailsNext self.old.fails.items self.old.calls
            ⊎ (vec_len self.old.held < vec_capacity self.old.held)
            → self.new.full ≡ self.old.full }
        ensures kept { IsErr result → self.new.held ≡ self.old.held }
        ensures room { vec_capacity self.old.held ≤ vec_capacity self.new.held }
        ensures same { (self.new.most ≡ self.old.most) × (self.new.fails ≡ self.old.fails) }
    {
        if begins_failing(&mut self.calls, &self.fails) {
            return Err(Failed);
        }
        let room = self.held.capacity().saturating_sub(self.held.len());
        if room == 0 {
            self.full = self.full.saturating_add(1);
            return Err(Failed);
        }
        let count = bytes.len().min(self.most).min(room);
        self.held.extend_from_slice(&bytes[..count]).unwrap();
        Ok(count)
    }
}

/// Counts a call, and says whether it is to fail.
fn begins_failing(calls: &mut u64, fails: &[u64]) -> bool
    ensures calls { calls.new ≡ capped (calls.old + 1) }
    ensures fails { IsTrue result ↔ FailsNext fails.now calls.old }
    ensures later { reached fails.now calls.old ≤ reached fails.now calls.new }
    ensures counted { IsTrue result → reached fails.now calls.old < reached fails.now calls.new }
{
    if *calls == u64::MAX {
        return false;
    }
    *calls += 1;
    fails.contains(calls)
}
