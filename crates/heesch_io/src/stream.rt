//! Where bytes come from and where they go.
ghost use Rattle.std.specs.Prelude.{◌≡◌, ◌<◌, ◌≤◌, ℕ, List, length, IfOk, OnOk, OnErr};
ghost use Rattle.std.specs.declared.option.Option.{Option};
ghost use Rattle.std.specs.Io.{ReadsAtMost};
ghost use Rattle.std.specs.Io.KnownBytes.{Appends, ReadConsumes, WriteAppends};
ghost use Rattle.heesch_io.specs.Causes.{HasCause};
ghost use Rattle.heesch_io.specs.Contents.{AppendsPrefix, TakesSome};

use crate::Failed;

/// Where bytes come from.
///
/// Its meanings are the bytes that are left, where it tells them, and a count of faults that never
/// falls and stands still at the greatest `u64`.
pub trait Source {
    /// The bytes that reads will still give, where it tells them.
    ghost left: { Self → Option (List ℕ) };

    /// How often it failed, as far as a `u64` counts.
    ghost faults: { Self → ℕ };

    /// `Ok(k)`: the next k bytes stand first in `into`. `Ok(0)` into room is the end of input.
    fn read(&mut self, into: &mut [u8]) -> Result<usize, Failed>
        ensures bound { ReadsAtMost result into.new }
        ensures bytes { ReadConsumes (left self.old) (left self.new) result into.new }
        ensures cause { HasCause (faults self.old) (faults self.new) result };
}

/// Where bytes go.
///
/// Its meanings are the bytes that it holds, where it tells them, and a count of faults that never
/// falls and stands still at the greatest `u64`.
pub trait Sink {
    /// The bytes that it took so far, where it tells them.
    ghost held: { Self → Option (List ℕ) };

    /// How often it failed, as far as a `u64` counts.
    ghost faults: { Self → ℕ };

    /// `Ok(k)`: the first k bytes were appended, at least one. At an error, what it held is kept.
    fn write(&mut self, bytes: &[u8]) -> Result<usize, Failed>
        requires { 0 < length bytes.now }
        ensures count { TakesSome result bytes.now }
        ensures bytes { WriteAppends (held self.old) (held self.new) result bytes.now }
        ensures cause { HasCause (faults self.old) (faults self.new) result };
}

/// Writes all the bytes, in as many calls as the sink wants. It takes no memory.
///
/// Errors: `Failed` only where the sink's count of faults rose; a prefix of the bytes was appended.
#[tactic(auto, using(crate::proofs::Appending::appends_more))]
pub fn put<W: Sink>(sink: &mut W, bytes: &[u8]) -> Result<(), Failed>
    ensures ok { OnOk result (Appends (W.held sink.old) (W.held sink.new) bytes.now) }
    ensures err { OnErr result (AppendsPrefix (W.held sink.old) (W.held sink.new) bytes.now) }
    ensures cause { HasCause (W.faults sink.old) (W.faults sink.new) result }
{
    let mut at = 0;
    while at < bytes.len() {
        at += sink.write(&bytes[at..])?;
    }
    Ok(())
}
