//! The bytes of a source, as many as are read.
ghost use Rattle.std.specs.Prelude.{◌≡◌, ◌≤◌, Err, IfOk, length};
ghost use Rattle.std.specs.Io.KnownBytes.{IsAtEnd};
ghost use Rattle.heesch_io.specs.Causes.{Rose};
ghost use Rattle.heesch_reader.specs.Taking.{input_max};
ghost use Rattle.heesch_app.specs.Inputs.{ConsumesSome, IsFrontOf};

use heesch_io::{IoStop, Source};
use heesch_reader::INPUT_MAX;
use std::alloc::Global;

/// The most bytes of a piece.
const PIECE_MAX: usize = 4096;

/// The bytes that the source has left: all of them, or where they are more than `INPUT_MAX`, the first `INPUT_MAX` and
/// one more, which shows that the input is longer. At an error some of them were read, from the first on. `NoMemory`
/// comes where memory was refused. The cost is linear in their number.
#[tactic(auto, using(crate::proofs::Consumed::kept_consumed, crate::proofs::Consumed::more_consumed))]
pub fn read_front<R: Source>(alloc: Global, source: &mut R) -> Result<Vec<u8>, IoStop>
    ensures ok { IfOk result (λ bytes. IsFrontOf (R.left source.old) bytes.items) }
    ensures ended { IfOk result (λ bytes. length bytes.items ≤ input_max → IsAtEnd (R.left source.new)) }
    ensures consumed { ConsumesSome (R.left source.old) (R.left source.new) }
    ensures failed { result ≡ Err IoStop.Failed → Rose (R.faults source.old) (R.faults source.new) }
    ensures later { R.faults source.old ≤ R.faults source.new }
{
    let mut bytes = Vec::new(alloc);
    let mut piece = [0; PIECE_MAX];
    while bytes.len() as u64 <= INPUT_MAX {
        let room = (INPUT_MAX + 1 - bytes.len() as u64).min(PIECE_MAX as u64) as usize;
        let Ok(count) = source.read(&mut piece[..room]) else {
            return Err(IoStop::Failed);
        };
        if count == 0 {
            return Ok(bytes);
        }
        if bytes.extend_from_slice(&piece[..count]).is_err() {
            return Err(IoStop::NoMemory);
        }
    }
    Ok(bytes)
}
