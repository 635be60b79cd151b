//! The answer to `join`.
ghost use Rattle.std.specs.Prelude.{◌≡◌, Err, IfOk};
ghost use Rattle.std.specs.Io.KnownBytes.{IsAtEnd};
ghost use Rattle.heesch_io.specs.Causes.{Rose};
ghost use Rattle.heesch_app.specs.Inputs.{ConsumesSome};
ghost use Rattle.heesch_app.specs.Outputs.{OfInput, IsJoinAnswer};

use crate::Status;
use crate::bad_input::bad_input;
use crate::reply::Reply;
use heesch_io::{IoStop, Source};
use heesch_line::InputStop;
use heesch_parts::joined_text;
use heesch_reader::INPUT_MAX;
use std::alloc::Global;

/// The catalogue text that the share texts are joined to which the source has left, or their first fault.
#[tactic(auto, using(crate::proofs::Consumed::further_consumes))]
pub fn join_reply<R: Source>(alloc: Global, source: &mut R) -> Result<Reply, IoStop>
    ensures ok { IfOk result (λ r. OfInput (R.left source.old) (IsJoinAnswer r.status r.text.items)) }
    ensures ended { IfOk result (λ r. r.status ≡ Status.Done → IsAtEnd (R.left source.new)) }
    ensures consumed { ConsumesSome (R.left source.old) (R.left source.new) }
    ensures failed { result ≡ Err IoStop.Failed → Rose (R.faults source.old) (R.faults source.new) }
{
    match joined_text::<R, INPUT_MAX>(alloc, source) {
        Ok(text) => Ok(Reply {
            status: Status::Done,
            text,
        }),
        Err(InputStop::Fault { line, fault }) => bad_input(alloc, line, fault),
        Err(InputStop::Failed) => Err(IoStop::Failed),
        Err(InputStop::NoMemory) => Err(IoStop::NoMemory),
    }
}
