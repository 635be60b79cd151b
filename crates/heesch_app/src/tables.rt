//! The answer to `table`.
ghost use Rattle.std.specs.Prelude.{◌≡◌, Err, IfOk};
ghost use Rattle.std.specs.Io.KnownBytes.{IsAtEnd};
ghost use Rattle.heesch_io.specs.Causes.{Rose};
ghost use Rattle.heesch_app.specs.Inputs.{ConsumesSome};
ghost use Rattle.heesch_app.specs.Outputs.{IsTableAnswer};

use crate::Status;
use crate::bad_input::bad_input;
use crate::reply::Reply;
use heesch_io::{IoStop, Source};
use heesch_table::{Tabulated, tabulate};
use std::alloc::Global;

/// The tally of the catalogue that the source's bytes are, or their first fault.
#[tactic(auto, using(crate::proofs::Consumed::further_consumes))]
pub fn table_reply<R: Source>(alloc: Global, source: &mut R) -> Result<Reply, IoStop>
    ensures ok { IfOk result (λ r. IsTableAnswer (R.left source.old) r.status r.text.items) }
    ensures ended { IfOk result (λ r. r.status ≡ Status.Done → IsAtEnd (R.left source.new)) }
    ensures consumed { ConsumesSome (R.left source.old) (R.left source.new) }
    ensures failed { result ≡ Err IoStop.Failed → Rose (R.faults source.old) (R.faults source.new) }
{
    match tabulate(alloc, source)? {
        Tabulated::Tally { text } => Ok(Reply {
            status: Status::Done,
            text,
        }),
        Tabulated::Fault { line, number } => bad_input(alloc, line, number),
    }
}
