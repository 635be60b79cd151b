//! The answers to `check` and `check outer`.
ghost use Rattle.std.specs.Prelude.{◌≡◌, Err, IfErr, IfOk};
ghost use Rattle.std.specs.Io.KnownBytes.{IsAtEnd};
ghost use Rattle.heesch_cert.specs.Limits.{AreLimits};
ghost use Rattle.heesch_io.specs.Causes.{Rose};
ghost use Rattle.heesch_app.specs.Checks.{check_status, check_text};
ghost use Rattle.heesch_app.specs.Inputs.{ConsumesSome};
ghost use Rattle.heesch_app.specs.Outputs.{OfInput, IsCheckAnswer, IsOuterCheckAnswer};
ghost use Rattle.heesch_app.specs.Ranges.{IsSubjectInRange};

use crate::Status;
use crate::bad_input::bad_input;
use crate::reading::read_front;
use crate::reply::Reply;
use heesch_cert::Header;
use heesch_check::{Checked, check, write_checked};
use heesch_io::{IoStop, Source};
use heesch_outer_check::check_outers;
use heesch_pool::{Crew, Gate};
use std::alloc::Global;
use std::thread::Threads;

/// What is wrong with a source's bytes beyond the most that are read.
const TOO_LONG: u32 = 8;

/// Whether the source's bytes are a valid catalogue, else its first invalid part, or that they are too many.
#[tactic(auto, using(crate::proofs::Consumed::further_consumes))]
pub fn checked_reply<T: Threads + Sync, R: Source, H: Gate + Sync>(
    crew: &Crew<'_, T, H>,
    source: &mut R,
) -> Result<Reply, IoStop>
    ensures ok { IfOk result (λ r. OfInput (R.left source.old) (IsCheckAnswer r.status r.text.items)) }
    ensures consumed { ConsumesSome (R.left source.old) (R.left source.new) }
    ensures failed { result ≡ Err IoStop.Failed → Rose (R.faults source.old) (R.faults source.new) }
{
    let checked = check(crew, source)?;
    told(crew.alloc, checked)
}

/// Whether the source's bytes are a valid outer text of the header's subject under its limits, else its first invalid
/// part, or that they are too many. They are read before any is judged.
pub fn checked_outers_reply<T: Threads + Sync, R: Source, H: Gate + Sync>(
    crew: &Crew<'_, T, H>,
    header: &Header,
    source: &mut R,
) -> Result<Reply, IoStop>
    requires subject { IsSubjectInRange header.now.subject }
    requires limits { AreLimits header.now.limits }
    ensures ok { IfOk result
        (λ r. OfInput (R.left source.old) (IsOuterCheckAnswer header.now r.status r.text.items)) }
    ensures ended { IfOk result (λ r. r.status ≡ Status.Done → IsAtEnd (R.left source.new)) }
    ensures consumed { ConsumesSome (R.left source.old) (R.left source.new) }
    ensures failed { result ≡ Err IoStop.Failed → Rose (R.faults source.old) (R.faults source.new) }
{
    let input = read_front(crew.alloc, source)?;
    let checked = check_outers(crew, header, &input)?;
    told(crew.alloc, checked)
}

/// The line of an answer, and the status that comes with it.
fn told(alloc: Global, checked: Checked) -> Result<Reply, IoStop>
    ensures status { IfOk result (λ r. r.status ≡ check_status checked) }
    ensures text { IfOk result (λ r. r.text.items ≡ check_text checked) }
    ensures err { IfErr result (λ e. e ≡ IoStop.NoMemory) }
{
    let status = match checked {
        Checked::TooLong { line } => return bad_input(alloc, line, TOO_LONG),
        Checked::Valid { .. } => Status::Done,
        _ => Status::Invalid,
    };
    let mut text = Vec::new(alloc);
    write_checked(checked, &mut text)?;
    Ok(Reply { status, text })
}
