//! The answers to `formula` and `answer`.
ghost use Rattle.std.specs.Prelude.{◌≡◌, ◌≢◌, ◌≤◌, Err, IfOk, IsOk, MatchResult};
ghost use Rattle.std.specs.Io.KnownBytes.{IsAtEnd};
ghost use Rattle.heesch_grid.specs.Names.{geometry_of};
ghost use Rattle.heesch_io.specs.Causes.{Rose};
ghost use Rattle.heesch_app.specs.Inputs.{ConsumesSome};
ghost use Rattle.heesch_app.specs.Outputs.{OfInput};
ghost use Rattle.heesch_app.specs.Exchanges.{IsExchangeAnswer, IsFaultTold};

use crate::Status;
use crate::bad_input::bad_input;
use crate::reading::read_front;
use crate::reply::Reply;
use heesch_cnf::Version;
use heesch_exchange::{answer, formula, is_endless};
use heesch_grid::GridName;
use heesch_io::{IoStop, Source};
use heesch_line::LineStop;
use heesch_reader::INPUT_MAX;
use std::alloc::Global;

/// The fault of a first line on which the input goes on beyond the most bytes that are read.
const TOO_LONG: u32 = 8;

/// What is asked of a source's bytes, which begin with the line of a shape.
#[derive(Clone, Copy)]
pub enum Exchange {
    /// The clause text of a corona formula of the shape.
    Formula,
    /// What the model text behind the line says of that formula: coronas, or a clause that is false.
    Answer,
}

/// What is asked of the source's bytes, or their first fault. Of a longer input than is read only fault 8 is told;
/// else memory for it is wanting.
pub fn exchange_reply<R: Source>(
    alloc: Global,
    asked: Exchange,
    grid: GridName,
    level: u32,
    size: u32,
    version: Version,
    source: &mut R,
) -> Result<Reply, IoStop>
    requires level { (1 ≤ level) × (level ≤ 6) }
    requires size { (1 ≤ size) × (size ≤ 60000000) }
    ensures ok { IfOk result
        (λ r. OfInput (R.left source.old)
        (IsExchangeAnswer asked version (geometry_of grid) level size r.status r.text.items)) }
    ensures ended { IfOk result (λ r. r.status ≡ Status.Done → IsAtEnd (R.left source.new)) }
    ensures consumed { ConsumesSome (R.left source.old) (R.left source.new) }
    ensures failed { result ≡ Err IoStop.Failed → Rose (R.faults source.old) (R.faults source.new) }
{
    let input = read_front(alloc, source)?;
    if input.len() as u64 > INPUT_MAX {
        if !is_endless::<INPUT_MAX>(&input) {
            return Err(IoStop::NoMemory);
        }
        return bad_input(alloc, 1, TOO_LONG);
    }
    match asked {
        Exchange::Formula => {
            let text = formula::<INPUT_MAX>(alloc, grid, level, size, version, &input);
            told(alloc, text)
        }
        Exchange::Answer => {
            let text = answer::<INPUT_MAX>(alloc, grid, level, size, version, &input);
            told(alloc, text)
        }
    }
}

/// The text with the status Done, or the line of the fault.
fn told(alloc: Global, text: Result<Vec<u8>, LineStop<u32>>) -> Result<Reply, IoStop>
    ensures ok { IfOk result (λ r. MatchResult text
        (λ written. (r.status ≡ Status.Done) × (r.text ≡ written))
        (λ stop. IsFaultTold stop r.status r.text.items)) }
    ensures given { IfOk text (λ written. IsOk result) }
    ensures read { result ≢ Err IoStop.Failed }
{
    match text {
        Ok(text) => Ok(Reply {
            status: Status::Done,
            text,
        }),
        Err(LineStop::Fault { line, fault }) => bad_input(alloc, line, fault),
        Err(LineStop::NoMemory) => Err(IoStop::NoMemory),
    }
}
