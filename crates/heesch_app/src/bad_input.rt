//! The line that tells a fault of the input.
ghost use Rattle.std.specs.Prelude.{◌≡◌, IfErr, IfOk};
ghost use Rattle.heesch_app.specs.Inputs.{bad_input_text};

use crate::Status;
use crate::reply::Reply;
use heesch_io::{IoStop, NoMemory};
use itoa::Buffer;
use std::alloc::Global;

/// `bad input LINE FAULT`, with the line from 1 and the number of its fault.
pub fn bad_input(alloc: Global, line: u64, number: u32) -> Result<Reply, IoStop>
    ensures status { IfOk result (λ r. r.status ≡ Status.BadInput) }
    ensures text { IfOk result (λ r. r.text.items ≡ bad_input_text line number) }
    ensures err { IfErr result (λ e. e ≡ IoStop.NoMemory) }
{
    Ok(Reply {
        status: Status::BadInput,
        text: line_of(alloc, line, number)?,
    })
}

fn line_of(alloc: Global, line: u64, number: u32) -> Result<Vec<u8>, NoMemory>
    ensures { IfOk result (λ text. text.items ≡ bad_input_text line number) }
{
    let mut text = Vec::new(alloc);
    text.extend_from_slice(b"bad input ")?;
    text.extend_from_slice(Buffer::new().format(line).as_bytes())?;
    text.push(b' ')?;
    text.extend_from_slice(Buffer::new().format(number).as_bytes())?;
    text.push(b'\n')?;
    Ok(text)
}
