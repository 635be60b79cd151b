//! The model text behind the line of a shape.
ghost use Rattle.std.specs.Prelude.{◌≡◌, IfOk, IfErr};
ghost use Rattle.heesch_exchange.specs.Models.{IsModel};
ghost use Rattle.heesch_exchange.specs.Answers.{IsModelStop};

use crate::model_text::{ModelStop, read_model};
use heesch_io::Seq;
use heesch_line::LineStop;
use std::alloc::Global;

/// The fault of a line that no model text goes on with.
const NOT_TEXT: u32 = 6;

/// The fault of a line that names a variable that isn't the formula's or was named before.
const STRANGER: u32 = 15;

/// The values of the variables 1 to `vars` by a model text that begins with the second line of the input.
pub fn values_of(alloc: Global, text: &[u8], vars: u32) -> Result<Seq<bool>, LineStop<u32>>
    ensures ok { IfOk result (IsModel vars text.now) }
    ensures stop { IfErr result (IsModelStop vars text.now) }
{
    match read_model(alloc, text, vars) {
        Ok(values) => Ok(values),
        Err(ModelStop::NotText { line }) => Err(LineStop::Fault {
            line: line + 1,
            fault: NOT_TEXT,
        }),
        Err(ModelStop::Stranger { line }) => Err(LineStop::Fault {
            line: line + 1,
            fault: STRANGER,
        }),
        Err(ModelStop::NoMemory) => Err(LineStop::NoMemory),
    }
}
