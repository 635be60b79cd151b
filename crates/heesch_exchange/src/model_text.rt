//! The model text of a solver, read line by line.
ghost use Rattle.std.specs.Prelude.{IfOk, IfErr};
ghost use Rattle.heesch_exchange.specs.Models.{IsModel};
ghost use Rattle.heesch_exchange.specs.Stops.{Stops};

use crate::lines::{LineFault, Place, cut_line, read_line};
use crate::named::{assignment, name_all, unset};
use heesch_io::{NoMemory, Seq};
use std::alloc::Global;
use thiserror::Error;

/// Why no model is read.
#[derive(Clone, Copy, Debug, PartialEq, Eq, Error)]
pub enum ModelStop {
    /// With this line, numbered from 1, the text stops to be a model text.
    #[error("line {line} is not one of a model")]
    NotText { line: u64 },
    /// This line is the first that names a variable that isn't one, or that was named before.
    #[error("line {line} names a variable that is too great or was named before")]
    Stranger { line: u64 },
    /// Memory was refused.
    #[error("out of memory")]
    NoMemory,
}

/// The values of the variables 1 to `vars`, in their order, by the model text of a solver.
///
/// Such a text is the line `s SATISFIABLE` and then one or more lines that begin with `v`, each followed by a space
/// and a word as often as it has words. The words of all these lines are literals, as numbers from 1 of their
/// variables with `-` before where they are negative, and at last one `0`, which ends the last of them. A line that is
/// `c` alone, or that begins with `c` and a space, is a comment, and may stand anywhere. Each line ends with a
/// newline. The variables of positive literals are true, all others false.
///
/// Errors: the first faulty line decides. `NotText` where no model text goes on with the line, and where the text ends
/// before the line does. `Stranger` where one does, but the line names a variable that is above `vars` or was named
/// before. `NoMemory` for want of memory. The cost is linear in the number of bytes and of variables.
pub fn read_model(alloc: Global, text: &[u8], vars: u32) -> Result<Seq<bool>, ModelStop>
    ensures ok { IfOk result (λ values. IsModel vars text.now values) }
    ensures stop { IfErr result (λ stop. Stops vars text.now stop) }
{
    let Ok(mut named) = unset(alloc, vars as usize) else {
        return Err(ModelStop::NoMemory);
    };
    let mut literals = Seq::new(alloc);
    let mut place = Place::Start;
    let mut rest = text;
    let mut line = 1u64;
    while let Some((first, after)) = cut_line(rest) {
        let before = literals.len();
        match read_line(place, first, &mut literals) {
            Ok(next) => place = next,
            Err(LineFault::NotText) => return Err(ModelStop::NotText { line }),
            Err(LineFault::NoMemory) => return Err(ModelStop::NoMemory),
        }
        if !name_all(&mut named, &literals.as_slice()[before..]) {
            return Err(ModelStop::Stranger { line });
        }
        rest = after;
        line += 1;
    }
    if !rest.is_empty() {
        return Err(ModelStop::NotText { line });
    }
    match place {
        Place::End => match assignment(alloc, vars, literals.as_slice()) {
            Ok(values) => Ok(values),
            Err(NoMemory) => Err(ModelStop::NoMemory),
        },
        Place::Start | Place::Values => Err(ModelStop::NotText { line }),
    }
}
