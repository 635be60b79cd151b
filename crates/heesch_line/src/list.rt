//! The text of a list of shapes, read line by line.
ghost use Rattle.std.specs.Prelude.{ℕ, List, IfOk, IfErr};
ghost use Rattle.heesch_line.specs.Lists.{IsListText, AreRead, Stops};
ghost use Rattle.heesch_line.specs.Reading.{Gives, list_line_at};

use crate::LineFault;
use crate::fields::{after, literal};
use crate::words::cells;
use heesch_cert::Cells;
use heesch_io::{NoMemory, Seq};
use std::alloc::Global;
use thiserror::Error;

/// The most lines of a list.
const MOST_SHAPES: u64 = 10_000;

/// Why no list is read.
#[derive(Clone, Copy, Debug, PartialEq, Eq, Error)]
pub enum ListStop {
    /// This line, numbered from 1, is the first that isn't empty and isn't cells with single spaces between them.
    #[error("line {line} is not cells")]
    NotText { line: u64 },
    /// This line, 10,001, begins.
    #[error("line {line} begins")]
    TooManyShapes { line: u64 },
    /// Memory was refused.
    #[error("out of memory")]
    NoMemory,
}

/// The cells of the first line, and the bytes behind it.
#[tactic(auto, unfolding(crate::specs::Reading::list_line_at))]
fn list_line(alloc: Global, bytes: &[u8]) -> Result<(Cells, &[u8]), LineFault>
    ensures { Gives (λ x. (x.0, x.1.now)) result (list_line_at bytes.now) }
{
    if let Some(rest) = after(b"\n", bytes) {
        return Ok((Seq::new(alloc), rest));
    }
    let (cells, rest) = cells(alloc, bytes)?;
    if rest.is_empty() {
        return Ok((cells, rest));
    }
    let rest = literal(b"\n", rest)?;
    Ok((cells, rest))
}

/// What the lines of a text give.
#[derive(Drop)]
pub struct ListLines {
    /// The cells of each line before the first one at fault, or of all lines.
    pub shapes: Seq<Cells>,
    /// The fault of the line after them, where there is one.
    pub stop: Option<ListStop>,
}

/// The cells of each line of a text, as they stand there, up to the first line that is at fault, and its fault.
///
/// A list has one line for each shape, with `A,B` for each cell, in any order. An empty line gives no cells. The
/// newline of the last line may be missing; an empty text has no line. A fault is `NotText` where one of the first
/// 10,000 lines is neither empty nor cells with single spaces between them, with integers within 100,000 of 0, and
/// `TooManyShapes` where these lines aren't at fault and another line begins. The only error is want of memory. The
/// cost is linear in the number of bytes.
pub fn read_lines(alloc: Global, text: &[u8]) -> Result<ListLines, NoMemory>
    ensures { IfOk result (λ lines. AreRead text.now lines.shapes lines.stop) }
{
    let mut shapes = Seq::new(alloc);
    let mut rest = text;
    for before in 0..MOST_SHAPES {
        if rest.is_empty() {
            return Ok(ListLines { shapes, stop: None });
        }
        match list_line(alloc, rest) {
            Ok((cells, after)) => {
                shapes.push(cells)?;
                rest = after;
            }
            Err(LineFault::NotALine) => {
                let stop = Some(ListStop::NotText { line: before + 1 });
                return Ok(ListLines { shapes, stop });
            }
            Err(LineFault::NoMemory) => return Err(NoMemory),
        }
    }
    if rest.is_empty() {
        return Ok(ListLines { shapes, stop: None });
    }
    let line = MOST_SHAPES + 1;
    let stop = Some(ListStop::TooManyShapes { line });
    Ok(ListLines { shapes, stop })
}

/// The cells of each line of a list text, as `read_lines` gives them.
///
/// `NotText` and `TooManyShapes` come exactly where `read_lines` gives this fault, and `NoMemory` for want of memory.
/// The cost is that of `read_lines`.
pub fn read_list(alloc: Global, text: &[u8]) -> Result<Seq<Cells>, ListStop>
    ensures ok { IfOk result (λ shapes. IsListText text.now shapes) }
    ensures stop { IfErr result (λ stop. Stops text.now stop) }
{
    let Ok(ListLines { shapes, stop }) = read_lines(alloc, text) else {
        return Err(ListStop::NoMemory);
    };
    match stop {
        None => Ok(shapes),
        Some(stop) => Err(stop),
    }
}
