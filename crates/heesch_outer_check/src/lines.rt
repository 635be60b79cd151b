//! The lines of a catalogue that bytes are, or that stand at their front.
ghost use Rattle.std.specs.Prelude.{◌≡◌, ◌≢◌, ◌∷◌, ◌++◌, List, [], IfOk, MatchOption};
ghost use Rattle.heesch_text.specs.declared.line.Line.{Line};
ghost use Rattle.heesch_line.specs.Forms.{HasNoNewline};
ghost use Rattle.heesch_outer_check.specs.Lines.{AreFrontLines, AreLinesOf};

use heesch_io::NoMemory;
use heesch_line::{LineFault, read_line};
use heesch_text::Line;
use memchr::memchr;
use std::alloc::Global;

/// The first line without its newline, and the bytes behind it. None where there is no newline.
fn cut_line(bytes: &[u8]) -> Option<(&[u8], &[u8])>
    ensures { MatchOption result (HasNoNewline bytes.now)
        (λ x. (bytes.now ≡ x.0.now ++ 10 ∷ x.1.now) × HasNoNewline x.0.now) }
{
    let end = memchr(b'\n', bytes)?;
    Some((&bytes[..end], &bytes[end + 1..]))
}

/// The lines of a catalogue at the front of the bytes, as many as stand there, and the bytes behind them. Its cost is
/// linear in their bytes.
pub fn front_lines(alloc: Global, bytes: &[u8]) -> Result<(Vec<Line>, &[u8]), NoMemory>
    ensures { IfOk result (λ x. AreFrontLines bytes.now x.0.items x.1.now) }
{
    let mut lines = Vec::new(alloc);
    let mut rest = bytes;
    while let Some((words, behind)) = cut_line(rest) {
        match read_line(alloc, words) {
            Ok(line) => lines.push(line)?,
            Err(LineFault::NotALine) => return Ok((lines, rest)),
            Err(LineFault::NoMemory) => return Err(NoMemory),
        }
        rest = behind;
    }
    Ok((lines, rest))
}

/// The lines, if no byte is left behind them.
fn with_none_left(lines: Vec<Line>, left: &[u8]) -> Option<Vec<Line>>
    ensures { MatchOption result (left.now ≢ []) (λ ls. (left.now ≡ []) × (ls.items ≡ lines.items)) }
{
    if !left.is_empty() {
        return None;
    }
    Some(lines)
}

/// The lines of a catalogue that the bytes are, if they are.
pub fn all_lines(alloc: Global, bytes: &[u8]) -> Result<Option<Vec<Line>>, NoMemory>
    ensures { IfOk result
        (λ r. MatchOption r ((ls : List Line) → AreLinesOf bytes.now ls → ⊥) (λ ls. AreLinesOf bytes.now ls.items)) }
{
    let (lines, rest) = front_lines(alloc, bytes)?;
    Ok(with_none_left(lines, rest))
}
