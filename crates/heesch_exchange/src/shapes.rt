//! The line of a shape, and the formula of its shape.
ghost use Rattle.std.specs.Prelude.{◌≡◌, ◌≤◌, ◌++◌, ℕ, List, IfOk, IfErr, true, false};
ghost use Rattle.heesch_line.specs.Scanning.{IsLineOf};
ghost use Rattle.heesch_given.specs.Given.{IsShapeLine};
ghost use Rattle.heesch_exchange.specs.Shapes.{HasFirstLine, IsEndless, IsInTime};
ghost use Rattle.heesch_exchange.specs.Shapes.{IsLineStop, IsCellsStop, IsShapeStop, EncodesLine};

use crate::asked::Asked;
use crate::lines::cut_line;
use heesch_cert::Cells;
use heesch_encode::{EncodeStop, FlatEncoded, encode_flat};
use heesch_given::canonical_of;
use heesch_grid::Grid;
use heesch_line::{LineFault, LineStop, ListLine};
use heesch_shape::Shape;
use std::alloc::Global;

/// The fault of a line that isn't cells.
const NOT_CELLS: u32 = 6;

/// The fault of a first line on which the input goes on beyond the most bytes that are read.
pub const TOO_LONG: u32 = 8;

/// The fault of a line whose shape's formula is too large.
const TOO_LARGE: u32 = 14;

/// Whether each input that begins with these bytes has fault 8, however it goes on: their first line doesn't end
/// within the first `MOST` of them, and there are more. It takes no memory; the cost is the line's length.
pub fn is_endless<const MOST: u64>(front: &[u8]) -> bool
    ensures endless { result ≡ true → (rest : List ℕ) → IsEndless MOST (front.now ++ rest) }
    ensures ends { result ≡ false → IsEndless MOST front.now → ⊥ }
{
    let (line, _) = first_line(front);
    is_late(MOST, front, line)
}

/// Whether the line doesn't end within the most bytes that are read, nor the input.
pub fn is_late(most: u64, input: &[u8], line: &[u8]) -> bool
    ensures late { result ≡ true → IsInTime most input.now line.now → ⊥ }
    ensures in_time { result ≡ false → IsInTime most input.now line.now }
{
    line.len() as u64 >= most && input.len() as u64 > most
}

/// The first line without its newline, and the bytes behind it.
pub fn first_line(input: &[u8]) -> (&[u8], &[u8])
    ensures { HasFirstLine input.now result.0.now result.1.now }
{
    match cut_line(input) {
        Some(parts) => parts,
        None => input.split_at(input.len()),
    }
}

/// The corona formula of the shape whose cells the first line is, or the fault of the line.
///
/// Condition: the level is 1 to 6, the size 1 to 60,000,000. 14 comes exactly where the formula has more than `size`
/// literals. The cost is that of `shape_of` and of `encode_flat`.
pub fn encode_line<G: Grid>(
    alloc: Global,
    line: &[u8],
    asked: Asked,
) -> Result<FlatEncoded<G>, LineStop<u32>>
    requires level { (1 ≤ asked.level) × (asked.level ≤ 6) }
    requires size { (1 ≤ asked.size) × (asked.size ≤ 60000000) }
    ensures ok { IfOk result (λ e. EncodesLine asked.version G.geometry asked.level asked.size line.now
        e.universe e.formula.vars e.formula.clauses) }
    ensures stop { IfErr result (IsShapeStop asked.version G.geometry asked.level asked.size line.now) }
{
    let shape = shape_of::<G>(alloc, line)?;
    match encode_flat(alloc, &shape, asked.level, asked.size, asked.version) {
        Ok(encoded) => Ok(encoded),
        Err(EncodeStop::TooLarge) => Err(LineStop::Fault {
            line: 1,
            fault: TOO_LARGE,
        }),
        Err(EncodeStop::NoMemory) => Err(LineStop::NoMemory),
    }
}

/// The canonical form of the shape whose cells the first line is, or the fault of the line.
///
/// The cost is linear in the line, of which at most 33 cells are kept.
fn shape_of<G: Grid>(alloc: Global, line: &[u8]) -> Result<Shape<G>, LineStop<u32>>
    ensures ok { IfOk result (IsShapeLine G.geometry line.now) }
    ensures stop { IfErr result (IsLineStop G.geometry line.now) }
{
    let cells = cells_of(alloc, line)?;
    match canonical_of(cells.as_slice()) {
        Ok(shape) => Ok(shape),
        Err(fault) => Err(LineStop::Fault {
            line: 1,
            fault: fault.number(),
        }),
    }
}

/// The first 33 cells of the line.
fn cells_of(alloc: Global, line: &[u8]) -> Result<Cells, LineStop<u32>>
    ensures ok { IfOk result (IsLineOf line.now) }
    ensures stop { IfErr result (IsCellsStop line.now) }
{
    let mut read = ListLine::new(alloc);
    for byte in line {
        read.take(*byte)?;
    }
    match read.finish() {
        Ok(cells) => Ok(cells),
        Err(LineFault::NotALine) => Err(LineStop::Fault {
            line: 1,
            fault: NOT_CELLS,
        }),
        Err(LineFault::NoMemory) => Err(LineStop::NoMemory),
    }
}
