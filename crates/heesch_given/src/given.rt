//! The shapes of a list text that a source gives.
ghost use Rattle.std.specs.Prelude.{◌≡◌, ◌≤◌, Err, IfOk, IfErr, OnOk};
ghost use Rattle.std.specs.Io.KnownBytes.{IsAtEnd};
ghost use Rattle.heesch_io.specs.Causes.{Rose};
ghost use Rattle.heesch_io.specs.Input.{ReadsNoFurther};
ghost use Rattle.heesch_given.specs.Given.{GivesShapes, GivesFault, DecideNothing};

use crate::lines::GivenLines;
use heesch_grid::Grid;
use heesch_io::Source;
use heesch_line::InputStop;
use heesch_shape::Shape;
use std::alloc::Global;

/// The most bytes of a piece.
const PIECE_MAX: usize = 4096;

/// The canonical forms of the shapes of the list text that the source has left, in their order, or its first fault:
/// the line, from 1, and 1 to 5 where its cells are no shape, 6 where it is no line of a list, 7 where it is line
/// 10,001, 8 where the text goes on in it beyond the most bytes that are read.
///
/// At most `MOST` bytes are read, and one more that shows that the text is longer: then fault 8 comes where no line
/// that ends in these bytes is at fault, and line 10,001 doesn't begin. Reading stops with the piece that shows the
/// first fault, and shapes come at the end of the text alone. `Failed` comes only where the source's count of faults
/// rose, and `NoMemory` where memory was refused. The cost is linear in the text, and each shape is brought to its
/// canonical form once. It keeps the shapes, and at most 33 cells and one word of a line.
pub fn shapes_given<G: Grid, R: Source, const MOST: u64>(
    alloc: Global,
    source: &mut R,
) -> Result<Vec<Shape<G>>, InputStop<u32>>
    ensures ok { IfOk result (λ shapes. GivesShapes MOST G.geometry (R.left source.old) shapes.items) }
    ensures stop { IfErr result (GivesFault MOST G.geometry (R.left source.old)) }
    ensures ended { OnOk result (IsAtEnd (R.left source.new)) }
    ensures no_further { ReadsNoFurther (DecideNothing MOST G.geometry) (R.left source.old) (R.left source.new) }
    ensures failed { result ≡ Err InputStop.Failed → Rose (R.faults source.old) (R.faults source.new) }
    ensures later { R.faults source.old ≤ R.faults source.new }
{
    let mut lines = GivenLines::new(alloc);
    let mut count = 0;
    'pieces: while count < MOST {
        let mut piece = [0; PIECE_MAX];
        let room = (MOST - count).min(PIECE_MAX as u64) as usize;
        let read = source.read(&mut piece[..room])?;
        if read == 0 {
            return lines.finish();
        }
        lines.take(&piece[..read])?;
        count += read as u64;
    }
    let mut byte = [0; 1];
    if source.read(&mut byte)? == 0 {
        return lines.finish();
    }
    Err(lines.beyond())
}
