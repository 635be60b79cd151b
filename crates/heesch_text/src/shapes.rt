//! Lines of cells.
ghost use Rattle.std.specs.Prelude.{◌≡◌, ◌++◌, length, take, OnOk, OnErr};
ghost use Rattle.heesch_text.specs.Shapes.{shape_text};

use crate::fields::{append_byte, append_cells, undone_at_error};
use heesch_grid::Cell;
use heesch_io::NoMemory;

/// Appends the cells as `A,B A,B` and so on, and a newline.
///
/// Errors: at `NoMemory` the text is as it was before. Its cost is the length of the line.
pub fn write_shape(cells: &[Cell], out: &mut Vec<u8>) -> Result<(), NoMemory>
    ensures ok { OnOk result (out.new.items ≡ out.old.items ++ shape_text cells.now) }
    ensures err { OnErr result (out.new.items ≡ out.old.items) }
{
    undone_at_error(out.len(), append_line(cells, out), out)
}

fn append_line(cells: &[Cell], out: &mut Vec<u8>) -> Result<(), NoMemory>
    ensures ok { OnOk result (out.new.items ≡ out.old.items ++ shape_text cells.now) }
    ensures kept { take (length out.old.items) out.new.items ≡ out.old.items }
{
    append_cells(cells, out)?;
    append_byte(b'\n', out)
}
