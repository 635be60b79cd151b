//! Lines of cells with a plain tiling.
ghost use Rattle.std.specs.Prelude.{◌≡◌, ◌++◌, codes, length, take, OnOk, OnErr};
ghost use Rattle.std.specs.Fmt.{signed_decimal};
ghost use Rattle.heesch_app.specs.Plains.{plain_text, plain_line};

use heesch_grid::Cell;
use heesch_io::NoMemory;
use heesch_text::fields::{append_byte, append_bytes, append_cells, append_integer, append_triple};
use heesch_tiling::Plain;

/// Appends the cells, a space, the shape's plain tiling as `translation P Q S` or
/// `halfturn P Q S DA DB`, or `none`, and a newline.
///
/// Errors: at `NoMemory` the text is as it was before. Its cost is the length of the line.
pub fn write_plain(
    cells: &[Cell],
    tiling: &Option<Plain>,
    out: &mut Vec<u8>,
) -> Result<(), NoMemory>
    ensures ok { OnOk result (out.new.items ≡ out.old.items ++ plain_line cells.now tiling.now) }
    ensures err { OnErr result (out.new.items ≡ out.old.items) }
{
    let before = out.len();
    let written = append_line(cells, tiling, out);
    if written.is_err() {
        out.truncate(before);
    }
    written
}

fn append_line(cells: &[Cell], tiling: &Option<Plain>, out: &mut Vec<u8>) -> Result<(), NoMemory>
    ensures ok { OnOk result (out.new.items ≡ out.old.items ++ plain_line cells.now tiling.now) }
    ensures kept { take (length out.old.items) out.new.items ≡ out.old.items }
{
    append_cells(cells, out)?;
    append_byte(b' ', out)?;
    append_tiling(tiling, out)?;
    append_byte(b'\n', out)
}

fn append_tiling(tiling: &Option<Plain>, out: &mut Vec<u8>) -> Result<(), NoMemory>
    ensures ok { OnOk result (out.new.items ≡ out.old.items ++ plain_text tiling.now) }
    ensures kept { take (length out.old.items) out.new.items ≡ out.old.items }
{
    match tiling {
        Some(Plain::Translation { triple }) => {
            append_bytes(b"translation ", out)?;
            append_triple(triple, out)
        }
        Some(Plain::HalfTurn { triple, da, db }) => {
            append_bytes(b"halfturn ", out)?;
            append_triple(triple, out)?;
            append_pair(*da, *db, out)
        }
        None => append_bytes(b"none", out),
    }
}

/// Two integers, each behind a space.
fn append_pair(da: i32, db: i32, out: &mut Vec<u8>) -> Result<(), NoMemory>
    ensures ok { OnOk result (out.new.items
        ≡ out.old.items ++ codes " " ++ signed_decimal da ++ codes " " ++ signed_decimal db) }
    ensures kept { take (length out.old.items) out.new.items ≡ out.old.items }
{
    append_byte(b' ', out)?;
    append_integer(da, out)?;
    append_byte(b' ', out)?;
    append_integer(db, out)
}
