//! The catalogue text that share texts are joined to.
ghost use Rattle.std.specs.Prelude.{◌≡◌, ◌≤◌, ◌++◌, All, Err, IfOk, IfErr, OnOk};
ghost use Rattle.std.specs.Io.KnownBytes.{IsAtEnd};
ghost use Rattle.heesch_io.specs.Causes.{Rose};
ghost use Rattle.heesch_io.specs.Input.{ReadsNoFurther};
ghost use Rattle.heesch_parts.specs.Inputs.{GivesFault, DecideNothing};
ghost use Rattle.heesch_reader.specs.Items.{item_lines, lines_of};
ghost use Rattle.heesch_text.specs.Lines.{text_of};
ghost use Rattle.heesch_parts.specs.Joined.{GivesText, IsFull};

use crate::joined;
use heesch_io::{NoMemory, Source};
use heesch_line::InputStop;
use heesch_reader::Item;
use heesch_text::{write_end, write_entry, write_header};
use std::alloc::Global;

/// The catalogue text of the header and of all entries of the share texts that the source has left; or the first fault
/// of those texts. They are read as `joined` reads them, at most `MOST` bytes.
///
/// Errors: those of `joined`. The cost is linear in the input. It keeps the items and the whole text, since a later
/// line may be at fault.
pub fn joined_text<R: Source, const MOST: u64>(
    alloc: Global,
    source: &mut R,
) -> Result<Vec<u8>, InputStop<u32>>
    ensures ok { IfOk result (λ text. GivesText MOST (R.left source.old) text.items) }
    ensures stop { IfErr result (GivesFault MOST (R.left source.old)) }
    ensures ended { OnOk result (IsAtEnd (R.left source.new)) }
    ensures no_further { ReadsNoFurther (DecideNothing MOST) (R.left source.old) (R.left source.new) }
    ensures failed { result ≡ Err InputStop.Failed → Rose (R.faults source.old) (R.faults source.new) }
    ensures later { R.faults source.old ≤ R.faults source.new }
{
    let items = joined::<R, MOST>(alloc, source)?;
    match written(alloc, items.as_slice()) {
        Ok(text) => Ok(text),
        Err(NoMemory) => Err(InputStop::NoMemory),
    }
}

/// The text of the items of a full catalogue.
fn written(alloc: Global, items: &[Item]) -> Result<Vec<u8>, NoMemory>
    requires { All IsFull items.now }
    ensures { IfOk result (λ text. text.items ≡ text_of (lines_of items.now)) }
{
    let mut text = Vec::new(alloc);
    for item in items {
        write_item(item, &mut text)?;
    }
    Ok(text)
}

/// The text of an item of a full catalogue stands last.
fn write_item(item: &Item, text: &mut Vec<u8>) -> Result<(), NoMemory>
    requires { IsFull item.now }
    ensures { OnOk result (text.new.items ≡ text.old.items ++ text_of (item_lines item.now)) }
{
    match item {
        Item::Header { header } => write_header(header, text),
        Item::Entry { line: _, entry } => write_entry(entry, text),
        Item::Brief { .. } => unreachable!(),
        Item::End { count } => write_end(*count, text),
    }
}
