//! The texts of a catalogue's parts.
ghost use Rattle.std.specs.Prelude.{◌≡◌, ◌++◌, length, take, OnOk, OnErr};
ghost use Rattle.std.specs.List.{AllByRecursion};
ghost use Rattle.heesch_text.specs.Lines.{text_of};
ghost use Rattle.heesch_text.specs.Naturals.{HasNaturals};
ghost use Rattle.heesch_text.specs.Catalogue.{brief_lines, entry_lines, header_text, entry_text, brief_text};
ghost use Rattle.heesch_text.specs.Catalogue.{coronas_text, end_text};

use crate::evidence::{append_coronas, append_evidence};
use crate::fields::undone_at_error;
use crate::lines::{append_end_line, append_header_line, append_shape_line, append_verdict_line};
use heesch_cert::{Entry, Header, Layers};
use heesch_io::NoMemory;

/// Appends the first line of a catalogue: `heesch V GRID SUBJECT turns T levels L domain D size Z`,
/// with `brief` for `heesch` where it is brief.
///
/// Errors: at `NoMemory` the text is as it was before. Its cost is the length of what it appends.
pub fn write_header(header: &Header, out: &mut Vec<u8>) -> Result<(), NoMemory>
    ensures ok { OnOk result (out.new.items ≡ out.old.items ++ header_text header.now) }
    ensures err { OnErr result (out.new.items ≡ out.old.items) }
{
    undone_at_error(out.len(), append_header_line(header, out), out)
}

/// Appends the lines of an entry: its shape, its verdict and its evidence. The natural numbers of each line that it
/// wrote fit 32 bits.
///
/// Errors: at `NoMemory` the text is as it was before. A count of layers or a level that doesn't fit 32 bits is want
/// of memory too. Its cost is the length of what it appends.
pub fn write_entry(entry: &Entry, out: &mut Vec<u8>) -> Result<(), NoMemory>
    ensures ok { OnOk result (out.new.items ≡ out.old.items ++ entry_text entry.now) }
    ensures err { OnErr result (out.new.items ≡ out.old.items) }
    ensures naturals { OnOk result (AllByRecursion HasNaturals (entry_lines entry.now)) }
{
    undone_at_error(out.len(), append_entry(entry, out), out)
}

/// Appends the first two lines of an entry: its shape and its verdict. The natural numbers of each line that it wrote
/// fit 32 bits.
///
/// Errors: at `NoMemory` the text is as it was before. Its cost is the length of what it appends.
pub fn write_brief(entry: &Entry, out: &mut Vec<u8>) -> Result<(), NoMemory>
    ensures ok { OnOk result (out.new.items ≡ out.old.items ++ brief_text entry.now) }
    ensures err { OnErr result (out.new.items ≡ out.old.items) }
    ensures naturals { OnOk result (AllByRecursion HasNaturals (brief_lines entry.now)) }
{
    undone_at_error(out.len(), append_brief(entry, out), out)
}

/// Appends coronas as they stand in an entry: the line `coronas COUNT` and a line for each layer.
///
/// Errors: at `NoMemory` the text is as it was before. A count of layers that doesn't fit 32 bits is want of memory
/// too. Its cost is the length of what it appends.
pub fn write_coronas(layers: &Layers, out: &mut Vec<u8>) -> Result<(), NoMemory>
    ensures ok { OnOk result (out.new.items ≡ out.old.items ++ coronas_text layers.now.layers) }
    ensures err { OnErr result (out.new.items ≡ out.old.items) }
{
    undone_at_error(out.len(), append_coronas(layers, out), out)
}

/// Appends the last line of a catalogue, `end COUNT`, with the number of its entries.
///
/// Errors: at `NoMemory` the text is as it was before. Its cost is the length of what it appends.
pub fn write_end(count: u32, out: &mut Vec<u8>) -> Result<(), NoMemory>
    ensures ok { OnOk result (out.new.items ≡ out.old.items ++ end_text count) }
    ensures err { OnErr result (out.new.items ≡ out.old.items) }
{
    undone_at_error(out.len(), append_end_line(count, out), out)
}

fn append_brief(entry: &Entry, out: &mut Vec<u8>) -> Result<(), NoMemory>
    ensures ok { OnOk result (out.new.items ≡ out.old.items ++ text_of (brief_lines entry.now)) }
    ensures kept { take (length out.old.items) out.new.items ≡ out.old.items }
    ensures naturals { OnOk result (AllByRecursion HasNaturals (brief_lines entry.now)) }
{
    append_shape_line(entry.cells.as_slice(), out)?;
    append_verdict_line(entry.verdict, out)
}

fn append_entry(entry: &Entry, out: &mut Vec<u8>) -> Result<(), NoMemory>
    ensures ok { OnOk result (out.new.items ≡ out.old.items ++ text_of (entry_lines entry.now)) }
    ensures kept { take (length out.old.items) out.new.items ≡ out.old.items }
    ensures naturals { OnOk result (AllByRecursion HasNaturals (entry_lines entry.now)) }
{
    append_brief(entry, out)?;
    append_evidence(entry.verdict, &entry.evidence, out)
}
