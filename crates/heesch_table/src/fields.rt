//! The parts of a line, added at the end of a text. Where memory runs out, the text keeps what it had.
ghost use Rattle.std.specs.Prelude.{◌≡◌, ◌++◌, length, take, OnOk};
ghost use Rattle.std.specs.List.{flat_map};
ghost use Rattle.heesch_table.specs.Texts.{count_line};

use heesch_io::NoMemory;
use heesch_text::fields::append_bytes;
use itoa::Buffer;

/// The label, the count in decimal digits, and a newline.
pub fn append_count(label: &[u8], count: u64, out: &mut Vec<u8>) -> Result<(), NoMemory>
    ensures ok { OnOk result (out.new.items ≡ out.old.items ++ count_line label.now count) }
    ensures kept { take (length out.old.items) out.new.items ≡ out.old.items }
{
    append_bytes(label, out)?;
    append_bytes(Buffer::new().format(count).as_bytes(), out)?;
    append_bytes(b"\n", out)
}

/// Such a line for each label and its count.
pub fn append_counts(counts: &[(&[u8], u64)], out: &mut Vec<u8>) -> Result<(), NoMemory>
    ensures ok { OnOk result
        (out.new.items ≡ out.old.items ++ flat_map (λ row. count_line row.0.now row.1) counts.now) }
    ensures kept { take (length out.old.items) out.new.items ≡ out.old.items }
{
    for (label, count) in counts {
        append_count(label, *count, out)?;
    }
    Ok(())
}
