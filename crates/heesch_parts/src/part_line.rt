//! The lines of a share text.
ghost use Rattle.std.specs.Prelude.{◌≡◌, ◌≢◌, ◌++◌, IfOk, Err};
ghost use Rattle.heesch_line.specs.declared.fault.LineFault.TheVariants as faults;
ghost use Rattle.heesch_parts.specs.declared.part_line.PartLine.{PartLine};
ghost use Rattle.heesch_parts.specs.PartLines.{IsPartLine, part_words, ReadsShare, MakesShare};
ghost use Rattle.heesch_parts.specs.Joining.{ends_entry};

use crate::shares::SHARES_MAX;
use heesch_io::NoMemory;
use heesch_line::{LineFault, read_line};
use heesch_text::Line;
use std::alloc::Global;

/// One line of a share text.
#[derive(Drop)]
pub enum PartLine {
    /// The first one: share `i` of `k`.
    Share { i: u32, k: u32 },
    /// A line of the catalogue text behind it.
    Catalogue { line: Line },
}

impl PartLine {
    /// Whether no entry goes on behind the line: it begins another one, or is the last line of a catalogue.
    pub fn ends_entry(&self) -> bool
        ensures { result ≡ ends_entry self.now }
    {
        match self {
            PartLine::Share { i: _, k: _ } => false,
            PartLine::Catalogue { line } => {
                matches!(line, Line::Shape { .. } | Line::End { .. })
            }
        }
    }
}

/// The line that has these bytes, which are without its newline. `NotALine` comes exactly where no line of a share
/// text has them, and `NoMemory` where memory was refused. The cost is linear in the bytes.
pub fn read_part_line(alloc: Global, bytes: &[u8]) -> Result<PartLine, LineFault>
    ensures ok { IfOk result (λ line. IsPartLine line × (part_words line ≡ bytes.now)) }
    ensures not_a_line { result ≡ Err faults.NotALine → (line : PartLine) → IsPartLine line
        → part_words line ≢ bytes.now }
{
    match bytes.strip_prefix(b"share") {
        Some(numbers) => read_share(alloc, numbers),
        None => {
            let line = read_line(alloc, bytes)?;
            Ok(PartLine::Catalogue { line })
        }
    }
}

/// The share that these numbers name. They are read as numbers of an `empty` line, which stand as they do here.
fn read_share(alloc: Global, numbers: &[u8]) -> Result<PartLine, LineFault>
    ensures { ReadsShare numbers.now result }
{
    let mut bytes = Vec::new(alloc);
    append(b"empty", &mut bytes)?;
    append(numbers, &mut bytes)?;
    match read_line(alloc, bytes.as_slice()) {
        Ok(Line::Empty { hints }) => share_of(hints.as_slice()),
        Ok(_) => Err(LineFault::NotALine),
        Err(fault) => Err(fault),
    }
}

/// The share of these two numbers, the number of the share and how many there are.
fn share_of(numbers: &[u32]) -> Result<PartLine, LineFault>
    ensures { MakesShare numbers.now result }
{
    match numbers {
        &[i, k] if 1 <= i && i <= k && k <= SHARES_MAX => Ok(PartLine::Share { i, k }),
        _ => Err(LineFault::NotALine),
    }
}

/// Appends bytes.
fn append(bytes: &[u8], out: &mut Vec<u8>) -> Result<(), NoMemory>
    ensures { IfOk result (λ _. out.new.items ≡ out.old.items ++ bytes.now) }
{
    out.extend_from_slice(bytes)?;
    Ok(())
}
