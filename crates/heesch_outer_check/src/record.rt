//! The outer record that bytes are.
ghost use Rattle.std.specs.Prelude.{◌≡◌, IfOk, IfSome, None};
ghost use Rattle.heesch_outer.specs.Outers.{record_text};
ghost use Rattle.heesch_outer.specs.declared.answers.OuterEntry.{OuterEntry as EntryOf};
ghost use Rattle.heesch_outer_check.specs.ReadableRecords.{IsReadableRecord};

use crate::answer::read_answer;
use crate::entry::read_entry;
use crate::lines::front_lines;
use heesch_io::NoMemory;
use heesch_outer::OuterEntry;
use std::alloc::Global;

/// The outer record whose text all of the bytes are.
///
/// None comes exactly where they are no text of a record whose entry's lines may stand in a full catalogue, which
/// holds nothing beyond them, and whose lines have the forms of a catalogue's. Whether the entry is true, and its
/// answer allowed, isn't asked. The only error is want of memory. The cost is linear in the number of bytes.
pub fn read_record(alloc: Global, bytes: &[u8]) -> Result<Option<OuterEntry>, NoMemory>
    ensures some { IfOk result (λ r. IfSome r (λ e. (bytes.now ≡ record_text e) × IsReadableRecord e)) }
    ensures none { IfOk result
        (λ r. r ≡ None → (e : EntryOf) → IsReadableRecord e → bytes.now ≡ record_text e → ⊥) }
{
    let (lines, rest) = front_lines(alloc, bytes)?;
    let Some(entry) = read_entry(alloc, lines)? else {
        return Ok(None);
    };
    let Some(answer) = read_answer(alloc, entry.verdict.first_number(), rest)? else {
        return Ok(None);
    };
    Ok(Some(OuterEntry { entry, answer }))
}
