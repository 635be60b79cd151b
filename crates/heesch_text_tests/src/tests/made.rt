//! Sources and texts of which the tests are made.
use heesch_io::{MemorySource, NoMemory};
use heesch_reader::Item;
use heesch_text::{write_end, write_entry, write_header};
use std::alloc::Global;

/// A source of two texts, one behind the other, which gives at most so many bytes a call.
pub(crate) fn source_of(
    alloc: Global,
    front: &str,
    back: &str,
    most: usize,
) -> Result<MemorySource, NoMemory> {
    let mut bytes = Vec::new(alloc);
    bytes.extend_from_slice(front.as_bytes())?;
    bytes.extend_from_slice(back.as_bytes())?;
    Ok(MemorySource::new(bytes, most.max(1), Vec::new(alloc)))
}

/// The text of these items, and the line of the last entry among them.
pub(crate) fn text_of(alloc: Global, items: &[Item]) -> Result<(Vec<u8>, u64), NoMemory> {
    let mut text = Vec::new(alloc);
    let mut last = 0;
    for item in items {
        match item {
            Item::Header { header } => write_header(header, &mut text)?,
            Item::Entry { line, entry } => {
                last = *line;
                write_entry(entry, &mut text)?;
            }
            Item::Brief { .. } => {}
            Item::End { count } => write_end(*count, &mut text)?,
        }
    }
    Ok((text, last))
}

/// A list of 10,000 single cells.
pub(crate) fn long_list(alloc: Global) -> Result<Vec<u8>, NoMemory> {
    let mut text = Vec::new(alloc);
    for _ in 0..10_000 {
        text.extend_from_slice(b"0,0\n")?;
    }
    Ok(text)
}
