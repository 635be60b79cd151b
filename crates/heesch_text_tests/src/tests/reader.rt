//! Worked texts read in pieces, and texts that are none.
ghost use Rattle.std.specs.Prelude.{◌+◌, ◌<◌, ◌≤◌, length, IfOk};

use super::made::text_of;
use heesch_io::Seq;
use heesch_line::LineStop;
use heesch_made::{HOLED, TRIANGLE, same};
use heesch_reader::{Item, Part, Reader};
use std::alloc::Global;
use std::test::Fail;

const HEADER: &str = "heesch 1 iamond 1 turns 20000 levels 3 domain 4 size 60000000\n";

/// Feeds one piece, behind so many lines and bytes.
fn feed_piece(
    reader: &mut Reader,
    fed: u64,
    piece: &[u8],
    items: &mut Seq<Item>,
) -> Result<u64, LineStop<Part>>
    requires { reader.old.appended.lines + length reader.old.rest ≤ fed }
    ensures { IfOk result (λ now. reader.new.appended.lines + length reader.new.rest ≤ now) }
{
    let count = piece.len() as u64;
    if count > u64::MAX - fed {
        return Err(LineStop::NoMemory);
    }
    reader.feed(piece, items)?;
    Ok(fed + count)
}

/// Feeds a text in pieces of so many bytes.
fn feed_text(
    reader: &mut Reader,
    fed: u64,
    text: &str,
    size: usize,
    items: &mut Seq<Item>,
) -> Result<u64, LineStop<Part>>
    requires some { 0 < size }
    requires fed { reader.old.appended.lines + length reader.old.rest ≤ fed }
    ensures { IfOk result (λ now. reader.new.appended.lines + length reader.new.rest ≤ now) }
{
    let mut now = fed;
    for piece in text.as_bytes().chunks(size) {
        now = feed_piece(reader, now, piece, items)?;
    }
    Ok(now)
}

/// What a reader makes of two texts, one behind the other, in pieces of so many bytes, and its answer.
fn read(
    alloc: Global,
    front: &str,
    back: &str,
    size: usize,
    items: &mut Seq<Item>,
) -> Result<(), LineStop<Part>>
    requires { 0 < size }
{
    let mut reader = Reader::new(alloc);
    let fed = feed_text(&mut reader, 0, front, size, items)?;
    feed_text(&mut reader, fed, back, size, items)?;
    reader.finish(items)
}

#[test]
fn worked_texts_are_read_in_any_pieces(rt: HostRuntime) -> Result<(), Fail> {
    for text in [TRIANGLE, HOLED] {
        for size in [1, 7, 500] {
            let mut items = Seq::new(rt.alloc());
            read(rt.alloc(), text, "", size, &mut items)?;
            let (out, line) = text_of(rt.alloc(), items.as_slice())?;
            same("text", out.as_slice(), text.as_bytes())?;
            same("items and line", (items.len(), line), (3, 2))?;
        }
    }
    Ok(())
}

const OTHER_NUMBER: &str = "heesch 1 iamond 01 turns 20000 levels 3 domain 4 size 60000000\n";

/// Two texts, one behind the other, and the first line that is no line of a catalogue there, with its part.
const FAULTS: [(&str, &str, u64, Part); 14] = [
    ("", "", 1, Part::Header),
    ("", OTHER_NUMBER, 1, Part::Header),
    (HEADER, "", 2, Part::End),
    (HEADER, "end 0", 2, Part::End),
    (HEADER, "end 00\n", 2, Part::End),
    (HEADER, "end  0\n", 2, Part::End),
    (HEADER, "shape\n", 2, Part::End),
    (HEADER, "shape  1,1\n", 2, Part::Entry),
    (HEADER, "shape 01,1\n", 2, Part::Entry),
    (HEADER, "shape 1,1\n", 3, Part::Entry),
    (HEADER, "end 0\nend 0\n", 3, Part::End),
    (TRIANGLE, "end 1\n", 8, Part::End),
    (TRIANGLE, "e", 8, Part::End),
    (HOLED, "shape 1,1\n", 9, Part::End),
];

/// Why two texts, one behind the other, are read no further, five bytes at a time.
fn stop_of(alloc: Global, front: &str, back: &str) -> Option<LineStop<Part>> {
    let mut items = Seq::new(alloc);
    read(alloc, front, back, 5, &mut items).err()
}

const fn fault(line: u64, fault: Part) -> Option<LineStop<Part>> {
    Some(LineStop::Fault { line, fault })
}

#[test]
fn the_first_faulty_line_is_named(rt: HostRuntime) -> Result<(), Fail> {
    for (front, back, line, part) in &FAULTS {
        same(back, stop_of(rt.alloc(), front, back), fault(*line, *part))?;
    }
    let unended = HOLED.replacen(rt.alloc(), "end 1\n", "", 1)?;
    same(
        "cut",
        stop_of(rt.alloc(), &unended, "end 1"),
        fault(8, Part::End),
    )
}
