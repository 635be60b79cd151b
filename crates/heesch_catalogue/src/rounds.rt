//! Texts of shapes that are written as they are made, by rounds of shapes.
ghost use Rattle.std.specs.Prelude.{◌≡◌, ◌≤◌, Err, OnErr, OnOk};
ghost use Rattle.std.specs.Io.KnownBytes.{Appends};
ghost use Rattle.heesch_io.specs.Causes.{Rose};
ghost use Rattle.heesch_io.specs.Contents.{AppendsPrefix};
ghost use Rattle.heesch_text.specs.Catalogue.{end_text};
ghost use Rattle.heesch_catalogue.specs.Rounds.{AreTexts, BeginsOne, IsBegunText, IsWholeText, WritesOne};

use crate::items::{ShapeText, append_items, items_between};
use heesch_grid::Grid;
use heesch_io::{IoStop, Sink, put};
use heesch_pool::{Crew, Gate};
use heesch_shape::Shape;
use heesch_text::write_end;
use std::alloc::Global;
use std::thread::Threads;

/// How many shapes are made into items before their texts are written.
pub const ROUND: u32 = 256;

/// Writes the head, then the texts of the shapes, after each 256 of them are made, in the shapes' order, then the
/// end's text with their number, each by one `put`. The gate is told of each shape's number in the list.
///
/// Errors: `Failed` only where the sink's count of faults rose; `NoMemory` also where there are 2^32 shapes or more.
/// What was written is then a beginning of such a text. It keeps the items and the text of one round, and takes nearly
/// all of its time to make the items.
pub fn write_texts<
    G: Grid + Send + Sync,
    R: ShapeText + Sync,
    T: Threads + Sync,
    W: Sink,
    H: Gate + Sync,
>(
    crew: &Crew<'_, T, H>,
    head: &[u8],
    texts: &R,
    shapes: &[Shape<G>],
    sink: &mut W,
) -> Result<(), IoStop>
    ensures ok { OnOk result
        (WritesOne (IsWholeText head.now (R.is_of texts.now) (R.is_text texts.now) G.geometry shapes.now)
        (W.held sink.old) (W.held sink.new)) }
    ensures err { OnErr result
        (BeginsOne (IsBegunText head.now (R.is_of texts.now) (R.is_text texts.now) G.geometry shapes.now)
        (W.held sink.old) (W.held sink.new)) }
    ensures failed { result ≡ Err IoStop.Failed → Rose (W.faults sink.old) (W.faults sink.new) }
    ensures later { W.faults sink.old ≤ W.faults sink.new }
{
    let Ok(count) = u32::try_from(shapes.len()) else {
        return Err(IoStop::NoMemory);
    };
    put_text(head, sink)?;
    let mut from = 0;
    while from < count {
        let until = from + ROUND.min(count - from);
        let items = items_between(crew, texts, shapes, from, until)?;
        put_items(crew.alloc, texts, &items, sink)?;
        from = until;
    }
    put_end(crew.alloc, count, sink)
}

/// Writes the texts of the items by one `put`.
fn put_items<R: ShapeText, W: Sink>(
    alloc: Global,
    texts: &R,
    items: &[R::Item],
    sink: &mut W,
) -> Result<(), IoStop>
    ensures ok { OnOk result
        (WritesOne (AreTexts (R.is_text texts.now) items.now) (W.held sink.old) (W.held sink.new)) }
    ensures err { OnErr result
        (BeginsOne (AreTexts (R.is_text texts.now) items.now) (W.held sink.old) (W.held sink.new)) }
    ensures failed { result ≡ Err IoStop.Failed → Rose (W.faults sink.old) (W.faults sink.new) }
    ensures later { W.faults sink.old ≤ W.faults sink.new }
{
    let mut text = Vec::new(alloc);
    append_items(texts, items, &mut text)?;
    put(sink, &text)?;
    Ok(())
}

/// Writes the end's text, of so many shapes.
fn put_end<W: Sink>(alloc: Global, count: u32, sink: &mut W) -> Result<(), IoStop>
    ensures ok { OnOk result (Appends (W.held sink.old) (W.held sink.new) (end_text count)) }
    ensures err { OnErr result (AppendsPrefix (W.held sink.old) (W.held sink.new) (end_text count)) }
    ensures failed { result ≡ Err IoStop.Failed → Rose (W.faults sink.old) (W.faults sink.new) }
    ensures later { W.faults sink.old ≤ W.faults sink.new }
{
    let mut text = Vec::new(alloc);
    write_end(count, &mut text)?;
    put_text(&text, sink)
}

/// Writes a text by one `put`.
fn put_text<W: Sink>(text: &[u8], sink: &mut W) -> Result<(), IoStop>
    ensures ok { OnOk result (Appends (W.held sink.old) (W.held sink.new) text.now) }
    ensures err { OnErr result (AppendsPrefix (W.held sink.old) (W.held sink.new) text.now) }
    ensures failed { result ≡ Err IoStop.Failed → Rose (W.faults sink.old) (W.faults sink.new) }
    ensures later { W.faults sink.old ≤ W.faults sink.new }
{
    put(sink, text)?;
    Ok(())
}
