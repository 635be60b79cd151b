//! How far one step of reading came.
ghost use Rattle.std.specs.Prelude.{◌≡◌, ◌≢◌, ◌≤◌, ◌++◌, ℕ, List, [], Option, Err, IfOk};
ghost use Rattle.heesch_io.specs.Causes.{Rose};
ghost use Rattle.heesch_reader.specs.declared.item.Item.{Item as ItemOf};
ghost use Rattle.heesch_io.specs.Input.{ReadsNoFurther};
ghost use Rattle.heesch_check.specs.Reading.{Reads, Gathers, FirstReads, MayRead, MayGather, IsReading, DecideNothing};
ghost use Rattle.heesch_check.specs.Reading.{StopsGathering};
ghost use Rattle.heesch_reader.specs.Taking.{HasRead, TakesOnePiece};

use heesch_io::{IoStop, Seq, Source};
use heesch_reader::{AtHand, Item, Part, Stream, StreamStop, Taken};

/// What one step of reading came to.
#[derive(Clone, Copy, Debug, PartialEq, Eq)]
pub enum Reading {
    /// More may follow.
    More,
    /// The end of the input, which is a whole catalogue.
    End,
    /// A line that can't stand in a catalogue, and the part that it is of.
    Fault { part: Part },
    /// The input is longer than is read. The first byte too many is on this line, which begins so.
    TooLong { line: u64, ending: AtHand },
}

/// Reads one piece, and appends the items that are whole by now.
pub(crate) fn read<R: Source>(
    stream: &mut Stream,
    source: &mut R,
    items: &mut Seq<Item>,
) -> Result<Reading, IoStop>
    ensures ok { IfOk result
        (Reads (R.left source.old) (R.left source.new) stream.old stream.new items.old items.new) }
    ensures one_piece { TakesOnePiece (R.left source.old) (R.left source.new) }
    ensures failed { result ≡ Err IoStop.Failed → Rose (R.faults source.old) (R.faults source.new) }
    ensures later { R.faults source.old ≤ R.faults source.new }
{
    match stream.take(source, items) {
        Ok(Taken::Piece) => Ok(Reading::More),
        Ok(Taken::End) => Ok(Reading::End),
        Err(StreamStop::NotText { line: _, part }) => Ok(Reading::Fault { part }),
        Err(StreamStop::TooLong { line }) => Ok(Reading::TooLong {
            line,
            ending: stream.at_hand(),
        }),
        Err(StreamStop::Failed) => Err(IoStop::Failed),
        Err(StreamStop::NoMemory) => Err(IoStop::NoMemory),
    }
}

/// Reads on from where reading came to until there are so many items, or nothing more may follow.
pub(crate) fn gather<R: Source>(
    stream: &mut Stream,
    source: &mut R,
    items: &mut Seq<Item>,
    came_to: Reading,
    enough: usize,
) -> Result<Reading, IoStop>
    requires may { MayGather (R.left source.old) stream.old items.old came_to }
    ensures ok { IfOk result
        (Gathers (R.left source.old) (R.left source.new) stream.old stream.new items.old items.new enough came_to) }
    ensures no_further { (first : Option (List ℕ)) (found : List ItemOf)
        → IsReading first (R.left source.old) (found ++ items.old) stream.old came_to
        → StopsGathering first (R.left source.old) (R.left source.new) found items.old enough }
    ensures failed { result ≡ Err IoStop.Failed → Rose (R.faults source.old) (R.faults source.new) }
    ensures later { R.faults source.old ≤ R.faults source.new }
{
    let Reading::More = came_to else {
        return Ok(came_to);
    };
    'pieces: while items.len() < enough {
        let reading = read(stream, source, items)?;
        let Reading::More = reading else {
            return Ok(reading);
        };
    }
    Ok(Reading::More)
}

/// Reads on until there is an item, or nothing more may follow. Nothing was read before but bytes.
pub(crate) fn read_first<R: Source>(
    stream: &mut Stream,
    source: &mut R,
    items: &mut Seq<Item>,
) -> Result<Reading, IoStop>
    requires none { items.old ≡ [] }
    requires may { MayRead (R.left source.old) stream.old }
    ensures ok { IfOk result (FirstReads (R.left source.old) (R.left source.new) stream.old stream.new items.new) }
    ensures some { IfOk result (λ reading. reading ≡ Reading.More → items.new ≢ []) }
    ensures no_further { (first : Option (List ℕ)) → HasRead first (R.left source.old) [] stream.old
        → ReadsNoFurther DecideNothing first (R.left source.new) }
    ensures failed { result ≡ Err IoStop.Failed → Rose (R.faults source.old) (R.faults source.new) }
    ensures later { R.faults source.old ≤ R.faults source.new }
{
    'pieces: loop {
        let reading = read(stream, source, items)?;
        let Reading::More = reading else {
            return Ok(reading);
        };
        if !items.is_empty() {
            return Ok(reading);
        }
    }
}
