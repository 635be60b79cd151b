//! The writer of a share.
ghost use Rattle.std.specs.Prelude.{◌≡◌, ◌≤◌, All, length, Err, IfOk, OnErr, OnOk};
ghost use Rattle.std.specs.Io.KnownBytes.{Appends};
ghost use Rattle.heesch_io.specs.Causes.{Rose};
ghost use Rattle.heesch_io.specs.Contents.{AppendsPrefix};
ghost use Rattle.heesch_cert.specs.Limits.{AreLimits};
ghost use Rattle.heesch_grid.specs.Names.{geometry_of};
ghost use Rattle.heesch_grid.specs.Polyform.{IsCanonicalListOf};
ghost use Rattle.heesch_catalogue.specs.Rounds.{BeginsOne, WritesOne};
ghost use Rattle.heesch_parts.specs.Shares.{share_line};
ghost use Rattle.heesch_parts.specs.Written.{IsShare, IsBegunShare, IsShareOfSize, IsBegunShareOfSize, MayBeWritten};

use crate::{Span, span};
use heesch_catalogue::write_catalogue;
use heesch_cert::Header;
use heesch_grid::Grid;
use heesch_io::{IoStop, NoMemory, Sink, put};
use heesch_kite::on_grid;
use heesch_listing::all_shapes;
use heesch_pool::{Crew, Gate};
use heesch_shape::Shape;
use heesch_text::fields::{append_byte, append_labelled};
use std::alloc::Global;
use std::thread::Threads;

/// Share `i` of `k` of a catalogue, under the header.
#[derive(Clone, Copy)]
pub struct Share {
    pub header: Header,
    pub i: u32,
    pub k: u32,
}

/// Writes share `i` of `k` of the catalogue, under the header, of all free polyforms of n cells: the line that names
/// the share, and the catalogue text of the shapes at the places that the share has, as `write_catalogue` writes it. n
/// is 1 to 31, and 1 <= i <= k <= 1,000.
///
/// Errors: as of `write_catalogue`; where memory was refused for the list of the shapes, nothing was written. Beside
/// that list it keeps the entries of one round.
pub fn write_share<T: Threads + Sync, W: Sink, H: Gate + Sync>(
    crew: &Crew<'_, T, H>,
    header: &Header,
    n: u32,
    i: u32,
    k: u32,
    sink: &mut W,
) -> Result<(), IoStop>
    requires size { (1 ≤ n) × (n ≤ 31) }
    requires first { 1 ≤ i }
    requires last { i ≤ k }
    requires most { k ≤ 1000 }
    requires limits { AreLimits header.now.limits }
    ensures ok { OnOk result
        (WritesOne (IsShareOfSize (geometry_of header.now.grid) header.now n i k)
        (W.held sink.old) (W.held sink.new)) }
    ensures err { OnErr result
        (BeginsOne (IsBegunShareOfSize (geometry_of header.now.grid) header.now n i k)
        (W.held sink.old) (W.held sink.new)) }
    ensures failed { result ≡ Err IoStop.Failed → Rose (W.faults sink.old) (W.faults sink.new) }
    ensures later { W.faults sink.old ≤ W.faults sink.new }
{
    let share = Share {
        header: *header,
        i,
        k,
    };
    on_grid!(header.grid, write_one::<_, T, W, H>(crew, n, &share, sink))
}

/// The same on the grid of the share's header.
fn write_one<G: Grid + Send + Sync, T: Threads + Sync, W: Sink, H: Gate + Sync>(
    crew: &Crew<'_, T, H>,
    n: u32,
    share: &Share,
    sink: &mut W,
) -> Result<(), IoStop>
    requires grid { geometry_of share.now.header.grid ≡ G.geometry }
    requires size { (1 ≤ n) × (n ≤ 31) }
    requires may { MayBeWritten share.now }
    ensures ok { OnOk result
        (WritesOne (IsShareOfSize (geometry_of share.now.header.grid) share.now.header n share.now.i share.now.k)
        (W.held sink.old) (W.held sink.new)) }
    ensures err { OnErr result
        (BeginsOne (IsBegunShareOfSize (geometry_of share.now.header.grid) share.now.header n share.now.i share.now.k)
        (W.held sink.old) (W.held sink.new)) }
    ensures failed { result ≡ Err IoStop.Failed → Rose (W.faults sink.old) (W.faults sink.new) }
    ensures later { W.faults sink.old ≤ W.faults sink.new }
{
    let shapes = all_shapes::<G, T, H>(crew, n)?;
    write_share_of(crew, &shapes, share, sink)
}

/// Writes the share of the catalogue of canonical shapes.
fn write_share_of<G: Grid + Send + Sync, T: Threads + Sync, W: Sink, H: Gate + Sync>(
    crew: &Crew<'_, T, H>,
    shapes: &[Shape<G>],
    share: &Share,
    sink: &mut W,
) -> Result<(), IoStop>
    requires canonical { All (λ s. IsCanonicalListOf G.geometry s s) shapes.now }
    requires may { MayBeWritten share.now }
    ensures ok { OnOk result
        (WritesOne (IsShare G.geometry share.now.header share.now.i share.now.k shapes.now)
        (W.held sink.old) (W.held sink.new)) }
    ensures err { OnErr result
        (BeginsOne (IsBegunShare G.geometry share.now.header share.now.i share.now.k shapes.now)
        (W.held sink.old) (W.held sink.new)) }
    ensures failed { result ≡ Err IoStop.Failed → Rose (W.faults sink.old) (W.faults sink.new) }
    ensures later { W.faults sink.old ≤ W.faults sink.new }
{
    let Ok(count) = u32::try_from(shapes.len()) else {
        return Err(IoStop::NoMemory);
    };
    let Share { header, i, k } = *share;
    let Span { from, until } = span(count, i, k);
    put_line(crew.alloc, i, k, sink)?;
    let part = &shapes[from as usize..until as usize];
    write_catalogue(crew, &header, part, sink)
}

/// Writes the line that names share `i` of `k`.
fn put_line<W: Sink>(alloc: Global, i: u32, k: u32, sink: &mut W) -> Result<(), IoStop>
    ensures ok { OnOk result (Appends (W.held sink.old) (W.held sink.new) (share_line i k)) }
    ensures err { OnErr result (AppendsPrefix (W.held sink.old) (W.held sink.new) (share_line i k)) }
    ensures failed { result ≡ Err IoStop.Failed → Rose (W.faults sink.old) (W.faults sink.new) }
    ensures later { W.faults sink.old ≤ W.faults sink.new }
{
    let text = line_of(alloc, i, k)?;
    put(sink, &text)?;
    Ok(())
}

/// The line `share I K`.
fn line_of(alloc: Global, i: u32, k: u32) -> Result<Vec<u8>, NoMemory>
    ensures { IfOk result (λ text. text.items ≡ share_line i k) }
{
    let mut text = Vec::new(alloc);
    append_labelled(b"share ", i, &mut text)?;
    append_labelled(b" ", k, &mut text)?;
    append_byte(b'\n', &mut text)?;
    Ok(text)
}
