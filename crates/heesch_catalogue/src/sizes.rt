//! Texts of all free polyforms of a size, on the grid of a name.
ghost use Rattle.std.specs.Prelude.{◌≡◌, ◌≤◌, Err, OnErr, OnOk};
ghost use Rattle.heesch_io.specs.Causes.{Rose};
ghost use Rattle.heesch_grid.specs.Names.{geometry_of};
ghost use Rattle.heesch_catalogue.specs.Rounds.{BeginsOne, IsBegunText, IsOfSize, IsWholeText, WritesOne};

use crate::items::ShapeText;
use crate::rounds::write_texts;
use heesch_grid::{Grid, GridName};
use heesch_io::{IoStop, Sink};
use heesch_kite::on_grid;
use heesch_listing::all_shapes;
use heesch_pool::{Crew, Gate};
use std::thread::Threads;

/// Writes the head and the texts of all free polyforms of n cells of the grid: `write_texts` of their list. n is 1 to
/// 31.
///
/// Errors: as of `write_texts`; where memory was refused for the list of the shapes, nothing was written. Beside that
/// list it keeps the items of one round.
pub fn write_texts_of_size<R: ShapeText + Sync, T: Threads + Sync, W: Sink, H: Gate + Sync>(
    crew: &Crew<'_, T, H>,
    head: &[u8],
    texts: &R,
    grid: GridName,
    n: u32,
    sink: &mut W,
) -> Result<(), IoStop>
    requires size { (1 ≤ n) × (n ≤ 31) }
    ensures ok { OnOk result
        (WritesOne (IsOfSize (IsWholeText head.now (R.is_of texts.now) (R.is_text texts.now)) (geometry_of grid) n)
        (W.held sink.old) (W.held sink.new)) }
    ensures err { OnErr result
        (BeginsOne (IsOfSize (IsBegunText head.now (R.is_of texts.now) (R.is_text texts.now)) (geometry_of grid) n)
        (W.held sink.old) (W.held sink.new)) }
    ensures failed { result ≡ Err IoStop.Failed → Rose (W.faults sink.old) (W.faults sink.new) }
    ensures later { W.faults sink.old ≤ W.faults sink.new }
{
    let polyforms = Polyforms { grid, n };
    on_grid!(
        polyforms.grid,
        write_on::<_, R, T, W, H>(crew, head, texts, polyforms, sink)
    )
}

/// The free polyforms of n cells of a grid.
#[derive(Clone, Copy)]
struct Polyforms {
    grid: GridName,
    n: u32,
}

/// The same where the polyforms are of this grid.
fn write_on<G: Grid + Send + Sync, R: ShapeText + Sync, T: Threads + Sync, W: Sink, H: Gate + Sync>(
    crew: &Crew<'_, T, H>,
    head: &[u8],
    texts: &R,
    polyforms: Polyforms,
    sink: &mut W,
) -> Result<(), IoStop>
    requires grid { geometry_of polyforms.grid ≡ G.geometry }
    requires size { (1 ≤ polyforms.n) × (polyforms.n ≤ 31) }
    ensures ok { OnOk result
        (WritesOne (IsOfSize (IsWholeText head.now (R.is_of texts.now) (R.is_text texts.now))
        (geometry_of polyforms.grid) polyforms.n) (W.held sink.old) (W.held sink.new)) }
    ensures err { OnErr result
        (BeginsOne (IsOfSize (IsBegunText head.now (R.is_of texts.now) (R.is_text texts.now))
        (geometry_of polyforms.grid) polyforms.n) (W.held sink.old) (W.held sink.new)) }
    ensures failed { result ≡ Err IoStop.Failed → Rose (W.faults sink.old) (W.faults sink.new) }
    ensures later { W.faults sink.old ≤ W.faults sink.new }
{
    let shapes = all_shapes::<G, T, H>(crew, polyforms.n)?;
    write_texts(crew, head, texts, &shapes, sink)
}
