//! An outer text that is written as it is made.
ghost use Rattle.std.specs.Prelude.{◌≡◌, ◌≤◌, All, Err, OnErr, OnOk};
ghost use Rattle.heesch_io.specs.Causes.{Rose};
ghost use Rattle.heesch_cert.specs.Limits.{AreLimits};
ghost use Rattle.heesch_grid.specs.Names.{geometry_of};
ghost use Rattle.heesch_grid.specs.Polyform.{IsCanonicalListOf};
ghost use Rattle.heesch_catalogue.specs.Rounds.{BeginsOne, WritesOne};
ghost use Rattle.heesch_outer.specs.Outers.{IsBegunOuters, IsBegunOutersOfSize, IsOuters, IsOutersOfSize};

use crate::answers::OuterText;
use heesch_catalogue::{write_texts, write_texts_of_size};
use heesch_cert::Limits;
use heesch_grid::{Grid, GridName};
use heesch_io::{IoStop, Sink};
use heesch_pool::{Crew, Gate};
use heesch_shape::Shape;
use std::thread::Threads;

/// Writes the outer text of all free polyforms of n cells under the limits: `write_outers` of their list. n is 1 to
/// 31.
///
/// Errors: as of `write_outers`; where memory was refused for the list of the shapes, nothing was written. Beside that
/// list it keeps the entries and the answers of one round.
pub fn write_outers_of_size<T: Threads + Sync, W: Sink, H: Gate + Sync>(
    crew: &Crew<'_, T, H>,
    grid: GridName,
    n: u32,
    limits: Limits,
    sink: &mut W,
) -> Result<(), IoStop>
    requires size { (1 ≤ n) × (n ≤ 31) }
    requires limits { AreLimits limits }
    ensures ok { OnOk result
        (WritesOne (IsOutersOfSize (geometry_of grid) limits n) (W.held sink.old) (W.held sink.new)) }
    ensures err { OnErr result
        (BeginsOne (IsBegunOutersOfSize (geometry_of grid) limits n) (W.held sink.old) (W.held sink.new)) }
    ensures failed { result ≡ Err IoStop.Failed → Rose (W.faults sink.old) (W.faults sink.new) }
    ensures later { W.faults sink.old ≤ W.faults sink.new }
{
    let texts = OuterText { limits };
    write_texts_of_size(crew, &[], &texts, grid, n, sink)
}

/// Writes the outer text of canonical shapes under the limits: after each 256 shapes are classified and their outer
/// coronas sought, their entries' texts in the shapes' order, each with the text of its answer behind it, and at last
/// the end's text, each by one `put`. The gate is told of each shape's number in the list.
///
/// Errors: `Failed` only where the sink's count of faults rose; `NoMemory` also where there are 2^32 shapes or more.
/// What was written is then a beginning of an outer text. It keeps the entries, the answers and the text of one round,
/// and takes nearly all of its time to classify the shapes and to seek their outer coronas.
pub fn write_outers<G: Grid + Send + Sync, T: Threads + Sync, W: Sink, H: Gate + Sync>(
    crew: &Crew<'_, T, H>,
    limits: Limits,
    shapes: &[Shape<G>],
    sink: &mut W,
) -> Result<(), IoStop>
    requires canonical { All (λ s. IsCanonicalListOf G.geometry s s) shapes.now }
    requires limits { AreLimits limits }
    ensures ok { OnOk result
        (WritesOne (IsOuters G.geometry limits shapes.now) (W.held sink.old) (W.held sink.new)) }
    ensures err { OnErr result
        (BeginsOne (IsBegunOuters G.geometry limits shapes.now) (W.held sink.old) (W.held sink.new)) }
    ensures failed { result ≡ Err IoStop.Failed → Rose (W.faults sink.old) (W.faults sink.new) }
    ensures later { W.faults sink.old ≤ W.faults sink.new }
{
    let texts = OuterText { limits };
    write_texts(crew, &[], &texts, shapes, sink)
}
