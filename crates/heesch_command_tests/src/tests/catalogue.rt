//! How many calls a catalogue takes, what stands written where one fails, and one of more than 2^16 entries.
ghost use Rattle.std.specs.Prelude.{◌≤◌, All, IfOk};
ghost use Rattle.heesch_grid.specs.Polyform.{IsCanonicalListOf};

use heesch_catalogue::{write_catalogue, write_catalogue_of_size};
use heesch_cert::{Header, Limits, Subject};
use heesch_cnf::Version;
use heesch_grid::{Cell, Grid, GridName, Square};
use heesch_io::{IoStop, MemorySink};
use heesch_made::{BRIEF_TETROMINOES, LIMITS, canonical_of, same};
use heesch_pool::{Crew, Open};
use heesch_shape::Shape;
use std::alloc::Global;
use std::test::Fail;
use std::thread::Threads;

/// The header of the brief catalogue of the tetrominoes.
const TETROMINOES: Header = Header {
    brief: true,
    grid: GridName::Square,
    subject: Subject::Size { n: 4 },
    limits: Limits {
        version: Version::Two,
        ..LIMITS
    },
};

const HEADER_TEXT: &[u8] = b"brief 2 square 4 turns 20000 levels 3 domain 4 size 60000000\n";

const END_TEXT: &[u8] = b"end 5\n";

/// How writing the brief catalogue of the tetrominoes by so many workers ends, and the sink then.
fn written<T: Threads + Sync>(
    rt: &T,
    alloc: Global,
    workers: u32,
    mut sink: MemorySink,
) -> (Result<(), IoStop>, MemorySink)
    requires { (1 ≤ workers) × (workers ≤ 64) }
{
    let crew = Crew::new(rt, alloc, workers, &Open);
    let ended = write_catalogue_of_size(&crew, &TETROMINOES, 4, &mut sink);
    (ended, sink)
}

#[test]
fn a_short_list_takes_three_calls(rt: HostRuntime) -> Result<(), Fail> {
    let sink = MemorySink::new(rt.alloc(), 1000, 1000, Vec::new(rt.alloc()))?;
    let (ended, sink) = written(&rt, rt.alloc(), 2, sink);
    same("ended", (ended, sink.calls), (Ok(()), 3))?;
    same("held", sink.held.as_slice(), BRIEF_TETROMINOES.as_bytes())
}

/// At its second call, and where room is wanting for the end alone.
#[test]
fn a_sink_that_fails_holds_what_was_written_before(rt: HostRuntime) -> Result<(), Fail> {
    let alloc = rt.alloc();
    let sink = MemorySink::new(alloc, 1000, 1000, [2].to_vec(alloc)?)?;
    let (ended, sink) = written(&rt, alloc, 1, sink);
    same("second call", ended, Err(IoStop::Failed))?;
    same("held", sink.held.as_slice(), HEADER_TEXT)?;
    let room = BRIEF_TETROMINOES.len().saturating_sub(END_TEXT.len());
    let full = MemorySink::new(alloc, room, 1000, Vec::new(alloc))?;
    let (ended, full) = written(&rt, alloc, 1, full);
    same(
        "no room",
        (ended, full.held.len()),
        (Err(IoStop::Failed), room),
    )
}

/// So many copies of the shape of one cell.
fn single_cells<G: Grid>(alloc: Global, count: u32) -> Result<Vec<Shape<G>>, Fail>
    ensures { IfOk result (λ shapes. All (λ s. IsCanonicalListOf G.geometry s s) shapes.items) }
{
    let mut shapes = Vec::new(alloc);
    for _ in 0..count {
        let shape = canonical_of::<G>(&[Cell { a: 0, b: 0 }])?;
        shapes.push(shape)?;
    }
    Ok(shapes)
}

/// The header of a brief catalogue of given shapes.
const GIVEN: Header = Header {
    subject: Subject::Given,
    ..TETROMINOES
};

/// No clause rules out that a number of shapes is refused as if memory were wanting.
#[test]
fn more_than_65536_entries(rt: HostRuntime) -> Result<(), Fail> {
    let alloc = rt.alloc();
    let shapes = single_cells::<Square>(alloc, 65_537)?;
    let crew = Crew::new(&rt, alloc, 1, &Open);
    let mut sink = MemorySink::new(alloc, 10_000_000, 10_000_000, Vec::new(alloc))?;
    write_catalogue(&crew, &GIVEN, &shapes, &mut sink)?;
    same("end", sink.held.ends_with(b"end 65537\n"), true)
}
