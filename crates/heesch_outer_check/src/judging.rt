//! The judgement of one block.
ghost use Rattle.std.specs.Prelude.{◌≡◌, ◌↔◌, IfOk, IsTrue, Some, slice_get};
ghost use Rattle.heesch_cert.specs.Limits.{AreLimits};
ghost use Rattle.heesch_cert.specs.TrueEntry.{IsTrueEntry};
ghost use Rattle.heesch_check.specs.Catalogues.{IsInPlace};
ghost use Rattle.heesch_grid.specs.Names.{geometry_of};
ghost use Rattle.heesch_outer.specs.Answer.{IsOuterAnswer};
ghost use Rattle.heesch_outer_check.specs.Records.{IsGoodBlock, IsGoodRecord};
ghost use Rattle.heesch_outer_check.specs.Rounds.{AreListed};
ghost use Rattle.heesch_outer_check.specs.ReadableRecords.{IsReadableRecord};

use crate::record::read_record;
use heesch_audit::{EntryAnswer, audit};
use heesch_cert::{Header, Limits, Subject};
use heesch_check::GIVEN_MAX;
use heesch_grid::{Cell, Grid};
use heesch_io::NoMemory;
use heesch_outer::{OuterEntry, check_outer};
use heesch_shape::Shape;
use std::alloc::Global;
use std::thread::Threads;

/// Whether a shape of these cells may stand behind so many records.
fn is_in_place<G: Grid>(subject: Subject, shapes: &[Shape<G>], before: u32, cells: &[Cell]) -> bool
    requires { AreListed G.geometry subject shapes.now }
    ensures { IsTrue result ↔ IsInPlace G.geometry subject before cells.now }
{
    match subject {
        Subject::Given => before < GIVEN_MAX,
        Subject::Size { n: _ } => is_listed_at(shapes, before, cells),
    }
}

/// Whether these cells are those of the shape behind so many in the list.
fn is_listed_at<G: Grid>(shapes: &[Shape<G>], before: u32, cells: &[Cell]) -> bool
    ensures { IsTrue result ↔ (slice_get shapes.now before ≡ Some cells.now) }
{
    let before = before as usize;
    if shapes.len() <= before {
        return false;
    }
    shapes[before].cells() == cells
}

/// Whether the entry of the record is true under the limits, and its answer allowed.
fn is_right<G: Grid, R: Threads + Sync>(
    rt: &R,
    alloc: Global,
    limits: Limits,
    record_read: &OuterEntry,
) -> Result<bool, NoMemory>
    requires limits { AreLimits limits }
    requires readable { IsReadableRecord record_read.now }
    ensures { IfOk result (λ yes. IsTrue yes
        ↔ IsTrueEntry G.geometry limits record_read.now.entry
        × IsOuterAnswer G.geometry limits record_read.now.entry record_read.now.answer) }
{
    match audit::<G, R>(rt, alloc, &record_read.entry, limits)? {
        EntryAnswer::Invalid { part: _ } => Ok(false),
        EntryAnswer::Valid => check_outer::<G, R>(
            rt,
            alloc,
            &record_read.entry,
            &record_read.answer,
            limits,
        ),
    }
}

/// Whether a record that was read is good behind so many. The place of its shape is looked at before the entry is
/// audited, and its answer is checked last.
fn is_good_read<G: Grid, R: Threads + Sync>(
    rt: &R,
    alloc: Global,
    header: &Header,
    shapes: &[Shape<G>],
    before: u32,
    found: &OuterEntry,
) -> Result<bool, NoMemory>
    requires grid { geometry_of header.now.grid ≡ G.geometry }
    requires limits { AreLimits header.now.limits }
    requires shapes { AreListed G.geometry header.now.subject shapes.now }
    requires readable { IsReadableRecord found.now }
    ensures { IfOk result (λ yes. IsTrue yes ↔ IsGoodRecord header.now before found.now) }
{
    if !is_in_place(header.subject, shapes, before, found.entry.cells.as_slice()) {
        return Ok(false);
    }
    is_right::<G, R>(rt, alloc, header.limits, found)
}

/// Whether the block is the text of a good record behind so many.
pub(crate) fn is_good<G: Grid, R: Threads + Sync>(
    rt: &R,
    alloc: Global,
    header: &Header,
    shapes: &[Shape<G>],
    before: u32,
    block: &[u8],
) -> Result<bool, NoMemory>
    requires grid { geometry_of header.now.grid ≡ G.geometry }
    requires limits { AreLimits header.now.limits }
    requires shapes { AreListed G.geometry header.now.subject shapes.now }
    ensures { IfOk result (λ yes. IsTrue yes ↔ IsGoodBlock header.now before block.now) }
{
    let read = read_record(alloc, block)?;
    match read {
        None => Ok(false),
        Some(found) => is_good_read::<G, R>(rt, alloc, header, shapes, before, &found),
    }
}
