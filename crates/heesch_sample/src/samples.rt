//! A sample of the polyforms of a size.
ghost use Rattle.std.specs.Prelude.{◌≡◌, ◌≤◌, ◌+◌, ◌-◌, ◌^◌, ◌++◌, All, List, length, map, slice_range, IfOk, OnOk};
ghost use Rattle.heesch_cert.specs.Limits.{AreLimits};
ghost use Rattle.heesch_grid.specs.declared.Cell.{Cell};
ghost use Rattle.heesch_grid.specs.Names.{geometry_of};
ghost use Rattle.heesch_grid.specs.Polyform.{IsCanonicalListOf};
ghost use Rattle.heesch_sample.specs.Samples.{AreCountsOf, AreGrown, HaveCounts, IsSample};

use heesch_catalogue::{EntryText, ROUND, items_between};
use heesch_cert::{Entry, Limits};
use heesch_grid::{Grid, GridName};
use heesch_grow::{Draws, grown};
use heesch_io::NoMemory;
use heesch_kite::on_grid;
use heesch_pool::{Crew, Gate};
use heesch_shape::Shape;
use heesch_table::Tally;
use std::alloc::Global;
use std::thread::Threads;

/// The text of the tally of `count` polyforms of n cells, classified under the limits. They are grown
/// one after the other, from one state that starts at the seed, and stand by their canonical lists.
/// n is 1 to 32, and `count` at most 1,000.
///
/// Errors: `NoMemory` alone. Nearly all of its time goes to the classification of the shapes, each by
/// one worker. The shapes are kept to the end, their entries until their round of at most 256 is
/// counted, and the memory of the searches for a shape until its entry is made.
pub fn sample<T: Threads + Sync, H: Gate + Sync>(
    crew: &Crew<'_, T, H>,
    grid: GridName,
    n: u32,
    count: u32,
    seed: u64,
    limits: Limits,
) -> Result<Vec<u8>, NoMemory>
    requires size { (1 ≤ n) × (n ≤ 32) }
    requires few { count ≤ 1000 }
    requires limits { AreLimits limits }
    ensures { IfOk result (λ text. IsSample (geometry_of grid) n count seed limits text.items) }
{
    let growth = Growth { n, count, seed };
    on_grid!(grid, sample_of::<_, T, H>(crew, growth, limits))
}

/// What is grown: so many polyforms of n cells, one after the other, from one state that starts at the seed.
#[derive(Clone, Copy)]
struct Growth {
    n: u32,
    count: u32,
    seed: u64,
}

fn sample_of<G: Grid + Send + Sync, T: Threads + Sync, H: Gate + Sync>(
    crew: &Crew<'_, T, H>,
    growth: Growth,
    limits: Limits,
) -> Result<Vec<u8>, NoMemory>
    requires size { (1 ≤ growth.n) × (growth.n ≤ 32) }
    requires few { growth.count ≤ 1000 }
    requires limits { AreLimits limits }
    ensures { IfOk result (λ text. IsSample G.geometry growth.n growth.count growth.seed limits text.items) }
{
    let shapes = grown_shapes::<G>(crew.alloc, growth)?;
    let tally = tally_of(crew, &shapes, growth.count, limits)?;
    let mut text = Vec::new(crew.alloc);
    tally.write(&mut text)?;
    Ok(text)
}

/// The canonical shapes of the polyforms that are grown one after the other.
fn grown_shapes<G: Grid>(alloc: Global, growth: Growth) -> Result<Vec<Shape<G>>, NoMemory>
    requires size { (1 ≤ growth.n) × (growth.n ≤ 32) }
    ensures { IfOk result (λ shapes. AreGrown G.geometry growth.n growth.seed growth.count shapes.items) }
{
    let Growth { n, count, seed } = growth;
    let mut draws = Draws::new(seed);
    let mut shapes = Vec::new(alloc);
    for _made in 0..count {
        let shape = grown::<G>(n, &mut draws);
        shapes.push(shape.canonical())?;
    }
    Ok(shapes)
}

/// The tally of the entries of canonical shapes, of which there are `count`, one round after the other.
fn tally_of<G: Grid + Send + Sync, T: Threads + Sync, H: Gate + Sync>(
    crew: &Crew<'_, T, H>,
    shapes: &[Shape<G>],
    count: u32,
    limits: Limits,
) -> Result<Tally, NoMemory>
    requires canonical { All (λ s. IsCanonicalListOf G.geometry s s) shapes.now }
    requires count { count ≡ length shapes.now }
    requires few { count ≤ 1000 }
    requires limits { AreLimits limits }
    ensures { IfOk result (HaveCounts G.geometry limits shapes.now) }
{
    let texts = EntryText {
        brief: true,
        limits,
    };
    let mut tally = Tally::new(crew.alloc);
    let mut from = 0;
    while from < count {
        let until = from + ROUND.min(count - from);
        let entries = items_between(crew, &texts, shapes, from, until)?;
        add_entries(
            crew.alloc,
            &shapes[from as usize..until as usize],
            &entries,
            &mut tally,
        )?;
        from = until;
    }
    Ok(tally)
}

/// Adds the entries, which are of these shapes, to the tally.
fn add_entries<G: Grid>(
    alloc: Global,
    shapes: &[Shape<G>],
    entries: &[Entry],
    tally: &mut Tally,
) -> Result<(), NoMemory>
    requires of_shapes { map (λ e. e.cells) entries.now ≡ shapes.now }
    requires few { tally.old.shapes + length entries.now ≤ 2 ^ 32 }
    ensures ok { (before : List Entry) → AreCountsOf G.geometry before tally.old
        → OnOk result (AreCountsOf G.geometry (before ++ entries.now) tally.new) }
    ensures shapes { OnOk result (tally.new.shapes ≡ tally.old.shapes + length entries.now) }
{
    for (at, entry) in entries.iter().enumerate() {
        tally.add_shape(alloc, &shapes[at], &entry.verdict)?;
    }
    Ok(())
}
