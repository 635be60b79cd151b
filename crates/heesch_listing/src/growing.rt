//! The free list of a size, grown by several workers.
ghost use Rattle.std.specs.Prelude.{◌<◌, ◌≤◌, ◌^◌, IfOk, IsTrue, vec_len};
ghost use Rattle.heesch_grid.specs.Cells.{cells_before};
ghost use Rattle.heesch_grid.specs.Listing.{ListsExactly};
ghost use Rattle.heesch_grid.specs.Polyform.{IsFreeList};
ghost use Rattle.heesch_grow.specs.Adds.{IsGrownFromSome};
ghost use Rattle.heesch_listing.specs.Parts.{are_small};

use crate::parts::{ChildrenOf, PART};
use heesch_grid::Grid;
use heesch_grow::first;
use heesch_io::NoMemory;
use heesch_merge::merge_all;
use heesch_pool::{Crew, Gate, Job};
use heesch_shape::Shape;
use std::thread::Threads;

/// The free list of a size: the canonical shapes of all polyforms of n cells, each once, in strictly rising order.
/// It is the same list for every number of workers.
///
/// Each size is grown from the one before: one job with a ticket for each 64 consecutive parents, whose lists of
/// children are merged. A list of 2^32 shapes or more counts as want of memory.
pub fn all_shapes<G: Grid + Send + Sync, T: Threads + Sync, H: Gate + Sync>(
    crew: &Crew<'_, T, H>,
    n: u32,
) -> Result<Vec<Shape<G>>, NoMemory>
    requires size { (1 ≤ n) × (n ≤ 32) }
    ensures free { IfOk result (λ shapes. IsFreeList G.geometry n shapes.items) }
    ensures few { IfOk result (λ shapes. vec_len shapes < 2 ^ 32) }
{
    let mut shapes = vec![in crew.alloc; first::<G>()]?;
    for _size in 1..n {
        shapes = grown(crew, &shapes)?;
    }
    Ok(shapes)
}

/// The strictly rising list of what is grown from some of the parents.
fn grown<G: Grid + Send + Sync, T: Threads + Sync, H: Gate + Sync>(
    crew: &Crew<'_, T, H>,
    parents: &[Shape<G>],
) -> Result<Vec<Shape<G>>, NoMemory>
    requires small { IsTrue (are_small parents.now) }
    ensures grown { IfOk result
        (λ made. ListsExactly cells_before (IsGrownFromSome G.geometry parents.now) made.items) }
    ensures few { IfOk result (λ made. vec_len made < 2 ^ 32) }
{
    let Ok(count) = u32::try_from(parents.len().div_ceil(PART)) else {
        return Err(NoMemory);
    };
    let alloc = crew.alloc;
    let job = Job::new(ChildrenOf { alloc, parents }, count);
    let parts = crew.run_all(&job)?;
    let made = merge_all(crew.rt, alloc, parts, crew.workers)?;
    if made.len() > u32::MAX as usize {
        return Err(NoMemory);
    }
    Ok(made)
}
