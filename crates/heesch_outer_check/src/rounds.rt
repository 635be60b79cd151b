//! The blocks of a round, judged at once.
ghost use Rattle.std.specs.Prelude.{◌≡◌, ◌+◌, ◌<◌, ◌≤◌, ◌^◌, length, not, vec_len, IfOk};
ghost use Rattle.std.specs.List.{position_or_len};
ghost use Rattle.heesch_cert.specs.Limits.{AreLimits};
ghost use Rattle.heesch_grid.specs.Names.{geometry_of};
ghost use Rattle.heesch_outer_check.specs.Rounds.{AreAnswers, AreListed};

use crate::judging::is_good;
use heesch_cert::Header;
use heesch_check::SharedHandle;
use heesch_grid::Grid;
use heesch_io::{NoMemory, Seq};
use heesch_pool::{Answer, Crew, Gate, Job};
use heesch_shape::Shape;
use std::alloc::Global;
use std::thread::Threads;

/// The job whose item is whether a block is a good record. Threads may share the handle that it has.
#[derive(Drop)]
struct RecordOf<'a, G: Grid, R> {
    rt: R,
    alloc: Global,
    blocks: &'a [Seq<u8>],
    /// The number of records before the first of the blocks.
    first: u32,
    header: Header,
    shapes: &'a [Shape<G>],
}

impl<'a, G: Grid, R: Threads + Sync + Copy> Answer<bool> for RecordOf<'a, G, R> {
    ghost use Rattle.std.specs.Prelude.{IfOk, ◌-◌, ◌≡◌, true};
    ghost use Rattle.std.specs.Thread.{IsSync};
    ghost use Rattle.heesch_cert.specs.Limits.{AreLimits};
    ghost use Rattle.heesch_grid.specs.Names.{geometry_of};
    ghost use Rattle.heesch_outer_check.specs.Rounds.{AreListed, IsBlockAnswer};

    ghost accepts = { λ _ _. true };

    ghost gives = { λ s number holds. IfOk holds
        (IsBlockAnswer s.header s.blocks.now (number - s.first) number) };

    ghost ready = { λ s. IsSync R.row × AreLimits s.header.limits × (geometry_of s.header.grid ≡ G.geometry)
        × AreListed G.geometry s.header.subject s.shapes.now };

    fn answer(&self, number: u32) -> Result<bool, NoMemory> {
        let behind = number.saturating_sub(self.first);
        match self.blocks.get(behind as usize) {
            Some(block) => is_good::<G, R>(
                &self.rt,
                self.alloc,
                &self.header,
                self.shapes,
                number,
                block.as_slice(),
            ),
            None => Ok(false),
        }
    }
}

/// Whether each of the blocks is a good record behind so many records and the blocks before it. One ticket of the pool
/// is one block, and the gate is told its number, from `before` on.
pub(crate) fn answers_of<G: Grid + Send + Sync, T: Threads + Sync, H: Gate + Sync>(
    crew: &Crew<'_, T, H>,
    header: &Header,
    shapes: &[Shape<G>],
    before: u32,
    blocks: &[Seq<u8>],
) -> Result<Vec<bool>, NoMemory>
    requires grid { geometry_of header.now.grid ≡ G.geometry }
    requires limits { AreLimits header.now.limits }
    requires shapes { AreListed G.geometry header.now.subject shapes.now }
    requires room { before + length blocks.now < 2 ^ 32 }
    ensures many { IfOk result (λ answers. vec_len answers ≡ length blocks.now) }
    ensures answers { IfOk result (λ answers. AreAnswers header.now before blocks.now answers.items) }
{
    let handle = SharedHandle { rt: crew.rt };
    let crew = Crew::new(&handle, crew.alloc, crew.workers, crew.gate);
    judged::<G, SharedHandle<'_, T>, H>(&crew, header, shapes, before, blocks)
}

/// The same over a runtime that is copied.
fn judged<G: Grid + Send + Sync, R: Threads + Sync + Copy, H: Gate + Sync>(
    crew: &Crew<'_, R, H>,
    header: &Header,
    shapes: &[Shape<G>],
    before: u32,
    blocks: &[Seq<u8>],
) -> Result<Vec<bool>, NoMemory>
    requires grid { geometry_of header.now.grid ≡ G.geometry }
    requires limits { AreLimits header.now.limits }
    requires shapes { AreListed G.geometry header.now.subject shapes.now }
    requires room { before + length blocks.now < 2 ^ 32 }
    ensures many { IfOk result (λ answers. vec_len answers ≡ length blocks.now) }
    ensures answers { IfOk result (λ answers. AreAnswers header.now before blocks.now answers.items) }
{
    let end = before + blocks.len() as u32;
    let job = Job::new(
        RecordOf {
            rt: *crew.rt,
            alloc: crew.alloc,
            blocks,
            first: before,
            header: *header,
            shapes,
        },
        end,
    );
    crew.run_span(&job, before, end)
}

/// How many of the answers from the first on say that a record is good.
pub(crate) fn leading(answers: &[bool]) -> usize
    ensures first { result ≡ position_or_len not answers.now }
    ensures few { result ≤ length answers.now }
{
    for (index, holds) in answers.iter().enumerate() {
        if !*holds {
            return index;
        }
    }
    answers.len()
}
