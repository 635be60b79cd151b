//! How the lines of a log are split into chunks.
ghost use Rattle.std.specs.Prelude.{ℕ, ◌*◌, ◌<◌, IfOk};
ghost use Rattle.std.specs.Int.{div_ceil};
ghost use Rattle.std.specs.List.{AllZip, range_with_len};

use heesch_io::NoMemory;
use rayon::prelude::*;
use std::alloc::Global;
use std::thread::Threads;

/// The shortest log whose lines are split among threads, by chunks. A shorter one isn't worth them. Lines over 110
/// variables took 0.8 microseconds each in turn. On busy processors, where threads wait for their turn, 1,024 of them
/// took 0.59 ms in turn and 0.75 at best by chunks of 256, and 4,096 took 3.3 ms and 5.3; on free ones it isn't
/// measured yet.
pub const LEAST_SPLIT: usize = 4096;

/// How many consecutive lines one chunk has. The last chunk may have fewer.
pub const CHUNK: usize = 1024;

/// What is answered of each chunk of so many lines, in order, in as many threads as there are processors. Chunks count
/// from 0.
pub fn by_chunks<
    R: Threads + Sync,
    T: Send + Drop,
    F: Fn(usize) -> Result<T, NoMemory> + Copy + Send + Sync,
>(rt: &R, alloc: Global, count: usize, answer: F) -> Result<Vec<Result<T, NoMemory>>, NoMemory>
    requires callable { (chunk : ℕ) → chunk * 1024 < count → F.pre answer chunk }
    ensures { IfOk result (λ found. AllZip (F.post answer) (range_with_len 0 (div_ceil count 1024)) found.items) }
{
    let found = (0..count.div_ceil(CHUNK))
        .into_par_iter()
        .map(answer)
        .with_min_len(1)
        .collect::<Vec<_>>(rt, alloc)?;
    Ok(found)
}
