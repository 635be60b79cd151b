//! Workers in threads, all started by the caller's.
ghost use Rattle.std.specs.Prelude.{◌≡◌, ◌≤◌, ◌<◌, ◌+◌, ◌^◌, ◌∷◌, [], IfOk, length};
ghost use Rattle.std.specs.Thread.{IsSync, IsSend};
ghost use Rattle.heesch_claims.specs.Board.{BelongsTo};
ghost use Rattle.heesch_pool.specs.Pool.{tickets_of, AnswersEach, AreReady, AreTogether, HaveWorked};

use crate::gate::Gate;
use crate::job::{Answer, Job};
use crate::workers::work;
use heesch_claims::{Board, Seat};
use heesch_io::NoMemory;
use std::alloc::Global;
use std::thread::{Threads, join_mut};

#[cycle(gather)]
/// One worker for each seat, counted from `worker`. The caller's thread starts a new one for each seat but the last,
/// one after another. Then it does what is done `first`, and is the last worker.
///
/// No thread starts another: where they do, each may have to wait for its turn before it starts the next.
pub fn gather<
    R: Threads + Sync,
    T: Send + Sync + Drop,
    W: Answer<T> + Sync,
    H: Gate + Sync,
    A,
    F: FnMut() -> A,
>(
    rt: &R,
    alloc: Global,
    job: &Job<T, W>,
    from: u32,
    board: &Board,
    worker: u32,
    gate: &H,
    first: &mut F,
    seats: &mut [Seat],
) -> (Result<Vec<(u32, T)>, NoMemory>, A)
    requires ready { AreReady board.now seats.old }
    requires some { 0 < length seats.old }
    requires span { from + board.now.count ≤ job.now.count }
    requires work { W.ready job.now.work }
    requires numbers { worker + length seats.old < 2 ^ 32 }
    requires first { F.pre first.old }
    ensures worked { IfOk result.0 (λ pairs. HaveWorked board.now seats.old seats.new (tickets_of pairs.items)) }
    ensures answers { IfOk result.0 (λ pairs. AnswersEach (W.gives job.now.work) from pairs.items) }
    ensures first { F.step first.old result.1 first.new }
{
    let Some((seat, rest)) = seats.split_first_mut() else {
        unreachable!()
    };
    if rest.is_empty() {
        let done = first();
        return (work(alloc, job, from, board, seat, worker, gate), done);
    }
    let mut front = || -> Result<Vec<(u32, T)>, NoMemory>
        requires { IsSync W.row × IsSync H.row × IsSend T.row × IsSync T.row × BelongsTo seat.now board.now
            × (seat.now.tickets ≡ []) × (from + board.now.count ≤ job.now.count) × W.ready job.now.work }
        ensures worked { IfOk result (λ pairs.
            HaveWorked board.entry.now (seat.entry.now ∷ []) (seat.exit.now ∷ []) (tickets_of pairs.items)) }
        ensures answers { IfOk result (λ pairs. AnswersEach (W.gives job.entry.now.work) from pairs.items) }
    { work(alloc, job, from, board, seat, worker, gate) };
    let mut back = || -> (Result<Vec<(u32, T)>, NoMemory>, A)
        requires { IsSync R.row × IsSync W.row × IsSync H.row × IsSend T.row × IsSync T.row
            × AreReady board.now rest.now × (0 < length rest.now) × (from + board.now.count ≤ job.now.count)
            × W.ready job.now.work × (worker + 1 + length rest.now < 2 ^ 32) × F.pre first.now }
        ensures worked { IfOk result.0 (λ pairs.
            HaveWorked board.entry.now rest.entry.now rest.exit.now (tickets_of pairs.items)) }
        ensures answers { IfOk result.0 (λ pairs. AnswersEach (W.gives job.entry.now.work) from pairs.items) }
        ensures first { F.step first.entry.now result.1 first.exit.now }
    { gather(rt, alloc, job, from, board, worker + 1, gate, first, rest) };
    let (low, (high, done)) = join_mut(rt, &mut front, &mut back);
    (both(low, high), done)
}

/// The pairs of both, where both went to their end. Those of the lower one are moved behind the others, so that each
/// worker's are moved once.
fn both<T: Drop>(
    low: Result<Vec<(u32, T)>, NoMemory>,
    high: Result<Vec<(u32, T)>, NoMemory>,
) -> Result<Vec<(u32, T)>, NoMemory>
    ensures { IfOk result (AreTogether low high) }
{
    let mut pairs = high?;
    pairs.append(&mut low?)?;
    Ok(pairs)
}
