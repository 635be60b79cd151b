//! A job run by workers.
ghost use Rattle.std.specs.Prelude.{◌≡◌, ◌≤◌, ◌<◌, ◌+◌, ℕ, true, All, Contains, IfOk, Some, slice_get, vec_len};
ghost use Rattle.heesch_claims.specs.Machine.{times};
ghost use Rattle.heesch_claims.specs.Board.{BelongsTo};
ghost use Rattle.heesch_pool.specs.Pool.{AnswersFrom, shares_of, stands_with, tickets_of};

use crate::crew::Crew;
use crate::gate::Gate;
use crate::gather::gather;
use crate::job::{Answer, Job};
use crate::order::in_order;
use crate::seats::{deal, reunite};
use heesch_claims::{Board, Seat};
use heesch_io::NoMemory;
use std::alloc::Global;
use std::thread::Threads;

impl<'a, R: Threads + Sync, H: Gate + Sync> Crew<'a, R, H> {
    /// The answers on the numbers from `from` to before `until`, in order, by as many workers as told, or by one for
    /// each number where these are fewer: a thread that finds no ticket would only cost its making.
    ///
    /// Item i is an answer of the job's work on `from + i`. Each worker is one call of `work`. The last is in the
    /// caller's thread, which starts a thread for each other, or does its part where no thread can be made. `NoMemory`
    /// comes where memory was refused, or where an answer was `NoMemory`; then no item comes.
    ///
    /// Beside the answers it costs one `fetch_add` and three moves for each item, and a split and a join for each
    /// worker.
    pub fn run_span<T: Send + Sync + Drop, W: Answer<T> + Sync>(
        &self,
        job: &Job<T, W>,
        from: u32,
        until: u32,
    ) -> Result<Vec<T>, NoMemory>
        requires span { (from ≤ until) × (until ≤ job.now.count) }
        requires work { W.ready job.now.work }
        ensures len { IfOk result (λ items. from + vec_len items ≡ until) }
        ensures answers { IfOk result (λ items. AnswersFrom (W.gives job.now.work) from items.items) }
    {
        let (items, ()) = self.run_span_behind(job, from, until, &mut || ());
        items
    }

    /// The same as `run_span`, where the caller's thread does what is done `first` before it draws a number as one of
    /// the workers. The others work meanwhile, so one worker or one number has no other. At `NoMemory` it is done too.
    ///
    /// What is done first need not be `Send`. What it leaves in what it borrows is known.
    pub fn run_span_behind<T: Send + Sync + Drop, W: Answer<T> + Sync, A, F: FnMut() -> A>(
        &self,
        job: &Job<T, W>,
        from: u32,
        until: u32,
        first: &mut F,
    ) -> (Result<Vec<T>, NoMemory>, A)
        requires span { (from ≤ until) × (until ≤ job.now.count) }
        requires work { W.ready job.now.work }
        requires first { F.pre first.old }
        ensures len { IfOk result.0 (λ items. from + vec_len items ≡ until) }
        ensures answers { IfOk result.0 (λ items. AnswersFrom (W.gives job.now.work) from items.items) }
        ensures first { F.step first.old result.1 first.new }
    {
        let count = until - from;
        let workers = self.workers.min(count.max(1));
        let (board, mut seats) = match deal(self.alloc, count, workers) {
            Ok(dealt) => dealt,
            Err(refused) => return (Err(refused), first()),
        };
        let (pairs, done) = gather(
            self.rt, self.alloc, job, from, &board, 0, self.gate, first, &mut seats,
        );
        match pairs {
            Ok(pairs) => (items_of(self.alloc, board, seats, pairs), done),
            Err(refused) => (Err(refused), done),
        }
    }

    /// The answers on each number below the job's count, in order: `run_span` from 0.
    pub fn run_all<T: Send + Sync + Drop, W: Answer<T> + Sync>(
        &self,
        job: &Job<T, W>,
    ) -> Result<Vec<T>, NoMemory>
        requires work { W.ready job.now.work }
        ensures len { IfOk result (λ items. vec_len items ≡ job.now.count) }
        ensures answers { IfOk result (λ items. AnswersFrom (W.gives job.now.work) 0 items.items) }
    {
        self.run_span(job, 0, job.count)
    }
}

/// The items in the order of their tickets, where all workers went to their end.
fn items_of<T: Drop>(
    alloc: Global,
    mut board: Board,
    seats: Vec<Seat>,
    pairs: Vec<(u32, T)>,
) -> Result<Vec<T>, NoMemory>
    requires ended { All (λ s. BelongsTo s board × (s.ended ≡ true)) seats.items }
    requires some { 0 < vec_len seats }
    requires whole { shares_of seats.items ≡ 64 }
    requires claimed { (x : ℕ) → stands_with x seats.items ≡ times x (tickets_of pairs.items) }
    ensures len { IfOk result (λ items. vec_len items ≡ board.count) }
    ensures placed { IfOk result
        (λ items. (i : ℕ) (x : T) → slice_get items.items i ≡ Some x → Contains pairs.items (i, x)) }
{
    let Some(seat) = reunite(&mut board, seats) else {
        unreachable!()
    };
    let count = board.count();
    let _drawn = board.close(seat);
    in_order(alloc, count, pairs)
}
