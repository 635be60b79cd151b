//! Workers.
ghost use Rattle.std.specs.Prelude.{◌≡◌, ◌≤◌, ◌+◌, ◌++◌, ℕ, List, OnOk, IfOk, OnErr, true};
ghost use Rattle.heesch_claims.specs.Board.{BelongsTo, IsSamePlace};
ghost use Rattle.heesch_pool.specs.Pool.{tickets_of, AnswersEach};

use crate::gate::Gate;
use crate::job::{Answer, Job};
use heesch_claims::{Board, Seat};
use heesch_io::NoMemory;
use std::alloc::Global;

/// One worker: draws tickets until there is none, and answers the number `from + t` for each ticket t.
///
/// `Ok`: the seat is ended, and the pairs have just the tickets that it gained in this call, in order, each with an
/// answer. The gate is told `worker` and `from + t` before each answer. After `NoMemory` the seat keeps what it drew.
///
/// Beside the answers it costs one `fetch_add` and one push for each ticket.
pub fn work<T: Send + Sync + Drop, W: Answer<T> + Sync, H: Gate + Sync>(
    alloc: Global,
    job: &Job<T, W>,
    from: u32,
    board: &Board,
    seat: &mut Seat,
    worker: u32,
    gate: &H,
) -> Result<Vec<(u32, T)>, NoMemory>
    requires seat { BelongsTo seat.old board.now }
    requires span { from + board.now.count ≤ job.now.count }
    requires work { W.ready job.now.work }
    ensures place { IsSamePlace seat.old seat.new × (seat.new.shares ≡ seat.old.shares) }
    ensures ended { OnOk result (seat.new.ended ≡ true) }
    ensures gained { IfOk result (λ pairs. seat.new.tickets ≡ seat.old.tickets ++ tickets_of pairs.items) }
    ensures answers { IfOk result (λ pairs. AnswersEach (W.gives job.now.work) from pairs.items) }
    ensures kept { OnErr result ((gained : List ℕ) × (seat.new.tickets ≡ seat.old.tickets ++ gained)) }
{
    let mut pairs = Vec::new(alloc);
    while let Some(ticket) = board.draw(seat) {
        let number = from + ticket;
        gate.pass(worker, number);
        let item = job.work.answer(number)?;
        pairs.push((ticket, item))?;
    }
    Ok(pairs)
}
