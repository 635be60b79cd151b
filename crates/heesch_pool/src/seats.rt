//! The seats of a board, dealt to workers and put together again.
ghost use Rattle.std.specs.Prelude.{◌≡◌, ◌≤◌, ◌<◌, ℕ, true, IfOk, IfSome, IsSome, All, vec_len};
ghost use Rattle.heesch_claims.specs.Machine.{times};
ghost use Rattle.heesch_claims.specs.Board.{BelongsTo};
ghost use Rattle.heesch_pool.specs.Pool.{AreReady, shares_of, stands_with};

use heesch_claims::{Board, Seat};
use heesch_io::NoMemory;
use std::alloc::Global;

/// A new board of so many tickets, and a seat for each worker. Each has one share, but the last, which has the others.
pub fn deal(alloc: Global, count: u32, workers: u32) -> Result<(Board, Vec<Seat>), NoMemory>
    requires workers { (0 < workers) × (workers ≤ 64) }
    ensures count { IfOk result (λ d. d.0.count ≡ count) }
    ensures ready { IfOk result (λ d. AreReady d.0 d.1.items) }
    ensures each { IfOk result (λ d. vec_len d.1 ≡ workers) }
    ensures whole { IfOk result (λ d. shares_of d.1.items ≡ 64) }
{
    let (mut board, mut seat) = Board::new(alloc, count)?;
    let mut seats = Vec::with_capacity(alloc, workers as usize)?;
    for _ in 1..workers {
        seats.push(board.split(&mut seat)?)?;
    }
    seats.push(seat)?;
    Ok((board, seats))
}

/// Joins all seats into one. `None` comes exactly where there is none.
pub fn reunite(board: &mut Board, mut seats: Vec<Seat>) -> Option<Seat>
    requires { All (λ s. BelongsTo s board.old × (s.ended ≡ true)) seats.items }
    ensures board { board.new ≡ board.old }
    ensures some { 0 < vec_len seats → IsSome result }
    ensures place { IfSome result (λ s. BelongsTo s board.new × (s.ended ≡ true)) }
    ensures shares { IfSome result (λ s. s.shares ≡ shares_of seats.items) }
    ensures claimed { IfSome result (λ s. (x : ℕ) → times x s.tickets ≡ stands_with x seats.items) }
{
    let mut whole = seats.pop()?;
    while let Some(seat) = seats.pop() {
        board.join(&mut whole, seat);
    }
    Some(whole)
}
