//! What workers do at once, what is claimed first, and what a gate is told.
use crate::{Answer, Crew, Gate, Job, Open, work};
use heesch_claims::Board;
use heesch_io::NoMemory;
use std::sync::atomic::{AtomicU64, Ordering};
use std::test::Fail;
use std::thread;

/// Answers the half of each number, but for one that it refuses.
#[derive(Drop)]
struct Halves {
    refused: Option<u32>,
}

impl Answer<u32> for Halves {
    ghost use Rattle.std.specs.Prelude.{⊤, true, IfOk, ◌≡◌, ◌/◌};

    ghost accepts = { λ _ _. true };

    ghost gives = { λ _ i r. IfOk r (λ x. x ≡ i / 2) };

    ghost ready = { λ _. ⊤ };

    fn answer(&self, number: u32) -> Result<u32, NoMemory> {
        if self.refused == Some(number) {
            return Err(NoMemory);
        }
        Ok(number / 2)
    }
}

/// Holds one ticket until so many others have passed, for so many turns at most.
struct Hold {
    held: u32,
    others: u64,
    turns: u64,
    passed: AtomicU64,
    expired: AtomicU64,
}

impl Hold {
    fn new(held: u32, others: u64, turns: u64) -> Hold {
        Hold {
            held,
            others,
            turns,
            passed: AtomicU64::new(0),
            expired: AtomicU64::new(0),
        }
    }

    /// Whether so many others pass, within the turns that any thread may need.
    fn have_passed(&self, others: u64) -> bool {
        for _ in 0..TURNS {
            if self.passed.load(Ordering::SeqCst) >= others {
                return true;
            }
            thread::yield_now();
        }
        false
    }

    fn has_expired(&self) -> bool {
        self.expired.load(Ordering::SeqCst) != 0
    }
}

impl Gate for Hold {
    fn pass(&self, _worker: u32, ticket: u32) {
        if ticket != self.held {
            self.passed.fetch_add(1, Ordering::SeqCst);
            return;
        }
        for _ in 0..self.turns {
            if self.passed.load(Ordering::SeqCst) >= self.others {
                return;
            }
            thread::yield_now();
        }
        self.expired.store(1, Ordering::SeqCst);
    }
}

impl Drop for Hold {
    fn drop(self) {
        let Self {
            held: _,
            others: _,
            turns: _,
            passed: _,
            expired: _,
        } = self;
    }
}

/// Notes each number as a bit with the worker that it is told, and holds the first until both workers have come.
struct Told {
    by_first: AtomicU64,
    by_second: AtomicU64,
    by_others: AtomicU64,
}

impl Told {
    fn new() -> Told {
        Told {
            by_first: AtomicU64::new(0),
            by_second: AtomicU64::new(0),
            by_others: AtomicU64::new(0),
        }
    }

    /// The sums of the bits that the first worker was told, the second, and any other.
    fn notes(&self) -> (u64, u64, u64) {
        (
            self.by_first.load(Ordering::SeqCst),
            self.by_second.load(Ordering::SeqCst),
            self.by_others.load(Ordering::SeqCst),
        )
    }
}

impl Gate for Told {
    fn pass(&self, worker: u32, ticket: u32) {
        let bit = 1u64.checked_shl(ticket).unwrap_or(0);
        let notes = match worker {
            0 => &self.by_first,
            1 => &self.by_second,
            _ => &self.by_others,
        };
        notes.fetch_add(bit, Ordering::SeqCst);
        for _ in 0..TURNS {
            let (first, second, _) = self.notes();
            if first != 0 && second != 0 {
                return;
            }
            thread::yield_now();
        }
    }
}

impl Drop for Told {
    fn drop(self) {
        let Self {
            by_first: _,
            by_second: _,
            by_others: _,
        } = self;
    }
}

/// Long enough for any thread to come to its turn.
const TURNS: u64 = 200_000_000;

#[test]
fn two_workers_run_at_once(rt: HostRuntime) -> Result<(), Fail> {
    let job = Job::new(Halves { refused: None }, 2);
    let gate = Hold::new(0, 1, TURNS);
    let items = Crew::new(&rt, rt.alloc(), 2, &gate).run_all(&job)?;
    assert!(rt; items.as_slice() == [0, 0].as_slice());
    assert!(rt; !gate.has_expired());
    Ok(())
}

/// One worker claims ticket 0 first, and no other ticket passes while it is held.
#[test]
fn one_worker_lets_the_gate_expire(rt: HostRuntime) -> Result<(), Fail> {
    let job = Job::new(Halves { refused: None }, 2);
    let gate = Hold::new(0, 1, 1_000);
    let items = Crew::new(&rt, rt.alloc(), 1, &gate).run_all(&job)?;
    assert!(rt; items.as_slice() == [0, 0].as_slice());
    assert!(rt; gate.has_expired());
    Ok(())
}

#[test]
fn workers_claim_as_they_come_free(rt: HostRuntime) -> Result<(), Fail> {
    let job = Job::new(Halves { refused: None }, 8);
    for held in 0..8 {
        let gate = Hold::new(held, 7, TURNS);
        let items = Crew::new(&rt, rt.alloc(), 2, &gate).run_all(&job)?;
        assert!(rt; items.as_slice() == [0, 0, 1, 1, 2, 2, 3, 3].as_slice());
        assert!(rt; !gate.has_expired(), "ticket {held}");
    }
    Ok(())
}

/// The gate is told each number of the span once, by the worker that claimed it.
#[test]
fn the_gate_is_told_workers_and_numbers(rt: HostRuntime) -> Result<(), Fail> {
    let job = Job::new(Halves { refused: None }, 10);
    let gate = Told::new();
    let items = Crew::new(&rt, rt.alloc(), 2, &gate).run_span(&job, 4, 9)?;
    assert!(rt; items.as_slice() == [2, 2, 3, 3, 4].as_slice());
    let (first, second, others) = gate.notes();
    assert!(rt; first != 0 && second != 0 && others == 0);
    assert!(rt; first.checked_add(second) == Some(0b1_1111_0000));
    Ok(())
}

#[test]
fn others_work_while_the_caller_does_something_else(rt: HostRuntime) -> Result<(), Fail> {
    let job = Job::new(Halves { refused: None }, 8);
    let gate = Hold::new(8, 0, 0);
    let (items, have_passed) = Crew::new(&rt, rt.alloc(), 2, &gate).run_span_behind(
        &job,
        0,
        8,
        &mut || gate.have_passed(8),
    );
    assert!(rt; items?.as_slice() == [0, 0, 1, 1, 2, 2, 3, 3].as_slice());
    assert!(rt; have_passed);
    Ok(())
}

/// The last worker is the caller's thread. The gate holds the other until it has drawn a number.
#[test]
fn the_caller_works_once_it_has_done_something_else(rt: HostRuntime) -> Result<(), Fail> {
    let job = Job::new(Halves { refused: None }, 10);
    let gate = Told::new();
    let (items, ()) = Crew::new(&rt, rt.alloc(), 2, &gate).run_span_behind(&job, 4, 9, &mut || ());
    assert!(rt; items?.as_slice() == [2, 2, 3, 3, 4].as_slice());
    let (first, second, others) = gate.notes();
    assert!(rt; first != 0 && second != 0 && others == 0);
    assert!(rt; first.checked_add(second) == Some(0b1_1111_0000));
    Ok(())
}

#[test]
fn a_refusal_of_one_ticket_refuses_all(rt: HostRuntime) -> Result<(), Fail> {
    let job = Job::new(Halves { refused: Some(5) }, 8);
    for workers in [1, 3, 8] {
        assert!(rt;
            Crew::new(&rt, rt.alloc(), workers, &Open)
                .run_all(&job)
                .is_err(),
            "{workers} workers"
        );
    }
    Ok(())
}

#[test]
fn a_span_begins_where_it_is_told(rt: HostRuntime) -> Result<(), Fail> {
    let job = Job::new(Halves { refused: None }, 10);
    let items = Crew::new(&rt, rt.alloc(), 3, &Open).run_span(&job, 4, 9)?;
    assert!(rt; items.as_slice() == [2, 2, 3, 3, 4].as_slice());
    assert!(rt;
        Crew::new(&rt, rt.alloc(), 64, &Open)
            .run_span(&job, 9, 9)?
            .is_empty()
    );
    Ok(())
}

#[test]
fn one_seat_claims_in_order(rt: HostRuntime) -> Result<(), Fail> {
    let job = Job::new(Halves { refused: None }, 3);
    let (board, mut seat) = Board::new(rt.alloc(), 3)?;
    let pairs = work(rt.alloc(), &job, 0, &board, &mut seat, 0, &Open)?;
    assert!(rt; pairs.as_slice() == [(0, 0), (1, 0), (2, 1)].as_slice());
    let drawn = board.close(seat);
    assert!(rt; drawn.shares == 64 && drawn.ended);
    Ok(())
}
