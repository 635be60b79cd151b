//! The board that runs the machine among threads.
ghost use Rattle.std.specs.Prelude.{◌≡◌, ◌<◌, ◌≤◌, ◌+◌, ◌-◌, ◌^◌, ◌||◌, ℕ, [], ◌∷◌, ◌++◌, IfOk, OnErr, IfSome, IfNone};
ghost use Rattle.std.specs.Prelude.{IsNone, true, false};
ghost use Rattle.heesch_claims.specs.Machine.{times};
ghost use Rattle.heesch_claims.specs.Board.{BelongsTo, IsSamePlace, DrawsAsMachine, EachOnceBelow};

use crate::view::{Claim, Claiming, GiveShare, Look, TakeIn, View};
use atomic_table::Table;
use heesch_io::NoMemory;
use std::alloc::Global;
use std::marker::Model;

/// The first seat has all shares.
const ALL_SHARES: u32 = 64;

/// As many seats as a board may make.
const MOST_SEATS: u32 = 64;

/// Numbers below a count, to be claimed by the seats of this board.
///
/// It has one word, which is the next number to claim and changes by `fetch_add` alone. Contracts see the count and
/// how many seats were made.
#[derive(Drop)]
pub struct Board {
    table: Table<(), View, u32, Claiming, Global>,
    count: u32,
    made: u32,
}

impl Model for Board {
    ghost use Rattle.std.specs.Prelude.{◌≡◌};
    ghost use Rattle.heesch_claims.specs.Board.{BoardView, board_view};

    ghost Value = { BoardView };

    ghost view = { λ b. board_view b.table.shared.table_id b.count b.made };

    ghost invariant = { λ b. (b.table.shared.table_id.words ≡ 1) × (b.table.shared.table_id.slots ≡ 0)
        × (b.table.shared.key ≡ b.count) };
}

/// A place at a board. Contracts see the numbers that were claimed from it, its shares, and whether it is ended.
///
/// The shares of all seats of a board sum to 64. A seat is ended once it, or a seat that was joined in it, was told
/// `None`. A seat that is dropped takes its shares along.
#[derive(Drop)]
pub struct Seat {
    token: atomic_table::Seat<(), View>,
    shares: u32,
    ended: bool,
}

impl Model for Seat {
    ghost use Rattle.std.specs.Prelude.{◌≡◌, ◌<◌, []};
    ghost use Rattle.heesch_claims.specs.Board.{SeatView, seat_view};

    ghost Value = { SeatView };

    ghost view = { λ s. seat_view s.token.table_id s.token.me.0.count s.token.id s.token.me.0.tickets s.shares
        s.ended };

    ghost invariant = { λ s. (s.token.me.1 ≡ []) × (s.token.me.0.shares ≡ s.shares) × (s.token.me.0.ended ≡ s.ended)
        × (0 < s.shares) };
}

/// What a seat had when its board was closed.
#[derive(Clone, Copy, Debug, PartialEq, Eq)]
pub struct Drawn {
    pub shares: u32,
    pub ended: bool,
}

impl Board {
    /// A board whose word is 0, and its first seat, which has 64 shares and no number.
    pub fn new(alloc: Global, count: u32) -> Result<(Board, Seat), NoMemory>
        ensures board { IfOk result (λ b. (b.0.count ≡ count) × (b.0.made ≡ 1)) }
        ensures seat { IfOk result
            (λ b. BelongsTo b.1 b.0 × (b.1.tickets ≡ []) × (b.1.shares ≡ ALL_SHARES) × (b.1.ended ≡ false)) }
    {
        let (table, token) = Table::of_words(alloc, &[0], &count)?;
        let board = Board {
            table,
            count,
            made: 1,
        };
        let seat = Seat {
            token,
            shares: ALL_SHARES,
            ended: false,
        };
        Ok((board, seat))
    }

    /// How many numbers there are to claim. It takes no memory.
    pub fn count(&self) -> u32
        ensures { result ≡ self.now.count }
    {
        self.count
    }

    /// A new seat with one of the shares of `seat`, which isn't ended and has at least 2. A board makes 64 seats at
    /// most. It is one load.
    pub fn split(&mut self, seat: &mut Seat) -> Result<Seat, NoMemory>
        requires seat { BelongsTo seat.old self.old }
        requires open { seat.old.ended ≡ false }
        requires shares { 2 ≤ seat.old.shares }
        requires room { self.old.made < MOST_SEATS }
        ensures board { IfOk result (λ _. self.new ≡ record self.old { made = self.old.made + 1 }) }
        ensures giver { IfOk result (λ _. seat.new ≡ record seat.old { shares = seat.old.shares - 1 }) }
        ensures new { IfOk result (λ s. BelongsTo s self.new × (s.tickets ≡ []) × (s.shares ≡ 1) × (s.ended ≡ false)) }
        ensures err { OnErr result ((self.new ≡ self.old) × (seat.new ≡ seat.old)) }
    {
        let token = self.table.shared.split_seat::<GiveShare>(&mut seat.token);
        seat.shares -= 1;
        self.made += 1;
        Ok(Seat {
            token,
            shares: 1,
            ended: false,
        })
    }

    /// Claims the next number for the seat: `Some` of what its own `fetch_add` found, where that is below the count.
    ///
    /// `None` comes exactly where it found the count or more, or where the seat was ended before; then no second step
    /// is made. A number is above all that the seat had. It is one `fetch_add` at most, takes no memory and waits for
    /// nobody.
    pub fn draw(&self, seat: &mut Seat) -> Option<u32>
        requires { BelongsTo seat.old self.now }
        ensures place { IsSamePlace seat.old seat.new × (seat.new.shares ≡ seat.old.shares) }
        ensures ticket { IfSome result
            (λ t. (t < self.now.count) × ((x : ℕ) → 0 < times x seat.old.tickets → x < t)
            × (seat.new.tickets ≡ seat.old.tickets ++ t ∷ []) × (seat.old.ended ≡ false) × (seat.new.ended ≡ false)) }
        ensures end { IfNone result ((seat.new.tickets ≡ seat.old.tickets) × (seat.new.ended ≡ true)) }
        ensures ended { seat.old.ended ≡ true → IsNone result }
        // what is told, and what becomes of the seat, is a draw of the machine from a state that it reaches
        ensures machine { seat.old.ended ≡ false → DrawsAsMachine self.now.count seat.old result seat.new }
    {
        if seat.ended {
            return None;
        }
        let found = self.table.shared.fetch_add::<Claim>(&mut seat.token, 0, 1);
        if found < u64::from(self.count) {
            Some(found as u32)
        } else {
            seat.ended = true;
            None
        }
    }

    /// Gives `into` the numbers and the shares of `from`. It is ended where one of them was.
    ///
    /// It is two loads, takes no memory and waits for nobody.
    pub fn join(&mut self, into: &mut Seat, from: Seat)
        requires into { BelongsTo into.old self.old }
        requires from { BelongsTo from self.old }
        ensures board { self.new ≡ self.old }
        ensures into { into.new ≡ record into.old {
          tickets = into.old.tickets ++ from.tickets;
          shares = into.old.shares + from.shares;
          ended = into.old.ended || from.ended;
        } }
    {
        let Seat {
            token,
            shares,
            ended,
        } = from;
        self.table
            .shared
            .join_seat::<TakeIn>(&mut into.token, token);
        self.table.shared.load::<Look>(&mut into.token, 0);
        into.shares += shares;
        into.ended = into.ended || ended;
    }

    /// Ends the board, and tells what the seat has. A seat with all 64 shares that is ended has the numbers below the
    /// count, each once. It takes no memory and waits for nobody.
    pub fn close(self, seat: Seat) -> Drawn
        requires { BelongsTo seat self }
        ensures as_seat { (result.shares ≡ seat.shares) × (result.ended ≡ seat.ended) }
        ensures all { seat.shares ≡ ALL_SHARES → seat.ended ≡ true → EachOnceBelow self.count seat.tickets }
    {
        let Board {
            table,
            count: _,
            made: _,
        } = self;
        let Seat {
            token,
            shares,
            ended,
        } = seat;
        let closed = table.close_with(token);
        closed.free();
        Drawn { shares, ended }
    }
}
