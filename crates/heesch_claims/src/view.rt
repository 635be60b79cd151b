//! What a seat knows, and how its knowledge changes.
ghost use Rattle.std.specs.Prelude.{ℕ};
ghost use Rattle.heesch_claims.specs.Machine.{IsReached};
ghost use Rattle.heesch_claims.specs.Views.{TableState, word_of, shown_by, MeetsSixPoints, BoardIsMachine};

use atomic_table::{Join, Play, Split, TableRule};
use std::collections::LinkedList;

/// What a seat at the table knows. No value of it is made: views stand in proofs alone.
pub struct View {
    pub count: u32,
    pub tickets: LinkedList<u32>,
    pub shares: u32,
    pub ended: bool,
    /// How often it drew past the end.
    pub past: u32,
}

/// The rule of a board's table, which holds between any two steps: `IsBoard`, which has the six points.
pub struct Claiming;

impl TableRule<(), View, u32> for Claiming {
    ghost use Rattle.heesch_claims.specs.Views.{IsBoard, first_view};

    ghost holds = { IsBoard };

    ghost first = { first_view };
}

/// A seat gives one share to a new one.
pub struct GiveShare;

impl Split<View> for GiveShare {
    ghost use Rattle.heesch_claims.specs.Views.{lesser_view, newcomer_view};

    ghost left = { lesser_view };

    ghost right = { newcomer_view };
}

/// A seat takes in another.
pub struct TakeIn;

impl Join<View> for TakeIn {
    ghost use Rattle.heesch_claims.specs.Views.{joined_view, spent_view};

    ghost both = { joined_view };

    ghost spent = { spent_view };
}

/// A seat claims the next number, or finds that there is none.
pub struct Claim;

impl Play<(), View> for Claim {
    ghost use Rattle.heesch_claims.specs.Views.{drawn};

    ghost then = { drawn };
}

/// A seat looks at the word, and learns how many shares it has at most.
pub struct Look;

impl Play<(), View> for Look {
    ghost use Rattle.heesch_claims.specs.Views.{looked};

    ghost then = { looked };
}

/// The law of the board. What its table keeps between any two steps are the six points, of a state that the machine
/// reaches. Making the table gives the first state of the machine, and each split, draw and join, from whatever state
/// it finds, keeps the rule and is the machine's event for its own seats.
pub fn board_is_machine()
    ensures points { (count : ℕ) (s : TableState) → ⟦<Claiming as TableRule<(), View, u32>>⟧.holds count s
        → MeetsSixPoints count (word_of s) s.views }
    ensures reached { (count : ℕ) (s : TableState) → ⟦<Claiming as TableRule<(), View, u32>>⟧.holds count s
        → IsReached (shown_by count s) }
    ensures machine { BoardIsMachine }
{}
