//! Clauses that are known by their numbers, and need not stand anywhere.
ghost use Rattle.std.specs.Prelude.{◌≡◌, ◌<◌, ◌≤◌, ◌^◌, All, IsTrue, ◌↔◌, length};
ghost use Rattle.heesch_cnf.specs.Clauses.{AreClauses, IsClause, IsNew};
ghost use Rattle.heesch_cnf.specs.Flat.{Clauses};
ghost use Rattle.heesch_cnf.specs.Left.{FitsIn, IsLeft};
ghost use Rattle.heesch_cnf.specs.Lines.{IsNumber, numbered, refuting};
ghost use Rattle.heesch_cnf.specs.Literals.{held};

use crate::values::is_false;
use crate::{FlatFormula, Left, Lit, PackedLit};

/// The clauses of a formula, by their numbers from 1. They may stand somewhere, or be made from their numbers.
pub trait ClauseSource {
    /// The clauses, and the number of the variables.
    ghost listed: { Self → Clauses };

    /// The number of the variables. It takes a fixed number of steps.
    fn vars(&self) -> u32
        ensures vars { result ≡ (listed self.now).vars }
        ensures small { result < 2 ^ 31 }
        ensures form { AreClauses (listed self.now).vars (listed self.now).clauses };

    /// The number of the clauses. It takes a fixed number of steps.
    fn count(&self) -> usize
        ensures count { result ≡ length (listed self.now).clauses }
        ensures few { result ≤ 2 ^ 31 };

    /// The literals of the clause of a number that aren't false. It takes no memory.
    fn left(&self, number: u32, values: &[Option<bool>]) -> Left
        requires number { IsNumber (listed self.now).clauses number }
        requires room { (listed self.now).vars < length values.now }
        ensures { IsLeft (held values.now) (numbered (listed self.now).clauses number) result };
}

/// Clauses of which it can be told whether a further one is new.
pub trait NewnessSource: ClauseSource {
    /// Whether a clause contains, as a set of literals, none of the clauses. The values make its literals false, and
    /// no others. It takes no memory.
    fn is_new(&self, clause: &[Lit], values: &[Option<bool>]) -> bool
        requires form { IsClause (Self.listed self.now).vars clause.now }
        requires room { (Self.listed self.now).vars < length values.now }
        requires refuted { held values.now ≡ refuting clause.now }
        ensures { IsTrue result ↔ IsNew (Self.listed self.now).clauses clause.now };
}

/// The literals of the clause that aren't false.
pub fn left_in_packed(values: &[Option<bool>], clause: &[PackedLit]) -> Left
    requires { FitsIn values.now clause.now }
    ensures { IsLeft (held values.now) clause.now result }
{
    let mut left = None;
    for packed in clause {
        let lit = packed.lit();
        if !is_false(values, lit) {
            if left.is_some() {
                return Left::More;
            }
            left = Some(lit);
        }
    }
    match left {
        None => Left::Nothing,
        Some(lit) => Left::One(lit),
    }
}

impl ClauseSource for FlatFormula {
    ghost listed = { λ formula. formula };

    fn vars(&self) -> u32 {
        self.vars()
    }

    fn count(&self) -> usize {
        self.len()
    }

    fn left(&self, number: u32, values: &[Option<bool>]) -> Left {
        // Reading the number of the variables tells the proof that the clauses are over them.
        let _vars = self.vars();
        left_in_packed(values, self.clause(number as usize - 1))
    }
}
