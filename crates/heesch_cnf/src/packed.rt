//! A literal in 32 bits.
ghost use Rattle.std.specs.Prelude.{◌≡◌, ◌<◌, ◌≤◌, ◌^◌, Bool};
ghost use Rattle.heesch_cnf.specs.Flat.{code_of};
ghost use Rattle.heesch_cnf.specs.Literals.{opposite};

use crate::Lit;
use std::marker::Model;

/// A literal in 32 bits: twice its variable, and one more where it is positive. Contracts see the literal.
#[derive(Debug, Clone, Copy, PartialEq, Eq)]
pub struct PackedLit {
    code: u32,
}

impl Model for PackedLit {
    ghost use Rattle.heesch_cnf.specs.declared.literal.Lit.{Lit};
    ghost use Rattle.heesch_cnf.specs.Flat.{code_of, literal_of};

    ghost Value = { Lit };

    ghost view = { λ p. literal_of p.code };

    ghost inverse = { λ l. record { code = code_of l } };
}

impl PackedLit {
    /// The literal, packed. Condition: its variable is below 2^31.
    pub fn of(lit: Lit) -> PackedLit
        requires { lit.var < 2 ^ 31 }
        ensures { result ≡ lit }
    {
        PackedLit {
            code: 2 * lit.var + lit.positive as u32,
        }
    }

    /// The literal.
    pub fn lit(self) -> Lit
        ensures { result ≡ self }
    {
        Lit {
            var: self.var(),
            positive: self.is_positive(),
        }
    }

    /// Its variable.
    pub fn var(self) -> u32
        ensures is { result ≡ self.var }
        ensures small { result < 2 ^ 31 }
    {
        self.code / 2
    }

    /// Whether it is its variable, and not the negation.
    pub fn is_positive(self) -> bool
        ensures { result ≡ self.positive }
    {
        self.code % 2 == 1
    }

    /// Its number: twice the variable, and one more where it is positive.
    pub fn code(self) -> usize
        ensures is { result ≡ code_of self }
        ensures small { result < 2 ^ 32 }
    {
        self.code as usize
    }

    /// The literal of the same variable with the other sign.
    pub fn opposite(self) -> PackedLit
        ensures { result ≡ opposite self }
    {
        PackedLit {
            code: self.code ^ 1,
        }
    }
}
