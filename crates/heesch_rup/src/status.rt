//! What a clause comes to under values.
ghost use Rattle.std.specs.Prelude.{◌<◌, All, length, IsTrue, ◌↔◌};
ghost use Rattle.heesch_cnf.specs.Literals.{held};
ghost use Rattle.heesch_rup.specs.Listed.{IsFalsified};

use heesch_cnf::{Lit, PackedLit, value_of};

/// What a clause comes to under an assignment.
#[derive(Debug, Clone, Copy)]
pub enum Status {
    /// All literals are false.
    Falsified,
    /// This literal is open, and all others are false.
    Unit(Lit),
    /// A literal is true, or two are open.
    Other,
}

/// Whether all literals of the clause are false. It reads the literals up to the first that isn't.
pub fn is_falsified(values: &[Option<bool>], clause: &[PackedLit]) -> bool
    requires { All (λ l. l.var < length values.now) clause.now }
    ensures { IsTrue result ↔ IsFalsified (held values.now) clause.now }
{
    clause.iter().all(|packed| matches!(value_of(values, packed.lit()), Some(false)))
}
