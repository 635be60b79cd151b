//! Where the clauses of a formula go.
ghost use Rattle.std.specs.Prelude.{◌≡◌, ◌<◌, ◌^◌, ◌∷◌, []};
ghost use Rattle.heesch_cnf.specs.Clauses.{IsClause};

use crate::stop::EncodeStop;
use heesch_cnf::{FlatFormula, PackedLit};
use std::alloc::Global;

/// The most clauses of a formula.
const CLAUSES_MAX: usize = 1 << 31;

/// Takes clauses one after the other while there is room for their literals.
#[derive(Drop)]
pub(crate) struct Collector {
    pub formula: FlatFormula,
    /// How many more literals it takes.
    pub room: u32,
}

impl Collector {
    ghost use Rattle.heesch_encode.specs.Taking.{IsTaken};

    /// Without a clause.
    pub fn new(alloc: Global, vars: u32, room: u32) -> Collector
        requires { vars < 2 ^ 31 }
        ensures vars { result.formula.vars ≡ vars }
        ensures clauses { result.formula.clauses ≡ [] }
        ensures room { result.room ≡ room }
    {
        Collector {
            formula: FlatFormula::new(alloc, vars),
            room,
        }
    }

    /// Takes the clause. `TooLarge` exactly where its literals find no room. A formula that has its most clauses
    /// counts as want of memory.
    pub fn take(&mut self, clause: &[PackedLit]) -> Result<(), EncodeStop>
        requires { IsClause self.old.formula.vars clause.now }
        ensures { IsTaken result self.old self.new (clause.now ∷ []) }
    {
        if clause.len() > self.room as usize {
            return Err(EncodeStop::TooLarge);
        }
        if self.formula.len() >= CLAUSES_MAX {
            return Err(EncodeStop::NoMemory);
        }
        self.formula.add_packed(clause)?;
        self.room -= clause.len() as u32;
        Ok(())
    }
}
