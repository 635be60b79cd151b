//! A formula as a list of clauses.
ghost use Rattle.std.specs.Prelude.{◌≡◌, ◌<◌, ◌≤◌, ◌^◌, [], ◌∷◌, ◌++◌, length, OnOk, OnErr, sum_by};
ghost use Rattle.heesch_cnf.specs.Clauses.{IsClause, AreClauses};

use crate::Lits;
use heesch_io::{NoMemory, Seq};
use std::alloc::Global;

/// At most 2^31 clauses over the variables 1 to `vars`, each with strictly rising variables. They are numbered from 1.
#[derive(Drop)]
pub struct Formula {
    pub vars: u32,
    pub clauses: Seq<Lits>,
    ghost few: { length clauses ≤ 2 ^ 31 },
    ghost well_formed: { AreClauses vars clauses },
}

impl Formula {
    /// A formula without clauses. It takes no memory.
    pub fn new(alloc: Global, vars: u32) -> Self
        ensures vars { result.vars ≡ vars }
        ensures clauses { result.clauses ≡ [] }
    {
        Formula {
            vars,
            clauses: Seq::new(alloc),
        }
    }

    /// The clause stands last, or nothing has changed. Its cost is that of `Seq::push`.
    pub fn add(&mut self, clause: Lits) -> Result<(), NoMemory>
        requires form { IsClause self.old.vars clause }
        requires room { length self.old.clauses < 2 ^ 31 }
        ensures vars { self.new.vars ≡ self.old.vars }
        ensures ok { OnOk result (self.new.clauses ≡ self.old.clauses ++ clause ∷ []) }
        ensures err { OnErr result (self.new.clauses ≡ self.old.clauses) }
    {
        self.clauses.push(clause)?;
        Ok(())
    }

    /// The number of literals, summed over the clauses. It takes no memory, and a step for each clause.
    pub fn literals(&self) -> u64
        ensures { result ≡ sum_by length self.now.clauses }
    {
        // A clause has at most `vars` literals, and reading `vars` tells the proof that this is below 2^32.
        let _vars = self.vars;
        let mut count = 0;
        for clause in self.clauses.as_slice() {
            count += clause.len() as u64;
        }
        count
    }
}
