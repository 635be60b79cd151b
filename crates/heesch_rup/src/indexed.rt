//! A formula with its clauses listed, so that it tells whether a clause is new.
ghost use Rattle.std.specs.Prelude.{◌≡◌, IfOk};

use crate::occurrences::{Occurrences, occurrences_of};
use heesch_cnf::{ClauseSource, FlatFormula, Left, Lit, NewnessSource};
use heesch_io::NoMemory;
use std::alloc::Global;
use std::marker::Model;

/// A formula, all of whose clauses are listed. Contracts see the formula.
#[derive(Drop)]
pub struct IndexedFormula<'a> {
    formula: &'a FlatFormula,
    listed: Occurrences,
}

impl<'a> Model for IndexedFormula<'a> {
    ghost use Rattle.heesch_cnf.specs.Flat.{Clauses};
    ghost use Rattle.heesch_rup.specs.Listed.{AreAllListed};

    ghost Value = { Clauses };

    ghost view = { λ i. i.formula.now };

    ghost invariant = { λ i. AreAllListed i.formula.now i.listed };
}

impl<'a> IndexedFormula<'a> {
    /// The formula, with its clauses listed by the literals that lines have least often. It reads each clause once.
    pub fn of(
        alloc: Global,
        formula: &'a FlatFormula,
        lines: &FlatFormula,
    ) -> Result<IndexedFormula<'a>, NoMemory>
        requires { lines.now.vars ≡ formula.now.vars }
        ensures { IfOk result (λ i. i ≡ formula.now) }
    {
        // Reading the number of the variables tells the proof that the clauses are over them.
        let _vars = formula.vars();
        let listed = occurrences_of(alloc, formula, formula.len(), lines)?;
        Ok(IndexedFormula { formula, listed })
    }
}

impl ClauseSource for IndexedFormula<'_> {
    ghost listed = { λ i. i };

    fn vars(&self) -> u32 {
        self.formula.vars()
    }

    fn count(&self) -> usize {
        self.formula.len()
    }

    fn left(&self, number: u32, values: &[Option<bool>]) -> Left {
        self.formula.left(number, values)
    }
}

impl NewnessSource for IndexedFormula<'_> {
    fn is_new(&self, clause: &[Lit], values: &[Option<bool>]) -> bool {
        let count = self.formula.len();
        !self
            .listed
            .contains_listed(values, self.formula, count, clause)
    }
}
