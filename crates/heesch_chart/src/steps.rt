//! The proof that a log is.

use crate::hints::HintWriter;
use heesch_cert::{Cut, Proof, Step};
use heesch_cnf::{Lits, PackedLit};
use heesch_cover::CoverTable;
use heesch_io::{NoMemory, Seq};
use heesch_lazy::CoverLog;
use std::alloc::Global;

/// The literals as a clause of their own.
fn clause_of(alloc: Global, literals: &[PackedLit]) -> Result<Lits, NoMemory> {
    let mut clause = Vec::with_capacity(alloc, literals.len())?;
    for packed in literals {
        clause.push(packed.lit())?;
    }
    Ok(Seq::from_vec(clause))
}

/// The cut of a number, from 0, taken out of the list; none where it was taken before.
fn take_cut(cuts: &mut [Option<Cut>], number: u32) -> Option<Cut> {
    cuts.get_mut(number as usize)?.take()
}

/// A log, what its hints are written with, and the cuts that its given lines are.
#[derive(Drop)]
pub(crate) struct Transcript {
    pub table: CoverTable,
    pub log: CoverLog,
    pub writer: HintWriter,
    pub cuts: Vec<Option<Cut>>,
}

impl Transcript {
    /// The step of a line. None where a given line isn't one of the cuts.
    fn step(&mut self, alloc: Global, index: usize) -> Result<Option<Step>, NoMemory> {
        if let Some(number) = self.log.given(index) {
            let cut = take_cut(&mut self.cuts, number);
            return Ok(cut.map(|cut| Step::Cut { cut }));
        }
        let clause = clause_of(alloc, self.log.clause(index))?;
        let hints = self
            .writer
            .write(alloc, &self.table, self.log.reasons(index))?;
        Ok(Some(Step::Learn { clause, hints }))
    }

    /// The proof of the log. None where a given line isn't one of the cuts.
    pub fn into_proof(mut self, alloc: Global) -> Result<Option<Proof>, NoMemory> {
        let mut steps = Vec::with_capacity(alloc, self.log.len())?;
        for index in 0..self.log.len() {
            match self.step(alloc, index)? {
                Some(step) => steps.push(step)?,
                None => return Ok(None),
            }
        }
        let last = match self.log.last() {
            Some(reasons) => Some(self.writer.write(alloc, &self.table, reasons)?),
            None => None,
        };
        Ok(Some(Proof {
            steps: Seq::from_vec(steps),
            last,
        }))
    }
}
