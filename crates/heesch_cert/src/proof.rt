//! Proofs over corona formulas.
ghost use Rattle.std.specs.Prelude.{◌≡◌, IfOk};

use heesch_cnf::{Hints, Lits};
use heesch_grid::Cell;
use heesch_io::{NoMemory, Seq};
use std::alloc::Global;

/// Cells in order.
pub type Cells = Seq<Cell>;

/// A cut of a corona formula: at this level and below, the placements of the border, all chosen, would enclose the
/// hole, so one of them isn't chosen, or a placement of the level or below that fills some of the hole is. The hole's
/// cells are in cell order, the border is by numbers of variables, rising.
#[derive(Drop)]
pub struct Cut {
    pub level: u32,
    pub hole: Cells,
    pub border: Seq<u32>,
}

/// A step of a proof: a learnt clause with the numbers of the clauses that show it, or a cut.
#[derive(Drop)]
pub enum Step {
    Learn { clause: Lits, hints: Hints },
    Cut { cut: Cut },
}

/// The steps of a search, and the hints of the final line where they refute the formula.
#[derive(Drop)]
pub struct Proof {
    pub steps: Seq<Step>,
    pub last: Option<Hints>,
}

impl Cut {
    /// An equal cut.
    fn copy(&self, alloc: Global) -> Result<Cut, NoMemory>
        ensures { IfOk result (λ copy. copy ≡ self.now) }
    {
        let hole = Seq::from_slice(alloc, self.hole.as_slice())?;
        let border = Seq::from_slice(alloc, self.border.as_slice())?;
        Ok(Cut {
            level: self.level,
            hole,
            border,
        })
    }
}

impl Step {
    /// An equal step.
    fn copy(&self, alloc: Global) -> Result<Step, NoMemory>
        ensures { IfOk result (λ copy. copy ≡ self.now) }
    {
        match self {
            Step::Learn { clause, hints } => {
                let clause = Seq::from_slice(alloc, clause.as_slice())?;
                let hints = Seq::from_slice(alloc, hints.as_slice())?;
                Ok(Step::Learn { clause, hints })
            }
            Step::Cut { cut } => {
                let cut = cut.copy(alloc)?;
                Ok(Step::Cut { cut })
            }
        }
    }
}

/// Equal steps.
fn copy_steps(alloc: Global, steps: &[Step]) -> Result<Seq<Step>, NoMemory>
    ensures { IfOk result (λ copy. copy ≡ steps.now) }
{
    let mut copy = Seq::new(alloc);
    for step in steps {
        copy.push(step.copy(alloc)?)?;
    }
    Ok(copy)
}

/// Equal hints of a final line.
fn copy_last(alloc: Global, last: &Option<Hints>) -> Result<Option<Hints>, NoMemory>
    ensures { IfOk result (λ copy. copy ≡ last.now) }
{
    match last {
        None => Ok(None),
        Some(hints) => {
            let copy = Seq::from_slice(alloc, hints.as_slice())?;
            Ok(Some(copy))
        }
    }
}

impl Proof {
    /// An equal proof. The cost is its size.
    pub fn copy(&self, alloc: Global) -> Result<Proof, NoMemory>
        ensures { IfOk result (λ copy. copy ≡ self.now) }
    {
        let steps = copy_steps(alloc, self.steps.as_slice())?;
        let last = copy_last(alloc, &self.last)?;
        Ok(Proof { steps, last })
    }
}
