//! Whether two proofs are the same.
ghost use Rattle.std.specs.Prelude.{◌≡◌, ◌↔◌, IsTrue};

use heesch_cert::{Cut, Proof, Step};
use heesch_cnf::{Hints, Lit};
use heesch_grid::Cell;

fn are_same_cells(cells: &[Cell], others: &[Cell]) -> bool
    ensures { IsTrue result ↔ (cells.now ≡ others.now) }
{
    cells == others
}

fn are_same_literals(literals: &[Lit], others: &[Lit]) -> bool
    ensures { IsTrue result ↔ (literals.now ≡ others.now) }
{
    literals == others
}

fn are_same_numbers(numbers: &[u32], others: &[u32]) -> bool
    ensures { IsTrue result ↔ (numbers.now ≡ others.now) }
{
    numbers == others
}

fn is_same_cut(cut: &Cut, other: &Cut) -> bool
    ensures { IsTrue result ↔ (cut.now ≡ other.now) }
{
    cut.level == other.level
        && are_same_cells(cut.hole.as_slice(), other.hole.as_slice())
        && are_same_numbers(cut.border.as_slice(), other.border.as_slice())
}

fn is_same_step(step: &Step, other: &Step) -> bool
    ensures { IsTrue result ↔ (step.now ≡ other.now) }
{
    match (step, other) {
        (
            Step::Learn { clause, hints },
            Step::Learn {
                clause: other_clause,
                hints: other_hints,
            },
        ) => {
            are_same_literals(clause.as_slice(), other_clause.as_slice())
                && are_same_numbers(hints.as_slice(), other_hints.as_slice())
        }
        (Step::Cut { cut }, Step::Cut { cut: other_cut }) => is_same_cut(cut, other_cut),
        _ => false,
    }
}

fn are_same_steps(steps: &[Step], others: &[Step]) -> bool
    ensures { IsTrue result ↔ (steps.now ≡ others.now) }
{
    if steps.len() != others.len() {
        return false;
    }
    for (i, step) in steps.iter().enumerate() {
        if !is_same_step(step, &others[i]) {
            return false;
        }
    }
    true
}

fn is_same_last(last: &Option<Hints>, other: &Option<Hints>) -> bool
    ensures { IsTrue result ↔ (last.now ≡ other.now) }
{
    match (last, other) {
        (None, None) => true,
        (Some(hints), Some(others)) => are_same_numbers(hints.as_slice(), others.as_slice()),
        _ => false,
    }
}

/// Whether the proofs have the same steps and the same last line.
pub(crate) fn is_same_proof(proof: &Proof, other: &Proof) -> bool
    ensures { IsTrue result ↔ (proof.now ≡ other.now) }
{
    are_same_steps(proof.steps.as_slice(), other.steps.as_slice())
        && is_same_last(&proof.last, &other.last)
}
