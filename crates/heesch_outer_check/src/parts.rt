//! The layers and the proof that lines are.
ghost use Rattle.std.specs.Prelude.{◌≡◌, ◌≢◌, List, [], IfOk, MatchOption};
ghost use Rattle.heesch_grid.specs.declared.isometries.Iso.{Iso};
ghost use Rattle.heesch_cert.specs.declared.proof.Proof.{Proof};
ghost use Rattle.heesch_text.specs.Catalogue.{layer_lines, proof_lines};

use heesch_cert::{Isos, Proof, Step};
use heesch_cnf::Hints;
use heesch_io::{NoMemory, Seq};
use heesch_text::Line;
use std::alloc::Global;
use std::collections::VecDeque;

/// The layers whose lines these are, if they are.
pub fn layers_of(alloc: Global, lines: Vec<Line>) -> Result<Option<Seq<Isos>>, NoMemory>
    ensures { IfOk result
        (λ r. MatchOption r ((layers : List (List Iso)) → lines.items ≡ layer_lines layers → ⊥)
        (λ layers. lines.items ≡ layer_lines layers)) }
{
    let mut rest = VecDeque::from_vec(lines);
    let mut layers = Seq::new(alloc);
    while let Some(line) = rest.pop_front() {
        let Line::Layer { places } = line else {
            return Ok(None);
        };
        layers.push(places)?;
    }
    Ok(Some(layers))
}

/// The proof with these steps and this end, if no line is left.
fn ended(steps: Seq<Step>, last: Option<Hints>, left: &VecDeque<Line>) -> Option<Proof>
    ensures { MatchOption result (left.now.items ≢ [])
        (λ proof. (left.now.items ≡ []) × (proof ≡ record { steps = steps; last = last })) }
{
    if !left.is_empty() {
        return None;
    }
    Some(Proof { steps, last })
}

/// The proof whose lines these are, if they are.
pub fn proof_of(alloc: Global, lines: Vec<Line>) -> Result<Option<Proof>, NoMemory>
    ensures { IfOk result
        (λ r. MatchOption r ((proof : Proof) → lines.items ≡ proof_lines proof → ⊥)
        (λ proof. lines.items ≡ proof_lines proof)) }
{
    let mut rest = VecDeque::from_vec(lines);
    let mut steps = Seq::new(alloc);
    while let Some(line) = rest.pop_front() {
        match line {
            Line::Learn { clause, hints } => steps.push(Step::Learn { clause, hints })?,
            Line::Cut { cut } => steps.push(Step::Cut { cut })?,
            Line::Empty { hints } => return Ok(ended(steps, Some(hints), &rest)),
            Line::Spent => return Ok(ended(steps, None, &rest)),
            _ => return Ok(None),
        }
    }
    Ok(None)
}
