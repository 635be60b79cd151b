//! The log of a proof, read where the proof stands.
ghost use Rattle.std.specs.Prelude.{◌≡◌, ◌<◌, length, List, [], slice_index_or};
ghost use Rattle.std.specs.Option.{option_copied};
ghost use Rattle.heesch_cnf.specs.declared.literal.Lit.{Lit as Literal};
ghost use Rattle.heesch_cnf.specs.declared.log.Line.{Line};
ghost use Rattle.heesch_cnf.specs.Lines.{clause_of};
ghost use Rattle.heesch_rup.specs.Hints.{hints_of};
ghost use Rattle.heesch_logs.specs.Admitted.{lines_with};

use heesch_cert::{Proof, Step};
use heesch_cnf::{Lit, Lits};
use heesch_io::Seq;
use heesch_rup::Steps;
use std::marker::Model;

/// A proof that is read as a log where it stands, and the clauses of its cuts. Contracts see the log.
///
/// The clause of a cut stands at the index of its step, and an empty one, which takes no memory but its place, at that
/// of a learnt step. Where no step is a cut the list is empty.
#[derive(Drop)]
pub struct ProofLog<'a> {
    pub(crate) proof: &'a Proof,
    pub(crate) given: Seq<Lits>,
}

impl<'a> Model for ProofLog<'a> {
    ghost use Rattle.heesch_cnf.specs.declared.log.Log.{Log};
    ghost use Rattle.heesch_logs.specs.Admitted.{lines_with};

    ghost Value = { Log };

    ghost view = { λ p. record { lines = lines_with p.proof.now.steps p.given; last = p.proof.now.last } };
}

/// The clause at a place, and the empty one where there is none.
fn given_at(given: &[Lits], index: usize) -> &[Lit]
    ensures { result.now ≡ slice_index_or given.now index [] }
{
    if index < given.len() {
        given[index].as_slice()
    } else {
        &[]
    }
}

/// The clause of the line of a step.
fn clause_at<'a>(steps: &'a [Step], given: &'a [Lits], index: usize) -> &'a [Lit]
    requires { index < length steps.now }
    ensures { (d : Line) → result.now ≡ clause_of (slice_index_or (lines_with steps.now given.now) index d) }
{
    match &steps[index] {
        Step::Learn { clause, .. } => clause.as_slice(),
        Step::Cut { .. } => given_at(given, index),
    }
}

/// The hints of the line of a step, and none where it is given.
fn hints_at(steps: &[Step], index: usize) -> Option<&[u32]>
    requires { index < length steps.now }
    ensures { (given : List (List Literal)) (d : Line)
        → option_copied result ≡ hints_of (slice_index_or (lines_with steps.now given) index d) }
{
    match &steps[index] {
        Step::Learn { hints, .. } => Some(hints.as_slice()),
        Step::Cut { .. } => None,
    }
}

impl<'a> Steps for ProofLog<'a> {
    ghost written = { λ log. log };

    fn count(&self) -> usize {
        self.proof.steps.len()
    }

    fn clause(&self, index: usize) -> &[Lit] {
        clause_at(self.proof.steps.as_slice(), self.given.as_slice(), index)
    }

    fn hints(&self, index: usize) -> Option<&[u32]> {
        hints_at(self.proof.steps.as_slice(), index)
    }

    fn last(&self) -> Option<&[u32]> {
        match &self.proof.last {
            None => None,
            Some(hints) => Some(hints.as_slice()),
        }
    }
}
