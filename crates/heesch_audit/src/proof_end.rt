//! How a search ended with its proof.
ghost use Rattle.std.specs.Prelude.{◌≡◌, MatchOption};
ghost use Rattle.heesch_audit.specs.Ends.{BareEnds};
ghost use Rattle.heesch_audit.specs.Formulas.{AsksFormula};

use heesch_cert::{Bare, Proof};

/// What a proof shows of the formula that it is over.
#[derive(Clone, Copy)]
pub enum ProofEnd {
    /// Nothing satisfies it.
    Refuted,
    /// The search took all its turns over it.
    Spent,
}

/// A proof, and what it shows.
#[derive(Clone, Copy)]
pub(crate) struct Ended<'a> {
    pub end: ProofEnd,
    pub proof: &'a Proof,
}

/// The proof that the search with holes allowed ended with, if it has one of its own.
pub(crate) fn ended_of(bare: &Bare) -> Option<Ended<'_>>
    ensures { MatchOption result (AsksFormula bare.now → bare.now ≡ Bare.Size)
        (λ ended. BareEnds ended.end ended.proof.now bare.now) }
{
    match bare {
        Bare::Absent | Bare::Same | Bare::Open | Bare::Size => None,
        Bare::Refuted { proof } => {
            let end = ProofEnd::Refuted;
            Some(Ended { end, proof })
        }
        Bare::Spent { proof } => {
            let end = ProofEnd::Spent;
            Some(Ended { end, proof })
        }
    }
}
