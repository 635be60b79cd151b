//! How the log of a proof ends, and whether it does over the clauses.
ghost use Rattle.std.specs.Prelude.{◌↔◌, IsTrue, IfOk};
ghost use Rattle.heesch_audit.specs.Ends.{IsEndOf, LogEnds};

use crate::proof_end::ProofEnd;
use heesch_cnf::NewnessSource;
use heesch_io::NoMemory;
use heesch_logs::{ProofLog, is_refuted};
use heesch_rup::{Steps, is_spent_in_turn};
use std::alloc::Global;

/// What the log shows, if anything: one with a final line refutes.
pub(crate) fn end_of(log: &ProofLog<'_>) -> ProofEnd
    ensures { IsEndOf log.now result }
{
    match log.last() {
        Some(_) => ProofEnd::Refuted,
        None => ProofEnd::Spent,
    }
}

/// Whether the log refutes the formula, or is spent for so many turns over it, as asked.
pub(crate) fn is_ended<N: NewnessSource>(
    alloc: Global,
    formula: &N,
    log: &ProofLog<'_>,
    end: ProofEnd,
    turns: u32,
) -> Result<bool, NoMemory>
    ensures { let f = N.listed formula.now in
        IfOk result (λ yes. IsTrue yes ↔ LogEnds end f.vars f.clauses turns log.now) }
{
    match end {
        ProofEnd::Refuted => is_refuted(alloc, formula, log),
        ProofEnd::Spent => is_spent_in_turn(alloc, formula, log, turns),
    }
}
