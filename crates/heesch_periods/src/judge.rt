//! Whether a log of Learn lines alone refutes clauses, or is spent and leaves them open.
ghost use Rattle.std.specs.Prelude.{◌↔◌, IsTrue, IfOk};
ghost use Rattle.heesch_cnf.specs.Meaning.{LearnsAlone};
ghost use Rattle.heesch_periods.specs.Judged.{IsSpentAlone, RefutesAlone};

use heesch_cnf::{Line, Log, NewnessSource};
use heesch_io::NoMemory;
use heesch_judge::{is_spent_open, refutes_anew};
use std::alloc::Global;

/// Whether no line is given.
fn learns_alone(log: &Log) -> bool
    ensures { IsTrue result ↔ LearnsAlone log.now.lines }
{
    for line in log.lines.as_slice() {
        if let Line::Given { .. } = line {
            return false;
        }
    }
    true
}

/// Whether the log has Learn lines alone, each of them new, and refutes the clauses. The cost is that of
/// `heesch_judge::refutes_anew`.
pub(crate) fn refutes_alone<N: NewnessSource>(
    alloc: Global,
    formula: &N,
    log: &Log,
) -> Result<bool, NoMemory>
    ensures { let f = N.listed formula.now in
        IfOk result (λ yes. IsTrue yes ↔ RefutesAlone f.vars f.clauses log.now) }
{
    if !learns_alone(log) {
        return Ok(false);
    }
    refutes_anew(alloc, formula, log)
}

/// Whether the log has Learn lines alone, is spent for so many turns, and leaves the clauses open. The cost is that of
/// `heesch_judge::is_spent_open`.
pub(crate) fn is_spent_alone<N: NewnessSource>(
    alloc: Global,
    formula: &N,
    log: &Log,
    turns: u32,
) -> Result<bool, NoMemory>
    ensures { let f = N.listed formula.now in
        IfOk result (λ yes. IsTrue yes ↔ IsSpentAlone f.vars f.clauses turns log.now) }
{
    if !learns_alone(log) {
        return Ok(false);
    }
    is_spent_open(alloc, formula, log, turns)
}
