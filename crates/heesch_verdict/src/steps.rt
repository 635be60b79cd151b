//! The steps of proofs.
ghost use Rattle.std.specs.Prelude.{◌≡◌, [], All, IfOk, map};
ghost use Rattle.heesch_cert.specs.Proofs.{HasNoCut, HasNoGiven, IsLearnLine, IsLearnStep, line_of_step, log_of};

use heesch_cert::{Proof, Step};
use heesch_cnf::{Line, Log};
use heesch_io::{NoMemory, Seq};
use std::alloc::Global;

/// The step of a line that is learnt.
fn step_of(line: Line) -> Step
    requires { IsLearnLine line }
    ensures learnt { IsLearnStep result }
    ensures same { line_of_step [] result ≡ line }
{
    match line {
        Line::Learn { clause, hints } => Step::Learn { clause, hints },
        Line::Given { clause: _clause } => unreachable!(),
    }
}

/// The steps of lines that are learnt.
fn steps_of(alloc: Global, lines: Vec<Line>) -> Result<Seq<Step>, NoMemory>
    requires { All IsLearnLine lines.items }
    ensures learnt { IfOk result (λ steps. All IsLearnStep steps) }
    ensures same { IfOk result (λ steps. map (line_of_step []) steps ≡ lines.items) }
{
    let mut steps = Vec::with_capacity(alloc, lines.len())?;
    for line in lines {
        steps.push(step_of(line))?;
    }
    Ok(Seq::from_vec(steps))
}

/// The log, none of whose lines is given, as a proof. The clauses are moved.
pub fn proof_of(alloc: Global, log: Log) -> Result<Proof, NoMemory>
    requires { HasNoGiven log }
    ensures no_cut { IfOk result HasNoCut }
    ensures same { IfOk result (λ proof. log_of [] proof ≡ log) }
{
    Ok(Proof {
        steps: steps_of(alloc, log.lines.into_vec())?,
        last: log.last,
    })
}
