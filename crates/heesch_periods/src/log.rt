//! The log that a search over a table makes, with the numbers of clauses.

use crate::numbers::clause_number;
use crate::table::table_of;
use heesch_cnf::{ClauseSource, Hints, Line, Lits, Log, PackedLit};
use heesch_grid::Grid;
use heesch_io::{NoMemory, Seq};
use heesch_lazy::{CoverLog, Found, Reason, Search};
use heesch_tori::TorusSource;
use std::alloc::Global;

/// The literals as a clause of their own.
fn clause_of(alloc: Global, literals: &[PackedLit]) -> Result<Lits, NoMemory> {
    let mut clause = Vec::with_capacity(alloc, literals.len())?;
    for packed in literals {
        clause.push(packed.lit())?;
    }
    Ok(Seq::from_vec(clause))
}

/// The numbers of the clauses that the reasons name.
fn hints_of<G: Grid>(
    alloc: Global,
    source: &TorusSource<G>,
    reasons: &[Reason],
) -> Result<Hints, NoMemory> {
    let mut hints = Vec::with_capacity(alloc, reasons.len())?;
    for reason in reasons {
        hints.push(clause_number(source, *reason))?;
    }
    Ok(Seq::from_vec(hints))
}

/// The log with the numbers of clauses.
fn numbered_log<G: Grid>(
    alloc: Global,
    source: &TorusSource<G>,
    log: &CoverLog,
) -> Result<Log, NoMemory> {
    let mut lines = Vec::with_capacity(alloc, log.len())?;
    for index in 0..log.len() {
        let clause = clause_of(alloc, log.clause(index))?;
        let hints = hints_of(alloc, source, log.reasons(index))?;
        lines.push(Line::Learn { clause, hints })?;
    }
    let last = match log.last() {
        None => None,
        Some(reasons) => Some(hints_of(alloc, source, reasons)?),
    };
    Ok(Log {
        lines: Seq::from_vec(lines),
        last,
    })
}

/// The log of the search of so many turns over the variables and the reduced cells of the source. None where a cover
/// was found, or the search gave up.
///
/// It is advice: no clause says that the lines hold. A log that refutes has a last line, and of the other lines those
/// alone on which it rests; one that is spent has none.
pub(crate) fn searched_log<G: Grid>(
    alloc: Global,
    source: &TorusSource<G>,
    turns: u32,
) -> Result<Option<Log>, NoMemory> {
    let mut search = Search::over(alloc, table_of(alloc, source.vars(), source.lists())?)?;
    match search.next(turns)? {
        Found::Model { .. } | Found::GaveUp => Ok(None),
        Found::Refuted | Found::Spent => {
            let (_table, log) = search.into_log()?;
            Ok(Some(numbered_log(alloc, source, &log)?))
        }
    }
}
