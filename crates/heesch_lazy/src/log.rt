//! The log of a search, trimmed.
ghost use Rattle.std.specs.Prelude.{◌≡◌, ◌<◌, ◌≤◌, ◌^◌, IfOk, length, vec_len};
ghost use Rattle.heesch_cnf.specs.Clauses.{IsClause};

use crate::clause::clause_at;
use crate::reason::Reason;
use crate::store::{Origin, Store};
use heesch_cnf::{FlatFormula, PackedLit};
use heesch_io::{NoMemory, Seq};
use std::alloc::Global;
use std::marker::Model;

/// The lines of a search in turn, learnt or given, and the reasons of its last line, where it refutes. Contracts see
/// how many variables and lines there are.
#[derive(Drop)]
pub struct CoverLog {
    clauses: FlatFormula,
    /// By line, its number among the clauses that were given, from 0, or None where it was learnt.
    given: Vec<Option<u32>>,
    reasons: Vec<Reason>,
    /// By line, where its reasons end.
    ends: Vec<usize>,
    last: Option<Seq<Reason>>,
}

impl Model for CoverLog {
    ghost use Rattle.std.specs.Prelude.{length};
    ghost use Rattle.heesch_lazy.specs.Sizes.{Sizes};

    ghost Value = { Sizes };

    ghost view = { λ l. record { vars = l.clauses.vars; lines = length l.clauses.clauses } };
}

/// The lines that these reasons name are needed.
fn mark_lines(needed: &mut [bool], reasons: &[Reason]) {
    for reason in reasons {
        if let Reason::Line { index } = *reason {
            if let Some(place) = needed.get_mut(index as usize) {
                *place = true;
            }
        }
    }
}

/// Of the clauses of the store those on which the last line rests; all where there is none.
fn needed_lines(
    alloc: Global,
    store: &Store,
    last: &Option<Seq<Reason>>,
) -> Result<Vec<bool>, NoMemory> {
    let count = store.count();
    let mut needed = vec![in alloc; last.is_none(); count]?;
    if let Some(reasons) = last {
        mark_lines(&mut needed, reasons.as_slice());
        for index in (0..count).rev() {
            let is_needed = needed.get(index).copied().unwrap_or(false);
            if is_needed {
                mark_lines(&mut needed, store.reasons(index));
            }
        }
    }
    Ok(needed)
}

/// The same reason, where lines have these numbers.
fn renumbered(numbers: &[u32], reason: Reason) -> Reason {
    match reason {
        Reason::Line { index } => Reason::Line {
            index: numbers.get(index as usize).copied().unwrap_or(u32::MAX),
        },
        _ => reason,
    }
}

/// Appends the reasons, where lines have these numbers.
fn append_renumbered(
    into: &mut Vec<Reason>,
    reasons: &[Reason],
    numbers: &[u32],
) -> Result<(), NoMemory> {
    for reason in reasons {
        into.push(renumbered(numbers, *reason))?;
    }
    Ok(())
}

fn is_copy(origin: Origin) -> bool {
    matches!(origin, Origin::Copy { .. })
}

fn is_given(origin: Origin) -> bool {
    matches!(origin, Origin::Given)
}

impl CoverLog {
    fn new(alloc: Global, vars: u32) -> CoverLog
        requires { vars < 2 ^ 31 }
        ensures { result ≡ record { vars = vars; lines = 0 } }
    {
        CoverLog {
            clauses: FlatFormula::new(alloc, vars),
            given: Vec::new(alloc),
            reasons: Vec::new(alloc),
            ends: Vec::new(alloc),
            last: None,
        }
    }

    /// The clause of the store stands last, as this given one or a learnt one. The lines before it have these numbers.
    fn add(
        &mut self,
        store: &Store,
        index: usize,
        given: Option<u32>,
        numbers: &[u32],
    ) -> Result<(), NoMemory>
        requires vars { store.now ≡ self.old.vars }
        ensures vars { self.new.vars ≡ self.old.vars }
    {
        if self.clauses.len() >= 1 << 31 {
            return Err(NoMemory);
        }
        append_renumbered(&mut self.reasons, store.reasons(index), numbers)?;
        self.ends.push(self.reasons.len())?;
        self.given.push(given)?;
        self.clauses.add_packed(store.clause(index))
    }

    /// The lines of the store that are needed.
    fn add_lines(
        &mut self,
        alloc: Global,
        store: &Store,
        needed: &[bool],
    ) -> Result<Vec<u32>, NoMemory>
        requires vars { store.now ≡ self.old.vars }
        ensures vars { self.new.vars ≡ self.old.vars }
    {
        let mut numbers = vec![in alloc; u32::MAX; store.count()]?;
        let mut given = 0u32;
        for index in 0..store.count() {
            let origin = store.origin(index);
            let number = if is_given(origin) { Some(given) } else { None };
            if is_given(origin) {
                given = given.saturating_add(1);
            }
            let is_needed = needed.get(index).copied().unwrap_or(false);
            if is_needed && !is_copy(origin) {
                if let Some(place) = numbers.get_mut(index) {
                    *place = u32::try_from(self.ends.len()).unwrap_or(u32::MAX);
                }
                self.add(store, index, number, &numbers)?;
            }
        }
        Ok(numbers)
    }

    /// The lines of a store; where the reasons of a last line are given, those alone on which it rests.
    pub(crate) fn of(
        alloc: Global,
        store: &Store,
        last: Option<Seq<Reason>>,
    ) -> Result<CoverLog, NoMemory>
        ensures { IfOk result (λ log. log.vars ≡ store.now) }
    {
        let needed = needed_lines(alloc, store, &last)?;
        let mut log = CoverLog::new(alloc, store.vars());
        let numbers = log.add_lines(alloc, store, &needed)?;
        if let Some(reasons) = last {
            let mut kept = Vec::with_capacity(alloc, reasons.len())?;
            append_renumbered(&mut kept, reasons.as_slice(), &numbers)?;
            log.last = Some(Seq::from_vec(kept));
        }
        Ok(log)
    }

    /// How many lines there are. It takes no memory.
    pub fn len(&self) -> usize
        ensures { result ≡ self.now.lines }
    {
        self.clauses.len()
    }

    /// Whether there are none. It takes no memory.
    pub fn is_empty(&self) -> bool {
        self.clauses.len() == 0
    }

    /// The clause of the line of an index, from 0, or an empty one. It takes no memory.
    pub fn clause(&self, index: usize) -> &[PackedLit]
        ensures { IsClause self.now.vars result.now }
    {
        clause_at(&self.clauses, index)
    }

    /// The number of the line of an index among the clauses that were given to the search, from 0; None for one that
    /// was learnt. It takes no memory.
    pub fn given(&self, index: usize) -> Option<u32> {
        match self.given.get(index) {
            None => None,
            Some(given) => *given,
        }
    }

    /// The reasons of the line of an index, in the order in which a checker propagates them; none for one that was
    /// given. It takes no memory.
    pub fn reasons(&self, index: usize) -> &[Reason] {
        let start = match index.checked_sub(1) {
            None => 0,
            Some(before) => self.ends.get(before).copied().unwrap_or(0),
        };
        let end = self.ends.get(index).copied().unwrap_or(0);
        if start <= end && end <= self.reasons.len() {
            &self.reasons[start..end]
        } else {
            &[]
        }
    }

    /// The reasons of the last line, where the log refutes. It takes no memory.
    pub fn last(&self) -> Option<&[Reason]> {
        match &self.last {
            None => None,
            Some(reasons) => Some(reasons.as_slice()),
        }
    }
}
