//! The clauses that the search keeps: those of its lines, and copies of asked ones.
ghost use Rattle.std.specs.Prelude.{◌≡◌, ◌<◌, ◌≤◌, ◌^◌, IfOk};
ghost use Rattle.heesch_cnf.specs.Clauses.{IsClause};

use crate::clause::clause_at;
use crate::reason::Reason;
use heesch_cnf::{FlatFormula, Lit, PackedLit, is_clause};
use heesch_io::NoMemory;
use std::alloc::Global;
use std::marker::Model;

/// Two literals that watch a clause.
#[derive(Debug, Clone, Copy)]
pub(crate) struct Pair {
    pub one: PackedLit,
    pub other: PackedLit,
}

impl Pair {
    /// The literal beside this one, where it is one of the two.
    pub fn beside(self, lit: PackedLit) -> Option<PackedLit> {
        if self.one == lit {
            Some(self.other)
        } else if self.other == lit {
            Some(self.one)
        } else {
            None
        }
    }
}

/// A clause in the list of a literal that may watch it, with another literal of it.
#[derive(Debug, Clone, Copy)]
pub(crate) struct Entry {
    pub index: u32,
    pub blocker: PackedLit,
}

/// What a clause of the store is.
#[derive(Debug, Clone, Copy)]
pub(crate) enum Origin {
    Learnt,
    Given,
    /// A copy of the clause of a want that the variable asks for.
    Copy { variable: u32, want: u32 },
}

/// Clauses over the variables 1 to `vars`, each with what it is, the reasons that show it, and the literals that watch
/// it. Contracts see `vars`.
#[derive(Drop)]
pub(crate) struct Store {
    clauses: FlatFormula,
    origins: Vec<Origin>,
    reasons: Vec<Reason>,
    /// By clause, where its reasons end.
    ends: Vec<usize>,
    pairs: Vec<Option<Pair>>,
    watched: Vec<Vec<Entry>>,
    given: Vec<u32>,
    copies: usize,
}

impl Model for Store {
    ghost use Rattle.std.specs.Prelude.{ℕ};

    ghost Value = { ℕ };

    ghost view = { λ s. s.clauses.vars };
}

/// So many empty lists.
fn empty_lists(alloc: Global, count: usize) -> Result<Vec<Vec<Entry>>, NoMemory> {
    let mut lists = Vec::with_capacity(alloc, count)?;
    for _ in 0..count {
        lists.push(Vec::new(alloc)).map_err(|_| NoMemory)?;
    }
    Ok(lists)
}

impl Store {
    /// No clauses over so many variables. The cost is their number.
    pub fn new(alloc: Global, vars: u32) -> Result<Store, NoMemory>
        requires { vars < 2 ^ 31 }
        ensures { IfOk result (λ s. s ≡ vars) }
    {
        Ok(Store {
            clauses: FlatFormula::new(alloc, vars),
            origins: Vec::new(alloc),
            reasons: Vec::new(alloc),
            ends: Vec::new(alloc),
            pairs: Vec::new(alloc),
            watched: empty_lists(alloc, 2 * (vars as usize + 1))?,
            given: Vec::new(alloc),
            copies: 0,
        })
    }

    /// The number of the variables.
    pub fn vars(&self) -> u32
        ensures vars { result ≡ self.now }
        ensures small { result < 2 ^ 31 }
    {
        self.clauses.vars()
    }

    /// How many clauses there are, with the copies.
    pub fn count(&self) -> usize {
        self.clauses.len()
    }

    /// How many of them are lines of the log.
    pub fn lines(&self) -> usize {
        self.clauses.len().saturating_sub(self.copies)
    }

    /// The clause of an index, or an empty one.
    pub fn clause(&self, index: usize) -> &[PackedLit]
        ensures { IsClause self.now result.now }
    {
        clause_at(&self.clauses, index)
    }

    /// What the clause of an index is.
    pub fn origin(&self, index: usize) -> Origin {
        self.origins.get(index).copied().unwrap_or(Origin::Given)
    }

    /// The reasons that show the clause of an index.
    pub fn reasons(&self, index: usize) -> &[Reason] {
        let start = match index.checked_sub(1) {
            None => 0,
            Some(before) => self.ends.get(before).copied().unwrap_or(0),
        };
        let end = self.ends.get(index).copied().unwrap_or(0);
        if start <= end && end <= self.reasons.len() {
            &self.reasons[start..end]
        } else {
            &[]
        }
    }

    /// The indices of the clauses that were given.
    pub fn given(&self) -> &[u32] {
        &self.given
    }

    /// The same reason, named as a log names it: by the want of which it is a copy.
    pub fn named(&self, reason: Reason) -> Reason {
        match reason {
            Reason::Line { index } => match self.origin(index as usize) {
                Origin::Copy { variable, want } => Reason::Asked { variable, want },
                _ => reason,
            },
            _ => reason,
        }
    }

    fn note(&mut self, origin: Origin, reasons: &[Reason], index: u32) -> Result<(), NoMemory>
        ensures { self.new ≡ self.old }
    {
        self.reasons.extend_from_slice(reasons)?;
        self.ends.push(self.reasons.len())?;
        self.origins.push(origin)?;
        self.pairs.push(None)?;
        match origin {
            Origin::Learnt => {}
            Origin::Given => self.given.push(index)?,
            Origin::Copy { .. } => self.copies = self.copies.saturating_add(1),
        }
        Ok(())
    }

    /// The clause stands last; its index is answered, or None where the literals are none. The cost is its length. At
    /// want of memory the store is of no more use.
    pub fn add(
        &mut self,
        clause: &[Lit],
        origin: Origin,
        reasons: &[Reason],
    ) -> Result<Option<u32>, NoMemory>
        ensures { self.new ≡ self.old }
    {
        let count = self.clauses.len();
        if count >= 1 << 31 || !is_clause(self.clauses.vars(), clause) {
            return Ok(None);
        }
        self.clauses.add(clause)?;
        let index = count as u32;
        self.note(origin, reasons, index)?;
        Ok(Some(index))
    }

    /// The literals that watch the clause of an index.
    pub fn pair(&self, index: u32) -> Option<Pair> {
        match self.pairs.get(index as usize) {
            None => None,
            Some(pair) => *pair,
        }
    }

    fn enlist(&mut self, lit: PackedLit, entry: Entry) -> Result<(), NoMemory>
        ensures { self.new ≡ self.old }
    {
        if let Some(list) = self.watched.get_mut(lit.code()) {
            list.push(entry)?;
        }
        Ok(())
    }

    fn set_pair(&mut self, index: u32, pair: Pair)
        ensures { self.new ≡ self.old }
    {
        if let Some(place) = self.pairs.get_mut(index as usize) {
            *place = Some(pair);
        }
    }

    /// The literals at two places of the clause of an index watch it, which wasn't watched before.
    pub fn watch(&mut self, index: u32, first: usize, second: usize) -> Result<(), NoMemory>
        ensures { self.new ≡ self.old }
    {
        let clause = self.clause(index as usize);
        let (Some(one), Some(other)) = (clause.get(first).copied(), clause.get(second).copied())
        else {
            return Ok(());
        };
        self.enlist(
            one,
            Entry {
                index,
                blocker: other,
            },
        )?;
        self.rewatch(
            index,
            Pair {
                one: other,
                other: one,
            },
        )
    }

    /// The first literal of the pair watches the clause of an index in place of the one that stood beside the second.
    pub fn rewatch(&mut self, index: u32, pair: Pair) -> Result<(), NoMemory>
        ensures { self.new ≡ self.old }
    {
        self.enlist(
            pair.one,
            Entry {
                index,
                blocker: pair.other,
            },
        )?;
        self.set_pair(index, pair);
        Ok(())
    }

    /// How many clauses the literal may watch.
    pub fn watched_count(&self, lit: PackedLit) -> usize {
        match self.watched.get(lit.code()) {
            None => 0,
            Some(list) => list.len(),
        }
    }

    /// The clause at a place of those that the literal may watch.
    pub fn watched_at(&self, lit: PackedLit, place: usize) -> Option<Entry> {
        self.watched.get(lit.code())?.get(place).copied()
    }

    /// The literal doesn't watch the clause at this place. The last one stands there then.
    pub fn unlist(&mut self, lit: PackedLit, place: usize)
        ensures { self.new ≡ self.old }
    {
        if let Some(list) = self.watched.get_mut(lit.code()) {
            if place < list.len() {
                let _ = list.swap_remove(place);
            }
        }
    }
}
