//! The state of a search: the table, the assignments, the wants that hold, and the clauses that were kept.
ghost use Rattle.std.specs.Prelude.{◌≡◌, ◌+◌, IfOk};
ghost use Rattle.heesch_cnf.specs.Clauses.{IsClause};
ghost use Rattle.heesch_cover.specs.Sizes.{AreBelow};

use crate::latest::Latest;
use crate::reason::Reason;
use crate::store::Store;
use crate::trail::Trail;
use crate::wants::{Owner, Wants};
use heesch_cnf::PackedLit;
use heesch_cover::CoverTable;
use heesch_io::NoMemory;
use std::alloc::Global;

/// What a search knows at a time.
#[derive(Drop)]
pub(crate) struct State {
    pub table: CoverTable,
    pub trail: Trail,
    pub wants: Wants,
    pub store: Store,
    ghost trail_fits: { trail ≡ table.vars + 1 },
    ghost store_fits: { store ≡ table.vars },
}

/// The variables of a clause: two, or 0 in place of one; candidates; and those of literals.
#[derive(Clone, Copy)]
pub(crate) struct Members<'a> {
    pub one: u32,
    pub other: u32,
    pub candidates: &'a [u32],
    pub literals: &'a [PackedLit],
}

/// What the want of an owner says.
pub(crate) fn reason_of(owner: Owner, want: u32) -> Option<Reason> {
    match owner {
        Owner::Nobody => None,
        Owner::Start => Some(Reason::First { want }),
        Owner::Variable(variable) => Some(Reason::Asked { variable, want }),
    }
}

impl State {
    /// Nothing is assigned, and no want holds. The cost is the number of the variables and of the wants.
    pub fn over(alloc: Global, table: CoverTable) -> Result<State, NoMemory>
        ensures { IfOk result (λ s. s.table ≡ table) }
    {
        let vars = table.vars();
        let wants = Wants::new(alloc, table.wants(), vars, table.lists())?;
        Ok(State {
            trail: Trail::new(alloc, vars)?,
            store: Store::new(alloc, vars)?,
            wants,
            table,
        })
    }

    /// The variables of the clause that a reason is.
    pub fn members(&self, reason: Reason) -> Members<'_>
        ensures { AreBelow (self.now.table.vars + 1) result.candidates.now }
    {
        let (one, other) = match reason {
            Reason::Asked { variable, .. } => (variable, 0),
            Reason::Apart { tile, other } => (tile, other),
            _ => (0, 0),
        };
        let candidates: &[u32] = match reason {
            Reason::First { want } => self.table.candidates(want),
            Reason::Asked { want, .. } => self.table.candidates(want),
            _ => &[],
        };
        let literals: &[PackedLit] = match reason {
            Reason::Line { index } => self.store.clause(index as usize),
            _ => &[],
        };
        Members {
            one,
            other,
            candidates,
            literals,
        }
    }

    /// Whether a member of the want's list that serves it is known to be chosen. The cost is a look-up.
    pub fn is_served(&self, want: u32) -> bool {
        match self.table.want(want) {
            None => false,
            Some(want) => {
                let chosen = self.wants.chosen(want.list);
                chosen <= want.up_to && self.trail.value(chosen).is_true()
            }
        }
    }

    /// The assignments above the level are gone, and the wants that hold since then hold no more. The cost is the
    /// number of these.
    pub fn back_to(&mut self, level: u32)
        ensures { self.new.table.vars ≡ self.old.table.vars }
    {
        for _ in 0..self.trail.above(level) {
            if let Some(lit) = self.trail.undo() {
                if lit.is_positive() {
                    self.wants.release(lit.var());
                }
            }
        }
        self.trail.close_levels(level);
    }

    /// The two literals of the kept clause that were assigned last watch it.
    pub fn watch_latest(&mut self, index: u32, latest: Latest) -> Result<bool, NoMemory>
        ensures { self.new.table.vars ≡ self.old.table.vars }
    {
        if let (Some(first), Some(second)) = (latest.first, latest.second) {
            self.store.watch(index, first.place, second.place)?;
        }
        Ok(true)
    }

    /// The literal of the kept clause that was assigned last, which alone is open now, is made true. Whether there is
    /// one is answered.
    pub fn assert_first(&mut self, index: u32, latest: Latest) -> Result<bool, NoMemory>
        ensures { self.new.table.vars ≡ self.old.table.vars }
    {
        self.watch_latest(index, latest)?;
        let Some(first) = latest.first else {
            return Ok(false);
        };
        let Some(lit) = self.store.clause(index as usize).get(first.place).copied() else {
            return Ok(false);
        };
        self.trail
            .assign(lit.var(), lit.is_positive(), Some(Reason::Line { index }))?;
        Ok(true)
    }

    /// The table, handed over.
    pub fn into_table(self) -> CoverTable
        ensures { result ≡ self.table }
    {
        let State {
            table,
            trail: _,
            wants: _,
            store: _,
        } = self;
        table
    }
}
