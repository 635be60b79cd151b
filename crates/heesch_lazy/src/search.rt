//! The search: its public calls.
ghost use Rattle.std.specs.Prelude.{◌≡◌, ◌≤◌, ◌<◌, IfOk, IfSome, OnOk, length};
ghost use Rattle.heesch_lazy.specs.Sizes.{IsFound};

use crate::CoverLog;
use crate::analysis::{Learnt, Resolution};
use crate::latest::{Latest, OPEN};
use crate::reason::Reason;
use crate::state::State;
use crate::store::Origin;
use heesch_cnf::Lit;
use heesch_cover::CoverTable;
use heesch_io::{NoMemory, Seq};
use std::alloc::Global;
use std::marker::Model;

/// What a search found.
#[derive(Drop)]
pub enum Found {
    /// These variables are chosen, and no others: each want that holds is served, no two share a cell, and the given
    /// clauses are true.
    Model { chosen: Seq<u32> },
    /// There is no such choice, as the log shows.
    Refuted,
    /// The log has as many lines as there are turns.
    Spent,
    /// Nothing, after want of memory or a clause that is none.
    GaveUp,
}

/// A table, the log of what was learnt from it and given to it, and the state of the search. Contracts see the table's
/// sizes.
#[derive(Drop)]
pub struct Search {
    state: State,
    resolution: Resolution,
    last: Option<Seq<Reason>>,
    opened: bool,
    broken: bool,
    alloc: Global,
}

impl Model for Search {
    ghost use Rattle.heesch_cover.specs.Sizes.{Sizes};

    ghost Value = { Sizes };

    ghost view = { λ s. s.state.table };
}

impl Search {
    /// A search over the table, with an empty log. The cost is the number of the variables, of the cells and of the
    /// wants.
    pub fn over(alloc: Global, table: CoverTable) -> Result<Search, NoMemory>
        ensures { IfOk result (λ s. s ≡ table) }
    {
        let resolution = Resolution::new(alloc, table.vars())?;
        Ok(Search {
            state: State::over(alloc, table)?,
            resolution,
            last: None,
            opened: false,
            broken: false,
            alloc,
        })
    }

    /// The table. It takes no memory.
    pub fn table(&self) -> &CoverTable
        ensures { result.now ≡ self.now }
    {
        &self.state.table
    }

    /// How many lines the log has, learnt and given. It takes no memory.
    pub fn lines(&self) -> usize {
        self.state.store.lines()
    }

    /// The chosen variables, rising.
    fn chosen(&self) -> Result<Seq<u32>, NoMemory>
        ensures { IfOk result (λ chosen. IsFound self.now.vars (Found.Model chosen)) }
    {
        let mut chosen = Seq::new(self.alloc);
        for before in 0..self.state.table.vars() {
            if self.state.trail.value(before + 1).is_true() {
                chosen.push(before + 1)?;
            }
        }
        Ok(chosen)
    }

    /// The final line stands in the log.
    fn refute(&mut self, conflict: Reason) -> Result<Found, NoMemory>
        ensures same { self.new.vars ≡ self.old.vars }
        ensures found { IfOk result (IsFound self.old.vars) }
    {
        if !self.resolution.refute(&self.state, conflict)? {
            return Ok(Found::GaveUp);
        }
        let reasons = Vec::from_slice(self.alloc, &self.resolution.reasons)?;
        self.last = Some(Seq::from_vec(reasons));
        Ok(Found::Refuted)
    }

    /// Without turns left: the final line, where one holds over the log.
    fn spend(&mut self) -> Result<Found, NoMemory>
        ensures same { self.new.vars ≡ self.old.vars }
        ensures found { IfOk result (IsFound self.old.vars) }
    {
        match self.state.close()? {
            None => Ok(Found::Spent),
            Some(conflict) => self.refute(conflict),
        }
    }

    /// The clause of the resolution is kept. Back at the least level at which one of its literals alone is open, that
    /// one is made true. Whether it is a clause is answered.
    fn assert_clause(&mut self, origin: Origin) -> Result<bool, NoMemory>
        ensures { self.new.vars ≡ self.old.vars }
    {
        let clause = &self.resolution.clause;
        let latest = Latest::of(&self.state.trail, clause);
        let reasons = &self.resolution.reasons;
        let Some(index) = self.state.store.add(clause, origin, reasons)? else {
            return Ok(false);
        };
        self.state.back_to(latest.second_level());
        self.state.assert_first(index, latest)
    }

    /// The variable is denied by the want that it asks for, whose clause is kept. Whether it is a clause is answered.
    fn deny_late(&mut self, variable: u32, want: u32) -> Result<bool, NoMemory>
        ensures { self.new.vars ≡ self.old.vars }
    {
        self.resolution.copy_asked(&self.state, variable, want)?;
        self.assert_clause(Origin::Copy { variable, want })
    }

    /// Learns from a conflict above level 0. Whether it could is answered.
    fn learn(&mut self, conflict: Reason) -> Result<bool, NoMemory>
        ensures { self.new.vars ≡ self.old.vars }
    {
        match self.resolution.learn(&self.state, conflict)? {
            Learnt::Nothing => Ok(false),
            Learnt::Line => self.assert_clause(Origin::Learnt),
            Learnt::Late { variable, want } => self.deny_late(variable, want),
            Learnt::LateNear { variable } => match self.state.near(variable)? {
                None => Ok(false),
                Some(want) => self.deny_late(variable, want),
            },
        }
    }

    /// Learns from a conflict, or ends.
    fn answer(&mut self, conflict: Reason, turns: u32) -> Result<Option<Found>, NoMemory>
        ensures same { self.new.vars ≡ self.old.vars }
        ensures found { IfOk result (λ found. IfSome found (IsFound self.old.vars)) }
    {
        if self.state.trail.level() == 0 {
            let found = self.refute(conflict)?;
            return Ok(Some(found));
        }
        if self.state.store.lines() >= turns as usize {
            let found = self.spend()?;
            return Ok(Some(found));
        }
        if self.learn(conflict)? {
            return Ok(None);
        }
        Ok(Some(Found::GaveUp))
    }

    /// Propagates, and then learns from a conflict, decides, or ends.
    fn step(&mut self, turns: u32) -> Result<Option<Found>, NoMemory>
        ensures same { self.new.vars ≡ self.old.vars }
        ensures found { IfOk result (λ found. IfSome found (IsFound self.old.vars)) }
    {
        if let Some(conflict) = self.state.propagate()? {
            return self.answer(conflict, turns);
        }
        match self.state.choose() {
            Some(variable) => {
                self.state.trail.decide(variable)?;
                Ok(None)
            }
            None => {
                let chosen = self.chosen()?;
                Ok(Some(Found::Model { chosen }))
            }
        }
    }

    fn run(&mut self, turns: u32) -> Result<Found, NoMemory>
        ensures same { self.new.vars ≡ self.old.vars }
        ensures found { IfOk result (IsFound self.old.vars) }
    {
        if self.last.is_some() {
            return Ok(Found::Refuted);
        }
        if !self.opened {
            self.opened = true;
            if let Some(conflict) = self.state.open()? {
                return self.refute(conflict);
            }
        }
        for _ in 0..u64::MAX {
            if let Some(found) = self.step(turns)? {
                return Ok(found);
            }
        }
        Ok(Found::GaveUp)
    }

    /// A choice, a refutation, or Spent where the log has as many lines as there are turns. The same table, turns and
    /// given clauses give the same answers. After want of memory the search gives up.
    ///
    /// The cost is that of the search: for an assignment what it is visited for; for a decision the wants that hold;
    /// for a conflict the clauses that are resolved, and the assignments taken back.
    pub fn next(&mut self, turns: u32) -> Result<Found, NoMemory>
        ensures same { self.new.vars ≡ self.old.vars }
        ensures found { IfOk result (IsFound self.old.vars) }
    {
        if self.broken {
            return Ok(Found::GaveUp);
        }
        self.broken = true;
        let found = self.run(turns)?;
        self.broken = matches!(&found, Found::GaveUp);
        Ok(found)
    }

    /// The clause is a line. Whether it is a clause is answered.
    fn take(&mut self, clause: &[Lit]) -> Result<bool, NoMemory>
        ensures { self.new.vars ≡ self.old.vars }
    {
        let latest = Latest::of(&self.state.trail, clause);
        let Some(index) = self.state.store.add(clause, Origin::Given, &[])? else {
            return Ok(false);
        };
        let first = match latest.first {
            None => 0,
            Some(first) => first.level,
        };
        let second = latest.second_level();
        if first == 0 {
            self.state.back_to(0);
            self.refute(Reason::Line { index })?;
            return Ok(true);
        }
        if second == OPEN {
            return self.state.watch_latest(index, latest);
        }
        if second < first {
            self.state.back_to(second);
            return self.state.assert_first(index, latest);
        }
        self.state.back_to(first - 1);
        self.state.watch_latest(index, latest)
    }

    /// The clause, which the last choice makes false, is a line; the search goes back as far as that needs. The cost
    /// is the clause's length and the number of the assignments that go. After want of memory, or where the literals
    /// are no clause over the variables, the search gives up.
    pub fn give(&mut self, clause: &[Lit]) -> Result<(), NoMemory>
        ensures { self.new.vars ≡ self.old.vars }
    {
        if self.broken {
            return Ok(());
        }
        self.broken = true;
        let taken = self.take(clause)?;
        self.broken = !taken;
        Ok(())
    }

    /// The table and the log, handed over. Of a log that refutes only the lines stay on which the last one rests. The
    /// cost is the length of the log.
    pub fn into_log(self) -> Result<(CoverTable, CoverLog), NoMemory>
        ensures table { IfOk result (λ r. r.0 ≡ self) }
        ensures vars { IfOk result (λ r. r.1.vars ≡ self.vars) }
    {
        let Search {
            state,
            resolution: _,
            last,
            opened: _,
            broken: _,
            alloc,
        } = self;
        let log = CoverLog::of(alloc, &state.store, last)?;
        Ok((state.into_table(), log))
    }
}
