//! Propagation: what follows from each assignment in turn.
ghost use Rattle.std.specs.Prelude.{◌≡◌};

use crate::reason::Reason;
use crate::state::{State, reason_of};
use crate::store::Pair;
use crate::wants::{Owner, Watching};
use heesch_cnf::PackedLit;
use heesch_io::NoMemory;

/// What a look at a want or a clause finds, one of whose watching members has become false.
#[derive(Clone, Copy)]
enum Look {
    /// It is watched as before.
    Stays,
    /// Another member watches it.
    Leaves,
    /// All its members are false.
    IsFalse(Reason),
}

impl State {
    /// Makes what follows from the assignments, until nothing does, or until a clause is false, which is answered. The
    /// cost is that of the visits: for a chosen variable the holders of its cells and the wants that it asks for; for
    /// a denied one the wants that it watches, and the clauses.
    pub fn propagate(&mut self) -> Result<Option<Reason>, NoMemory>
        ensures { self.new.table.vars ≡ self.old.table.vars }
    {
        // A variable is assigned once, so there are at most so many visits.
        for _ in 0..u64::from(self.table.vars()) + 1 {
            let Some(lit) = self.trail.next() else {
                return Ok(None);
            };
            let conflict = self.visit(lit)?;
            if conflict.is_some() {
                return Ok(conflict);
            }
        }
        Ok(None)
    }

    fn visit(&mut self, lit: PackedLit) -> Result<Option<Reason>, NoMemory>
        ensures { self.new.table.vars ≡ self.old.table.vars }
    {
        let conflict = if lit.is_positive() {
            self.visit_chosen(lit.var())?
        } else {
            self.visit_denied(lit.var())?
        };
        if conflict.is_some() {
            return Ok(conflict);
        }
        self.visit_clauses(lit.opposite())
    }

    fn visit_chosen(&mut self, tile: u32) -> Result<Option<Reason>, NoMemory>
        ensures { self.new.table.vars ≡ self.old.table.vars }
    {
        for place in 0..self.table.cells(tile).len() {
            if let Some(other) = self.take_cell(tile, place)? {
                return Ok(Some(Reason::Apart { tile, other }));
            }
        }
        for place in 0..self.table.asked(tile).len() {
            let conflict = self.ask(tile, place)?;
            if conflict.is_some() {
                return Ok(conflict);
            }
        }
        match self.near(tile)? {
            None => Ok(None),
            Some(want) => self.begin(want, Owner::Variable(tile)),
        }
    }

    /// The want of the variable for one of those in slots, if it asks for one. The cost of the first call for a
    /// variable is the number of the slots.
    pub fn near(&mut self, variable: u32) -> Result<Option<u32>, NoMemory>
        ensures { self.new.table.vars ≡ self.old.table.vars }
    {
        let want = self.table.want_near(variable)?;
        self.wants
            .make_room(self.table.wants(), self.table.lists())?;
        Ok(want)
    }

    /// The tile has the cell at this place of its cells, so the other holders are denied. One that is chosen is
    /// answered.
    fn take_cell(&mut self, tile: u32, place: usize) -> Result<Option<u32>, NoMemory>
        ensures { self.new.table.vars ≡ self.old.table.vars }
    {
        let Some(cell) = self.table.cells(tile).get(place).copied() else {
            return Ok(None);
        };
        self.wants.note_chosen(cell, tile);
        self.trail.deny_others(tile, self.table.holders(cell))
    }

    /// The want at this place of those that the tile asks for holds.
    fn ask(&mut self, tile: u32, place: usize) -> Result<Option<Reason>, NoMemory>
        ensures { self.new.table.vars ≡ self.old.table.vars }
    {
        match self.table.asked(tile).get(place).copied() {
            None => Ok(None),
            Some(want) => self.begin(want, Owner::Variable(tile)),
        }
    }

    /// The want holds since its owner does. Where it isn't served, two candidates that aren't denied watch it; a
    /// single one is chosen; and where there is none, the want is answered.
    pub fn begin(&mut self, want: u32, owner: Owner) -> Result<Option<Reason>, NoMemory>
        ensures { self.new.table.vars ≡ self.old.table.vars }
    {
        if self.wants.owner(want) != Owner::Nobody || self.is_served(want) {
            return Ok(None);
        }
        self.wants.begin(want, owner)?;
        let before = self.wants.watching(want);
        let is_watched = !self.trail.value(before.one).is_false()
            && !self.trail.value(before.other).is_false();
        if is_watched {
            return Ok(None);
        }
        let (last, other) = self.trail.last_two(self.table.candidates(want));
        if last == 0 {
            return Ok(reason_of(owner, want));
        }
        let pair = Watching {
            one: last,
            other: if other != 0 {
                other
            } else if before.one != last {
                before.one
            } else {
                before.other
            },
        };
        self.wants.watch(want, pair)?;
        if other == 0 && self.trail.value(last).is_open() {
            self.trail.assign(last, true, reason_of(owner, want))?;
        }
        Ok(None)
    }

    fn visit_denied(&mut self, variable: u32) -> Result<Option<Reason>, NoMemory>
        ensures { self.new.table.vars ≡ self.old.table.vars }
    {
        let mut place = 0usize;
        for _ in 0..self.wants.watched_count(variable) {
            let Some(want) = self.wants.watched_at(variable, place) else {
                break;
            };
            match self.look_at_want(want, variable)? {
                Look::Stays => place = place.saturating_add(1),
                Look::Leaves => self.wants.unlist(variable, place),
                Look::IsFalse(reason) => return Ok(Some(reason)),
            }
        }
        Ok(None)
    }

    fn look_at_want(&mut self, want: u32, denied: u32) -> Result<Look, NoMemory>
        ensures { self.new.table.vars ≡ self.old.table.vars }
    {
        let Some(other) = self.wants.watching(want).beside(denied) else {
            return Ok(Look::Leaves);
        };
        let Some(reason) = reason_of(self.wants.owner(want), want) else {
            return Ok(Look::Stays);
        };
        if self.trail.value(other).is_true() || self.is_served(want) {
            return Ok(Look::Stays);
        }
        match self.trail.last_beside(self.table.candidates(want), other) {
            Some(one) => {
                self.wants.watch(want, Watching { one, other })?;
                Ok(Look::Leaves)
            }
            None => self.follow(other, true, reason),
        }
    }

    /// The literal of the variable, which is the only one that isn't false, is made true, where it is open.
    fn follow(&mut self, variable: u32, positive: bool, reason: Reason) -> Result<Look, NoMemory>
        ensures { self.new.table.vars ≡ self.old.table.vars }
    {
        if !self.trail.value(variable).is_open() {
            return Ok(Look::IsFalse(reason));
        }
        self.trail.assign(variable, positive, Some(reason))?;
        Ok(Look::Stays)
    }

    fn visit_clauses(&mut self, falsified: PackedLit) -> Result<Option<Reason>, NoMemory>
        ensures { self.new.table.vars ≡ self.old.table.vars }
    {
        let mut place = 0usize;
        for _ in 0..self.store.watched_count(falsified) {
            let Some(entry) = self.store.watched_at(falsified, place) else {
                break;
            };
            if self.trail.truth(entry.blocker).is_true() {
                place = place.saturating_add(1);
                continue;
            }
            match self.look_at_clause(entry.index, falsified)? {
                Look::Stays => place = place.saturating_add(1),
                Look::Leaves => self.store.unlist(falsified, place),
                Look::IsFalse(reason) => return Ok(Some(reason)),
            }
        }
        Ok(None)
    }

    fn look_at_clause(&mut self, index: u32, falsified: PackedLit) -> Result<Look, NoMemory>
        ensures { self.new.table.vars ≡ self.old.table.vars }
    {
        let Some(pair) = self.store.pair(index) else {
            return Ok(Look::Leaves);
        };
        let Some(other) = pair.beside(falsified) else {
            return Ok(Look::Leaves);
        };
        if self.trail.truth(other).is_true() {
            return Ok(Look::Stays);
        }
        match self
            .trail
            .other_literal(self.store.clause(index as usize), other)
        {
            Some(one) => {
                self.store.rewatch(index, Pair { one, other })?;
                Ok(Look::Leaves)
            }
            None => self.follow(other.var(), other.is_positive(), Reason::Line { index }),
        }
    }
}
