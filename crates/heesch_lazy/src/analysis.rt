//! The analysis of a conflict, up to the clause that is learnt from it.
ghost use Rattle.std.specs.Prelude.{◌≡◌};

use crate::marks::{DEPTH, Marks};
use crate::reason::Reason;
use crate::state::State;
use crate::trail::Trail;
use heesch_cnf::Lit;
use heesch_io::NoMemory;
use std::alloc::Global;

/// What was learnt from a conflict.
#[derive(Debug, Clone, Copy)]
pub(crate) enum Learnt {
    /// The clause of the resolution, shown by its reasons.
    Line,
    /// The clause of a want that the variable asks for lies in that clause, so nothing new was learnt.
    Late { variable: u32, want: u32 },
    /// So does that of the want of the variable for one of those in slots.
    LateNear { variable: u32 },
    /// The conflict could not be resolved.
    Nothing,
}

/// What a conflict is resolved in: the marks are those of the variables that are left of it, and the reasons those
/// that were resolved.
#[derive(Drop)]
pub(crate) struct Resolution {
    marks: Marks,
    pub reasons: Vec<Reason>,
    kept: Vec<u32>,
    pub clause: Vec<Lit>,
}

impl Resolution {
    /// Nothing is marked. The cost is the number of the variables.
    pub fn new(alloc: Global, vars: u32) -> Result<Resolution, NoMemory> {
        Ok(Resolution {
            marks: Marks::new(alloc, vars)?,
            reasons: Vec::new(alloc),
            kept: Vec::new(alloc),
            clause: Vec::new(alloc),
        })
    }

    fn add_reason(&mut self, state: &State, reason: Reason) -> Result<(), NoMemory> {
        self.reasons.push(state.store.named(reason))?;
        self.marks.mark_members(state, reason)
    }

    /// The assignment at the place is left out, resolved with its reason where it is marked. Whether it has one is
    /// answered.
    fn resolve_at(&mut self, state: &State, place: usize) -> Result<bool, NoMemory> {
        let Some(lit) = state.trail.made().get(place) else {
            return Ok(false);
        };
        let variable = lit.var();
        if !self.marks.is_marked(variable) {
            return Ok(true);
        }
        let Some(reason) = state.trail.reason_of(variable) else {
            return Ok(false);
        };
        self.add_reason(state, reason)?;
        self.marks.unmark(&state.trail, variable);
        Ok(true)
    }

    /// The assignment at the place is left out, resolved with its reason, where it is marked, of a lower level, and
    /// follows from the other marked ones and from level 0. Whether it was marked and of a lower level is answered.
    fn shorten_at(&mut self, state: &State, place: usize) -> Result<bool, NoMemory> {
        let Some(lit) = state.trail.made().get(place) else {
            return Ok(false);
        };
        let variable = lit.var();
        let is_here = state.trail.level_of(variable) == state.trail.level();
        if is_here || !self.marks.is_marked(variable) {
            return Ok(false);
        }
        if self.marks.follows(state, variable, DEPTH)? {
            self.resolve_at(state, place)?;
        }
        Ok(true)
    }

    /// Leaves out what follows from the other literals and from level 0. The assignments are passed over from this
    /// place down to the earliest of a marked variable: each variable that was marked is either passed by then or
    /// resolved before, which the reasons count, or the one of the present level that stays.
    fn shorten(&mut self, state: &State, from: usize) -> Result<(), NoMemory> {
        let mut passed = self.reasons.len();
        for place in (0..from).rev() {
            if passed >= self.marks.touched() {
                break;
            }
            if self.shorten_at(state, place)? {
                passed = passed.saturating_add(1);
            }
        }
        Ok(())
    }

    /// Resolves the conflict with the reasons of the latest assignments, until at most `stop` literals of the present
    /// level are left, and then leaves out what follows from the other literals. The reasons stand in the order of the
    /// assignments. Whether it came so far is answered.
    fn resolve(&mut self, state: &State, conflict: Reason, stop: usize) -> Result<bool, NoMemory> {
        self.reasons.clear();
        self.add_reason(state, conflict)?;
        let mut from = state.trail.made().len();
        for place in (0..state.trail.made().len()).rev() {
            if self.marks.pending() <= stop {
                break;
            }
            from = place;
            if !self.resolve_at(state, place)? {
                return Ok(false);
            }
        }
        self.shorten(state, from)?;
        self.reasons.reverse();
        Ok(self.marks.pending() <= stop)
    }

    /// The clause is that of the marked variables, whose literals are false. They are sorted, since the variables of a
    /// clause rise.
    fn assemble(&mut self, trail: &Trail) -> Result<(), NoMemory> {
        self.kept.clear();
        self.marks.keep(&mut self.kept)?;
        self.kept.sort_unstable();
        self.clause.clear();
        let mut last = 0;
        for variable in &self.kept {
            if last < *variable {
                self.clause.push(trail.false_literal(*variable))?;
                last = *variable;
            }
        }
        Ok(())
    }

    /// Whether the clause has each candidate of the want.
    fn has_candidates(&self, state: &State, want: u32) -> bool {
        for candidate in state.table.candidates(want) {
            let has = self.marks.is_marked(*candidate) && state.trail.value(*candidate).is_false();
            if !has {
                return false;
            }
        }
        true
    }

    /// Whether the variable asks for one of those in slots, and the clause has each of them.
    fn has_neighbours(&self, state: &State, variable: u32) -> bool {
        if !state.table.asks_near(variable) {
            return false;
        }
        let reach = state.table.reach(variable);
        for place in 0..reach.len() {
            let candidate = reach.at(place);
            let has = self.marks.is_marked(candidate) && state.trail.value(candidate).is_false();
            if candidate != 0 && !has {
                return false;
            }
        }
        true
    }

    /// The literal of the clause that was assigned at the present level.
    fn top(&self, trail: &Trail) -> Option<Lit> {
        for lit in &self.clause {
            if trail.level_of(lit.var) == trail.level() {
                return Some(*lit);
            }
        }
        None
    }

    /// The line that was learnt; or the want that the variable of the clause's top literal asks for and whose clause
    /// lies in it.
    fn judged(&self, state: &State) -> Learnt {
        let Some(top) = self.top(&state.trail) else {
            return Learnt::Nothing;
        };
        if top.positive {
            return Learnt::Line;
        }
        for want in state.table.asked(top.var) {
            if self.has_candidates(state, *want) {
                return Learnt::Late {
                    variable: top.var,
                    want: *want,
                };
            }
        }
        if self.has_neighbours(state, top.var) {
            return Learnt::LateNear { variable: top.var };
        }
        Learnt::Line
    }

    fn learnt_from(&mut self, state: &State, conflict: Reason) -> Result<Learnt, NoMemory> {
        if !self.resolve(state, conflict, 1)? {
            return Ok(Learnt::Nothing);
        }
        self.assemble(&state.trail)?;
        Ok(self.judged(state))
    }

    /// What is learnt from a conflict above level 0. The cost is the lengths of the clauses that are resolved or
    /// looked at to shorten the clause, the assignments from the latest down to the earliest of a variable in them
    /// that was marked, and the sorting of the clause's variables.
    pub fn learn(&mut self, state: &State, conflict: Reason) -> Result<Learnt, NoMemory> {
        let learnt = self.learnt_from(state, conflict);
        self.marks.clear();
        learnt
    }

    /// The reasons are those of the final line, from a conflict at level 0. Whether there is one is answered.
    pub fn refute(&mut self, state: &State, conflict: Reason) -> Result<bool, NoMemory> {
        let resolved = self.resolve(state, conflict, 0);
        self.marks.clear();
        resolved
    }

    /// The clause is that of the want that the variable asks for: not the variable, or a candidate. It needs no
    /// reasons.
    pub fn copy_asked(&mut self, state: &State, variable: u32, want: u32) -> Result<(), NoMemory> {
        let negation = Lit {
            var: variable,
            positive: false,
        };
        let mut stands = false;
        self.clause.clear();
        self.reasons.clear();
        for candidate in state.table.candidates(want) {
            if !stands && variable < *candidate {
                self.clause.push(negation)?;
                stands = true;
            }
            self.clause.push(Lit {
                var: *candidate,
                positive: true,
            })?;
        }
        if !stands {
            self.clause.push(negation)?;
        }
        Ok(())
    }
}
