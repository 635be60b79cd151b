//! The analysis of a conflict, up to the clause that is learnt from it.
ghost use Rattle.std.specs.Prelude.{◌≡◌, ◌+◌, ◌<◌, ◌≤◌, ◌⊎◌, IfOk, OnOk, length, reverse};
ghost use Rattle.heesch_cdcl.specs.Marking.{HavePlaces, pending_in};
ghost use Rattle.heesch_cdcl.specs.Marked.{IsClauseOfMarked, IsLevelIn};
ghost use Rattle.heesch_cdcl.specs.Resolved.{IsDerived, IsResolving, IsResolved, IsBegun};
ghost use Rattle.heesch_cnf.specs.Clauses.{IsClause};
ghost use Rattle.heesch_cnf.specs.Lines.{FinalHolds};
ghost use Rattle.heesch_trail.specs.State.{IsTrail, level_of};
ghost use Rattle.heesch_cdcl.specs.Learning.{IsLearnt};

use crate::assembly::clause_of_marks;
use crate::conflict::Conflict;
use crate::marks::Marks;
use heesch_cnf::{Hints, Lit, Lits};
use heesch_io::{NoMemory, Seq};
use heesch_trail::Trail;
use std::alloc::Global;

/// A clause that follows from the conflict, its hints, and the level at which it has one open literal.
#[derive(Drop)]
pub struct Learnt {
    pub clause: Lits,
    pub hints: Hints,
    pub back: u32,
}

/// What a conflict is resolved in: the marks are those of the variables that are left of it, and the hints those of
/// the clauses that were resolved. Both stay until the next conflict.
#[derive(Drop)]
pub struct Resolution {
    pub marks: Marks,
    pub hints: Vec<u32>,
    kept: Vec<u32>,
}

/// The variables of the conflict are marked, and no others.
fn begin(conflict: &Conflict, marks: &mut Marks) -> Result<(), NoMemory>
    requires { HavePlaces conflict.now.trail.vars marks.old }
    ensures begun { OnOk result (IsBegun conflict.now.trail conflict.now.number marks.new) }
    ensures places { HavePlaces conflict.now.trail.vars marks.new }
{
    marks.clear();
    let trail = conflict.trail;
    let clause = trail.clause(conflict.number);
    marks.mark(trail, trail.level(), clause)?;
    Ok(())
}

/// The same hints, without spare room.
fn copy_of(alloc: Global, hints: &[u32]) -> Result<Hints, NoMemory>
    ensures { IfOk result (λ copy. copy ≡ hints.now) }
{
    let copy = Vec::from_slice(alloc, hints).map_err(|_| NoMemory)?;
    Ok(Seq::from_vec(copy))
}

/// A level of the clause below the present one, and the highest of these, or 0.
fn back_of(trail: &Trail, clause: &[Lit]) -> u32
    requires form { IsClause trail.now.vars clause.now }
    requires level { 1 ≤ level_of trail.now.steps }
    ensures below { result < level_of trail.now.steps }
    ensures reached { IsLevelIn trail.now.steps clause.now result }
    ensures valid { IsTrail trail.now }
{
    let _ = trail.vars();
    let level = trail.level();
    let mut back = 0;
    for lit in clause {
        if let Some(of) = trail.level_of(lit.var) {
            if back < of && of < level {
                back = of;
            }
        }
    }
    back
}

impl Resolution {
    /// No variable is marked, and each has a place.
    pub fn new(alloc: Global, vars: u32) -> Result<Resolution, NoMemory>
        ensures { IfOk result (λ r. HavePlaces vars r.marks) }
    {
        Ok(Resolution {
            marks: Marks::new(alloc, vars)?,
            hints: Vec::new(alloc),
            kept: Vec::new(alloc),
        })
    }

    /// The assignment at the place is left out, resolved with its reason where it is marked.
    fn resolve_at(&mut self, trail: &Trail, place: usize) -> Result<(), NoMemory>
        requires many { (2 ≤ pending_in self.old.marks)
            ⊎ ((1 ≤ pending_in self.old.marks) × (level_of trail.now.steps ≡ 0)) }
        requires resolving { IsResolving trail.now (place + 1) self.old.marks (reverse self.old.hints.items) }
        ensures resolving { OnOk result (IsResolving trail.now place self.new.marks (reverse self.new.hints.items)) }
        ensures places { HavePlaces trail.now.vars self.new.marks }
        ensures one { OnOk result (pending_in self.old.marks ≤ pending_in self.new.marks + 1) }
    {
        let var = trail.made()[place].var;
        if !self.marks.is_seen(var) {
            return Ok(());
        }
        let Some(reason) = trail.reason_of(var) else {
            unreachable!()
        };
        self.hints.push(reason).map_err(|_| NoMemory)?;
        let level = trail.level();
        self.marks.mark(trail, level, trail.clause(reason))?;
        self.marks.unmark(trail, level, var);
        Ok(())
    }

    /// The assignment at the place is left out, resolved with its reason, where it is marked, of a lower level, and
    /// follows from the other marked ones and from level 0. Whether it was marked and of a lower level is answered.
    fn shorten_at(&mut self, trail: &Trail, place: usize) -> Result<bool, NoMemory>
        requires { IsDerived trail.now (place + 1) self.old.marks (reverse self.old.hints.items) }
        ensures derived { OnOk result (IsDerived trail.now place self.new.marks (reverse self.new.hints.items)) }
        ensures places { HavePlaces trail.now.vars self.new.marks }
        ensures same { OnOk result (pending_in self.new.marks ≡ pending_in self.old.marks) }
    {
        let var = trail.made()[place].var;
        if !self.marks.is_below(var) {
            return Ok(false);
        }
        if !self.marks.follows(trail, var)? {
            return Ok(true);
        }
        let Some(reason) = trail.reason_of(var) else {
            return Ok(true);
        };
        self.hints.push(reason).map_err(|_| NoMemory)?;
        let level = trail.level();
        self.marks.mark(trail, level, trail.clause(reason))?;
        self.marks.unmark(trail, level, var);
        Ok(true)
    }

    /// Leaves out what follows from the other literals and from level 0, so what was assigned at level 0 too. The
    /// assignments are passed over from this place down to the earliest of a marked variable: each variable that was
    /// marked is either passed by then or resolved before, which the hints count, or the one of the present level that
    /// stays.
    fn shorten(&mut self, trail: &Trail, from: usize) -> Result<(), NoMemory>
        requires derived { IsDerived trail.now from self.old.marks (reverse self.old.hints.items) }
        ensures derived { OnOk result (IsDerived trail.now 0 self.new.marks (reverse self.new.hints.items)) }
        ensures places { HavePlaces trail.now.vars self.new.marks }
        ensures same { OnOk result (pending_in self.new.marks ≡ pending_in self.old.marks) }
    {
        let mut place = from;
        let mut passed = self.hints.len();
        while place > 0 && passed < self.marks.touched() {
            place -= 1;
            if self.shorten_at(trail, place)? {
                passed = passed.saturating_add(1);
            }
        }
        Ok(())
    }

    /// Resolves the conflict with the reasons of the latest assignments, until at most one literal of the present
    /// level is left, and none at level 0, and then leaves out what follows from the other literals. The hints are
    /// those of the resolved clauses, in the order of the assignments.
    fn resolve(&mut self, conflict: &Conflict) -> Result<(), NoMemory>
        requires { HavePlaces conflict.now.trail.vars self.old.marks }
        ensures resolved { OnOk result (IsResolved conflict.now.trail self.new.marks self.new.hints.items) }
        ensures places { HavePlaces conflict.now.trail.vars self.new.marks }
        ensures valid { OnOk result (IsTrail conflict.now.trail) }
    {
        begin(conflict, &mut self.marks)?;
        self.hints.clear();
        self.hints.push(conflict.number).map_err(|_| NoMemory)?;
        let trail = conflict.trail;
        let stop = if trail.level() == 0 { 0 } else { 1 };
        let mut place = trail.made().len();
        while self.marks.pending() > stop {
            place -= 1;
            self.resolve_at(trail, place)?;
        }
        self.shorten(trail, place)?;
        self.hints.reverse();
        Ok(())
    }

    /// The clause that is learnt from a conflict above level 0. The cost is the lengths of the clauses that are
    /// resolved or looked at to shorten it, the assignments from the latest down to the earliest of a variable in them
    /// that was marked, the sorting of the clause's variables, and the variables that the conflict before marked.
    pub fn learn(&mut self, alloc: Global, conflict: &Conflict) -> Result<Learnt, NoMemory>
        requires level { 1 ≤ level_of conflict.now.trail.steps }
        requires places { HavePlaces conflict.now.trail.vars self.old.marks }
        ensures learnt { IfOk result (IsLearnt conflict.now.trail) }
        ensures places { HavePlaces conflict.now.trail.vars self.new.marks }
    {
        self.resolve(conflict)?;
        let trail = conflict.trail;
        let clause = clause_of_marks(alloc, trail, &self.marks, &mut self.kept)?;
        let back = back_of(trail, clause.as_slice());
        Ok(Learnt {
            clause,
            hints: copy_of(alloc, &self.hints)?,
            back,
        })
    }

    /// The hints of the final line, from a conflict at level 0.
    pub fn refute(&mut self, alloc: Global, conflict: &Conflict) -> Result<Hints, NoMemory>
        requires level { level_of conflict.now.trail.steps ≡ 0 }
        requires places { HavePlaces conflict.now.trail.vars self.old.marks }
        ensures last { IfOk result (FinalHolds conflict.now.trail.clauses) }
        ensures places { HavePlaces conflict.now.trail.vars self.new.marks }
    {
        self.resolve(conflict)?;
        copy_of(alloc, &self.hints)
    }
}
