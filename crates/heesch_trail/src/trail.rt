//! The trail: its public calls.
ghost use Rattle.std.specs.Prelude.{◌≡◌, ℕ, ◌+◌, ◌<◌, ◌≤◌, ◌^◌, [], ◌∷◌, ◌++◌, length, Some, None, All, IfOk, IfErr};
ghost use Rattle.std.specs.Prelude.{OnOk, OnErr, option_map, option_and_then, replicate, take, ◌-◌};
ghost use Rattle.heesch_cnf.specs.Clauses.{IsClause};
ghost use Rattle.heesch_cnf.specs.Lines.{IsNumber, numbered};
ghost use Rattle.heesch_cnf.specs.Literals.{lit_value, is_true_value, is_false_value};
ghost use Rattle.heesch_trail.specs.Fixpoint.{IsFixpoint};
ghost use Rattle.heesch_trail.specs.State.{State, IsTrail, fact_of, values_of, made_by, level_of, up_to, Continues};
ghost use Rattle.heesch_trail.specs.State.{IsPropagated, decision};

use crate::Step;
use crate::assigned::Assigned;
use crate::propagation::{drain, guarded, read_fresh};
use crate::watches::Watches;
use heesch_cnf::{FlatFormula, Formula, Lit, Lits, PackedLit};
use heesch_io::NoMemory;
use std::alloc::Global;
use std::marker::Model;

/// Clauses, and assignments to their variables in the order in which they were made.
#[derive(Drop)]
pub struct Trail {
    assigned: Assigned,
    watches: Watches,
    head: usize,
    fresh: usize,
    marks: Vec<usize>,
}

impl Model for Trail {
    ghost use Rattle.heesch_trail.specs.State.{State};

    ghost Value = { State };

    ghost use Rattle.heesch_trail.specs.Seen.{IsWatched};

    ghost view = { λ t. t.assigned };

    ghost invariant = { λ t. IsWatched t.assigned t.watches t.head t.fresh t.marks.items };
}

impl Trail {
    /// No assignments, over the clauses of the formula, which are taken over and not copied. The cost is the number of
    /// the variables and of the clauses.
    pub fn over(alloc: Global, formula: FlatFormula) -> Result<Trail, NoMemory>
        ensures opened { IfOk result (λ t. t ≡ record { vars = formula.vars; clauses = formula.clauses; steps = [] }) }
        ensures valid { IfOk result IsTrail }
    {
        let watches = Watches::open(alloc, &formula)?;
        Ok(Trail {
            assigned: Assigned::over(alloc, formula)?,
            watches,
            head: 0,
            fresh: 0,
            marks: Vec::new(alloc),
        })
    }

    /// No assignments, over the clauses of the formula, which are copied. A formula of 2^31 variables or more counts
    /// as want of memory. The cost is the number of the variables and of all literals.
    pub fn open(alloc: Global, formula: &Formula) -> Result<Trail, NoMemory>
        ensures opened { IfOk result
            (λ t. t ≡ record { vars = formula.now.vars; clauses = formula.now.clauses; steps = [] }) }
        ensures valid { IfOk result IsTrail }
    {
        Trail::over(alloc, FlatFormula::of(alloc, formula)?)
    }

    /// The number of the variables. It takes no memory.
    pub fn vars(&self) -> u32
        ensures vars { result ≡ self.now.vars }
        ensures valid { IsTrail self.now }
    {
        self.assigned.vars()
    }

    /// The number of the clauses. It takes no memory.
    pub fn count(&self) -> usize
        ensures count { result ≡ length self.now.clauses }
        ensures few { result ≤ 2 ^ 31 }
        ensures valid { IsTrail self.now }
    {
        self.assigned.count()
    }

    /// The clause of a number, which counts from 1. Nothing is copied. The cost is one look-up.
    pub fn clause(&self, number: u32) -> &[PackedLit]
        requires { IsNumber self.now.clauses number }
        ensures clause { result.now ≡ numbered self.now.clauses number }
        ensures valid { IsTrail self.now }
    {
        self.assigned.clause(number as usize - 1)
    }

    /// The true literals, in the order in which they were made. The other literals of a reason are false, and their
    /// negations stand before the literal that it made true. It takes no memory.
    pub fn made(&self) -> &[Lit]
        ensures made { result.now ≡ made_by self.now.steps }
        ensures valid { IsTrail self.now }
    {
        self.assigned.made()
    }

    /// The value of a variable, or None where it is open. The cost is one look-up.
    pub fn value(&self, var: u32) -> Option<bool>
        requires { var ≤ self.now.vars }
        ensures { result ≡ values_of self.now.steps var }
    {
        self.assigned.value(var)
    }

    /// The value of a literal, or None where its variable is open. The cost is one look-up.
    pub fn value_of(&self, lit: PackedLit) -> Option<bool>
        requires { lit.var ≤ self.now.vars }
        ensures { result ≡ lit_value (values_of self.now.steps) lit }
    {
        self.assigned.value_of(lit)
    }

    /// Whether a literal is true. The cost is one look-up.
    pub fn is_true(&self, lit: PackedLit) -> bool
        requires { lit.var ≤ self.now.vars }
        ensures { result ≡ is_true_value (lit_value (values_of self.now.steps) lit) }
    {
        self.assigned.is_true(lit)
    }

    /// Whether a literal is false. The cost is one look-up.
    pub fn is_false(&self, lit: PackedLit) -> bool
        requires { lit.var ≤ self.now.vars }
        ensures { result ≡ is_false_value (lit_value (values_of self.now.steps) lit) }
    {
        self.assigned.is_false(lit)
    }

    /// The level at which a variable was assigned, or None where it is open. The cost is one look-up.
    pub fn level_of(&self, var: u32) -> Option<u32>
        requires { var ≤ self.now.vars }
        ensures { result ≡ option_map (λ s. s.level) (fact_of self.now.steps var) }
    {
        self.assigned.level_of(var)
    }

    /// The number of the clause that a variable's value follows from, or None where it is open or was decided. The
    /// cost is one look-up.
    pub fn reason_of(&self, var: u32) -> Option<u32>
        requires { var ≤ self.now.vars }
        ensures { result ≡ option_and_then (λ s. s.reason) (fact_of self.now.steps var) }
    {
        self.assigned.reason_of(var)
    }

    /// The present level: 0 before any decision, and one more with each. It takes no memory.
    pub fn level(&self) -> u32
        ensures level { result ≡ level_of self.now.steps }
        ensures few { result ≤ length self.now.steps }
    {
        self.assigned.level()
    }

    /// The clause stands last, and its number, from 1, is answered; the assignments stay. At want of memory nothing
    /// has changed. The cost is the clause's length.
    pub fn add(&mut self, clause: Lits) -> Result<u32, NoMemory>
        requires form { IsClause self.old.vars clause }
        requires room { length self.old.clauses < 2 ^ 31 }
        ensures number { IfOk result (λ n. n ≡ length self.old.clauses + 1) }
        ensures ok { OnOk result (self.new ≡ record self.old { clauses = self.old.clauses ++ clause ∷ [] }) }
        ensures err { OnErr result (self.new ≡ self.old) }
        ensures valid { IsTrail self.new }
    {
        // Where the clause finds no room after this, its place stays, and nothing is watched there.
        self.watches.add()?;
        self.assigned.add(clause.as_slice())
    }

    /// A new level begins with this literal, whose variable is open, after the earlier assignments. At want of memory
    /// nothing has changed. The cost is that of one assignment.
    pub fn decide(&mut self, lit: Lit) -> Result<(), NoMemory>
        requires low { 1 ≤ lit.var }
        requires high { lit.var ≤ self.old.vars }
        requires is_open { values_of self.old.steps lit.var ≡ None }
        ensures ok { OnOk result
            (self.new ≡ record self.old {
              steps = self.old.steps ++ decision lit
                  (level_of self.old.steps + 1) ∷ [];
            }) }
        ensures err { OnErr result (self.new ≡ self.old) }
        ensures valid { IsTrail self.new }
    {
        let mark = guarded(&self.assigned, self.head, self.fresh);
        if self.marks.push(mark).is_err() {
            return Err(NoMemory);
        }
        let level = self.assigned.next_level(lit);
        let step = Step {
            lit,
            level,
            reason: None,
        };
        if self.assigned.assign(step).is_err() {
            let _ = self.marks.pop();
            return Err(NoMemory);
        }
        Ok(())
    }

    /// Makes assignments at the present level, each with the clause that it follows from, until every clause has a
    /// true literal or two open ones (None), or until all literals of a clause are false (its number). After want of
    /// memory the assignments made are consequences, and the call may be made again. The cost is that of reading the
    /// clauses of whose two watched literals one was made false, and those that were added; after going back to a
    /// level, also a look at each clause that was added since that level was left.
    pub fn propagate(&mut self) -> Result<Option<u32>, NoMemory>
        ensures goes_on { Continues self.old self.new }
        ensures found { IfOk result (IsPropagated self.new) }
        ensures valid { IsTrail self.new }
    {
        let found = read_fresh(&mut self.assigned, &mut self.watches, &mut self.fresh)?;
        if found.is_some() {
            return Ok(found);
        }
        drain(&mut self.assigned, &mut self.watches, &mut self.head)
    }

    /// The number of clauses that `propagate` read since `open`, a look at a clause's watched literals after going
    /// back counted too; it stays at the greatest `u64` once it is there. It takes no memory.
    pub fn visits(&self) -> u64 {
        self.watches.visits()
    }

    /// The assignments above the level are gone, and the others stay, with their order, levels and reasons. The cost
    /// is the number of the assignments that go.
    pub fn back_to(&mut self, level: u32)
        requires { level ≤ level_of self.old.steps }
        ensures back { self.new ≡ record self.old { steps = up_to level self.old.steps } }
        ensures level { level_of self.new.steps ≡ level }
        ensures valid { IsTrail self.new }
    {
        if level < self.assigned.level() {
            self.assigned.back_to(level);
            self.head = self.assigned.made().len();
            self.fresh = self.marks[level as usize];
            self.marks.truncate(level as usize);
        }
    }
}
