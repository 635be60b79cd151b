//! Clauses and assignments in flat arrays.
ghost use Rattle.std.specs.Prelude.{◌≡◌, ◌≢◌, ℕ, ◌+◌, ◌<◌, ◌≤◌, ◌^◌, [], ◌∷◌, ◌++◌, length, Some, None, All, IfOk};
ghost use Rattle.std.specs.Prelude.{IfErr, OnOk, OnErr, option_map, option_and_then, replicate, take, ◌-◌};
ghost use Rattle.std.specs.Prelude.{slice_index_or, true};
ghost use Rattle.heesch_cnf.specs.Clauses.{IsClause};
ghost use Rattle.heesch_cnf.specs.Literals.{opposite, lit_value, is_true_value, is_false_value};
ghost use Rattle.heesch_cnf.specs.Flat.{code_of};
ghost use Rattle.heesch_trail.specs.Inner.{value_in, reason_in};
ghost use Rattle.heesch_trail.specs.declared.truth.Truth.TheVariants.{Open};
ghost use Rattle.heesch_trail.specs.Readings.{IsReading, IsOther};
ghost use Rattle.heesch_trail.specs.State.{State, IsTrail, StepHolds, fact_of, values_of, made_by, level_of, up_to};

use crate::Step;
use crate::pair::Pair;
use crate::scan::Reading;
use crate::truth::Truth;
use heesch_cnf::{FlatFormula, Lit, PackedLit};
use heesch_io::NoMemory;
use std::alloc::Global;
use std::marker::Model;

/// Clauses, and assignments to their variables in the order in which they were made: by literal its value, by variable
/// the level and the number of the clause that it follows from, or 0.
#[derive(Drop)]
pub struct Assigned {
    formula: FlatFormula,
    values: Vec<Truth>,
    levels: Vec<u32>,
    reasons: Vec<u32>,
    made: Vec<Lit>,
}

impl Model for Assigned {
    ghost use Rattle.heesch_trail.specs.State.{State};

    ghost Value = { State };

    ghost use Rattle.heesch_trail.specs.Inner.{IsInner, steps_of};

    ghost view = { λ t. record {
      vars = t.formula.vars;
      clauses = t.formula.clauses;
      steps = steps_of t.levels.items
          t.reasons.items t.made.items;
    } };

    ghost invariant = { λ t. IsInner t.formula.vars t.formula.clauses t.values.items t.levels.items t.reasons.items
        t.made.items };
}

/// Where a literal's value stands.
fn code(lit: Lit) -> usize
    ensures { result ≡ code_of lit }
{
    2 * lit.var as usize + lit.positive as usize
}

/// The number that stands for a reason: 0 where there is none.
fn reason_number(reason: Option<u32>) -> u32
    requires { reason ≢ Some 0 }
    ensures { reason_in result ≡ reason }
{
    match reason {
        None => 0,
        Some(number) => number,
    }
}

/// The reason that a number stands for.
fn reason_of_number(number: u32) -> Option<u32>
    ensures { result ≡ reason_in number }
{
    if number == 0 { None } else { Some(number) }
}

/// Whether the clause has just two literals.
fn is_binary(clause: &[PackedLit]) -> bool
    ensures { result ≡ true → length clause.now ≡ 2 }
{
    clause.len() == 2
}

/// The values of as many literals, which are open.
fn opens(alloc: Global, count: usize) -> Result<Vec<Truth>, NoMemory>
    ensures { IfOk result (λ v. v.items ≡ replicate count Open) }
{
    let mut values = Vec::with_capacity(alloc, count)?;
    for _ in 0..count {
        values.push(Truth::Open)?;
    }
    Ok(values)
}

impl Assigned {
    /// No assignments, over the clauses of the formula, which are taken over. The cost is the number of the variables.
    pub fn over(alloc: Global, formula: FlatFormula) -> Result<Assigned, NoMemory>
        ensures opened { IfOk result (λ t. t ≡ record { vars = formula.vars; clauses = formula.clauses; steps = [] }) }
        ensures valid { IfOk result IsTrail }
    {
        let places = formula.vars() as usize + 1;
        Ok(Assigned {
            formula,
            values: opens(alloc, 2 * places)?,
            levels: vec![in alloc; 0; places]?,
            reasons: vec![in alloc; 0; places]?,
            made: Vec::with_capacity(alloc, places)?,
        })
    }

    /// The number of the variables. It takes no memory.
    pub fn vars(&self) -> u32
        ensures vars { result ≡ self.now.vars }
        ensures valid { IsTrail self.now }
    {
        self.formula.vars()
    }

    /// The true literals, in the order in which they were made. The other literals of a reason are false, and their
    /// negations stand before the literal that it made true. It takes no memory.
    pub fn made(&self) -> &[Lit]
        ensures made { result.now ≡ made_by self.now.steps }
        ensures valid { IsTrail self.now }
    {
        &self.made
    }

    /// The value of a variable, or None where it is open. The cost is one look-up.
    pub fn value(&self, var: u32) -> Option<bool>
        requires { var ≤ self.now.vars }
        ensures { result ≡ values_of self.now.steps var }
    {
        self.values[2 * var as usize + 1].value()
    }

    /// The value of a literal. The cost is one look-up.
    fn truth(&self, lit: PackedLit) -> Truth
        requires { lit.var ≤ self.now.vars }
        ensures { value_in result ≡ lit_value (values_of self.now.steps) lit }
    {
        self.values[lit.code()]
    }

    /// The value of a literal, or None where its variable is open. The cost is one look-up.
    pub fn value_of(&self, lit: PackedLit) -> Option<bool>
        requires { lit.var ≤ self.now.vars }
        ensures { result ≡ lit_value (values_of self.now.steps) lit }
    {
        self.truth(lit).value()
    }

    /// Whether a literal is true. The cost is one look-up.
    pub fn is_true(&self, lit: PackedLit) -> bool
        requires { lit.var ≤ self.now.vars }
        ensures { result ≡ is_true_value (lit_value (values_of self.now.steps) lit) }
    {
        self.truth(lit).is_true()
    }

    /// Whether a literal is false. The cost is one look-up.
    pub fn is_false(&self, lit: PackedLit) -> bool
        requires { lit.var ≤ self.now.vars }
        ensures { result ≡ is_false_value (lit_value (values_of self.now.steps) lit) }
    {
        self.truth(lit).is_false()
    }

    /// The level at which a variable was assigned, or None where it is open. The cost is one look-up.
    pub fn level_of(&self, var: u32) -> Option<u32>
        requires { var ≤ self.now.vars }
        ensures { result ≡ option_map (λ s. s.level) (fact_of self.now.steps var) }
    {
        match self.value(var) {
            None => None,
            Some(_) => Some(self.levels[var as usize]),
        }
    }

    /// The number of the clause that a variable's value follows from, or None where it is open or was decided. The
    /// cost is one look-up.
    pub fn reason_of(&self, var: u32) -> Option<u32>
        requires { var ≤ self.now.vars }
        ensures { result ≡ option_and_then (λ s. s.reason) (fact_of self.now.steps var) }
    {
        match self.value(var) {
            None => None,
            Some(_) => reason_of_number(self.reasons[var as usize]),
        }
    }

    /// The present level: 0 before any decision, and one more with each. It takes no memory.
    pub fn level(&self) -> u32
        ensures level { result ≡ level_of self.now.steps }
        ensures few { result ≤ length self.now.steps }
    {
        match self.made.last() {
            None => 0,
            Some(lit) => self.levels[lit.var as usize],
        }
    }

    /// The clause stands last, and its number, from 1, is answered; the assignments stay. At want of memory nothing
    /// has changed. The cost is the clause's length.
    pub fn add(&mut self, clause: &[Lit]) -> Result<u32, NoMemory>
        requires form { IsClause self.old.vars clause.now }
        requires room { length self.old.clauses < 2 ^ 31 }
        ensures number { IfOk result (λ n. n ≡ length self.old.clauses + 1) }
        ensures ok { OnOk result (self.new ≡ record self.old { clauses = self.old.clauses ++ clause.now ∷ [] }) }
        ensures err { OnErr result (self.new ≡ self.old) }
        ensures valid { IsTrail self.new }
    {
        self.formula.add(clause)?;
        Ok(self.formula.len() as u32)
    }

    /// The assignment stands last, or nothing has changed.
    pub fn assign(&mut self, step: Step) -> Result<(), NoMemory>
        requires { StepHolds self.old.vars self.old.clauses self.old.steps step }
        ensures ok { OnOk result (self.new ≡ record self.old { steps = self.old.steps ++ step ∷ [] }) }
        ensures err { OnErr result (self.new ≡ self.old) }
        ensures valid { IsTrail self.new }
    {
        if self.made.push(step.lit).is_err() {
            return Err(NoMemory);
        }
        let var = step.lit.var as usize;
        self.values[code(step.lit)] = Truth::Yes;
        self.values[code(step.lit.opposite())] = Truth::No;
        self.levels[var] = step.level;
        self.reasons[var] = reason_number(step.reason);
        Ok(())
    }

    /// The level that begins where this literal, whose variable is open, is decided.
    pub fn next_level(&self, lit: Lit) -> u32
        requires low { 1 ≤ lit.var }
        requires high { lit.var ≤ self.now.vars }
        requires is_open { values_of self.now.steps lit.var ≡ None }
        ensures { result ≡ level_of self.now.steps + 1 }
    {
        let _ = self.formula.vars();
        self.level() + 1
    }

    /// Which literals of a clause aren't false: none, the only one, or the first two, and whether there are no others.
    fn read_clause(&self, clause: &[PackedLit]) -> Reading
        requires form { IsClause self.now.vars clause.now }
        ensures { IsReading (values_of self.now.steps) clause.now result }
    {
        let mut left = None;
        for lit in clause {
            if !self.is_false(*lit) {
                match left {
                    None => left = Some(*lit),
                    Some(one) => return Reading::Two(Pair { one, other: *lit }, is_binary(clause)),
                }
            }
        }
        match left {
            None => Reading::Nothing,
            Some(lit) => Reading::One(lit),
        }
    }

    /// The clause of an index, which counts from 0, under the present assignments: which of its literals aren't false,
    /// none, the only one, or the first two. The cost is at most its length.
    pub fn read(&self, index: usize) -> Reading
        requires { index < length self.now.clauses }
        ensures reading { IsReading (values_of self.now.steps) (slice_index_or self.now.clauses index []) result }
        ensures few { length self.now.clauses ≤ 2 ^ 31 }
        ensures valid { IsTrail self.now }
    {
        let _ = self.formula.len();
        self.read_clause(self.formula.clause(index))
    }

    /// A literal of a clause other than this one that isn't false, if there is one.
    fn other_in(&self, clause: &[PackedLit], lit: PackedLit) -> Option<PackedLit>
        requires form { IsClause self.now.vars clause.now }
        ensures { IsOther (values_of self.now.steps) clause.now lit result }
    {
        for other in clause {
            if !self.is_false(*other) && *other != lit {
                return Some(*other);
            }
        }
        None
    }

    /// A literal of the clause of an index, which counts from 0, other than this one that isn't false, if there is
    /// one. The cost is at most the clause's length.
    pub fn other(&self, index: usize, lit: PackedLit) -> Option<PackedLit>
        requires { index < length self.now.clauses }
        ensures other { IsOther (values_of self.now.steps) (slice_index_or self.now.clauses index []) lit result }
        ensures few { length self.now.clauses ≤ 2 ^ 31 }
        ensures valid { IsTrail self.now }
    {
        let _ = self.formula.len();
        self.other_in(self.formula.clause(index), lit)
    }

    /// The opposite of the literal that was made true at a place, from 0. The cost is one look-up.
    pub fn turned(&self, place: usize) -> PackedLit
        requires { place < length self.now.steps }
        ensures { (d : Step) → result ≡ opposite (slice_index_or self.now.steps place d).lit }
    {
        let _ = self.formula.vars();
        PackedLit::of(self.made()[place]).opposite()
    }

    /// The number of the clauses. It takes no memory.
    pub fn count(&self) -> usize
        ensures count { result ≡ length self.now.clauses }
        ensures few { result ≤ 2 ^ 31 }
        ensures valid { IsTrail self.now }
    {
        self.formula.len()
    }

    /// The clause of an index, which counts from 0. Nothing is copied.
    pub fn clause(&self, index: usize) -> &[PackedLit]
        requires { index < length self.now.clauses }
        ensures clause { result.now ≡ slice_index_or self.now.clauses index [] }
        ensures valid { IsTrail self.now }
    {
        self.formula.clause(index)
    }

    /// The last assignment is gone.
    fn undo(&mut self)
        requires { 0 < length self.old.steps }
        ensures undone { self.new ≡ record self.old { steps = take (length self.old.steps - 1) self.old.steps } }
        ensures valid { IsTrail self.new }
    {
        if let Some(lit) = self.made.pop() {
            self.values[code(lit)] = Truth::Open;
            self.values[code(lit.opposite())] = Truth::Open;
        }
    }

    /// The assignments above the level are gone, and the others stay, with their order, levels and reasons. The cost
    /// is the number of the assignments that go.
    pub fn back_to(&mut self, level: u32)
        requires { level ≤ level_of self.old.steps }
        ensures back { self.new ≡ record self.old { steps = up_to level self.old.steps } }
        ensures level { level_of self.new.steps ≡ level }
        ensures valid { IsTrail self.new }
    {
        let _ = &self.formula;
        while self.level() > level {
            self.undo();
        }
    }
}
