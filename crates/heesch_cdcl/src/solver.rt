//! The solver: its public calls.
ghost use Rattle.std.specs.Prelude.{◌≡◌, ◌≢◌, ℕ, ◌+◌, ◌<◌, ◌≤◌, ◌^◌, [], ◌∷◌, ◌++◌, length, None, IfOk, OnOk, OnErr};
ghost use Rattle.std.specs.Prelude.{IsSomeAnd, MatchOption};
ghost use Rattle.heesch_cnf.specs.Clauses.{IsClause, AreClauses, assignment_of};
ghost use Rattle.heesch_cnf.specs.Lines.{FinalHolds};
ghost use Rattle.heesch_trail.specs.State.{values_of};
ghost use Rattle.heesch_cdcl.specs.Newness.{IsMadeFalse};
ghost use Rattle.heesch_cdcl.specs.Learning.{LearnsMore};
ghost use Rattle.heesch_cdcl.specs.Problem.{Problem, IsSolver, SameProblem, IsLeftOpen, values_list};
ghost use Rattle.heesch_cdcl.specs.Empty.{IsFirstEmpty, NoneEmpty};
ghost use Rattle.heesch_cdcl.specs.Found.{IsFound, IsRefutedAtOnce};

use crate::empty::{first_empty, only};
use crate::learning::{Ending, add_line, run};
use crate::workspace::Workspace;
use heesch_cnf::{FlatFormula, Formula, Line, Lits, Log};
use heesch_io::{NoMemory, Seq};
use heesch_trail::Trail;
use std::alloc::Global;
use std::marker::Model;

/// What the solver found.
#[derive(Drop)]
pub enum Found {
    Model { values: Seq<bool> },
    Refuted,
    Spent,
}

/// A formula, the log of what was learnt from it and given to it, and the state of the search. The clauses of the
/// formula are those of the trail before those of the log.
#[derive(Drop)]
pub struct Solver {
    turns: u32,
    empty: Option<u32>,
    work: Workspace,
    log: Log,
    kept: bool,
    alloc: Global,
}

impl Model for Solver {
    ghost use Rattle.heesch_cdcl.specs.Problem.{Problem, problem_of, IsInner};

    ghost Value = { Problem };

    ghost view = { λ s. problem_of s.turns s.work.trail s.log s.kept };

    ghost invariant = { λ s. IsInner s.turns s.empty s.work.trail s.log s.kept };
}

/// The values of the variables, in number order.
fn values_in(alloc: Global, trail: &Trail) -> Result<Seq<bool>, NoMemory>
    ensures { IfOk result (λ values. values ≡ values_list trail.now.vars trail.now.steps) }
{
    let mut values = Seq::new(alloc);
    for before in 0..trail.vars() {
        values.push(trail.value(before + 1).unwrap_or(false))?;
    }
    Ok(values)
}

impl Solver {
    /// An empty log over the formula, with room for `turns` lines. The cost is the number of the variables and of all
    /// literals.
    pub fn open(alloc: Global, formula: Formula, turns: u32) -> Result<Solver, NoMemory>
        requires turns { 1 ≤ turns }
        requires room { length formula.clauses + turns < 2 ^ 31 }
        ensures opened { IfOk result
            (λ s. s ≡ record {
              vars = formula.vars;
              clauses = formula.clauses;
              turns = turns;
              log = record { lines = []; last = None };
              model = None;
            }) }
        ensures valid { IfOk result IsSolver }
    {
        Solver::over(alloc, FlatFormula::of(alloc, &formula)?, turns)
    }

    /// An empty log over the formula, which is taken over and not copied, with room for `turns` lines. The cost is the
    /// number of the variables and of all literals.
    pub fn over(alloc: Global, formula: FlatFormula, turns: u32) -> Result<Solver, NoMemory>
        requires turns { 1 ≤ turns }
        requires room { length formula.clauses + turns < 2 ^ 31 }
        ensures opened { IfOk result
            (λ s. s ≡ record {
              vars = formula.vars;
              clauses = formula.clauses;
              turns = turns;
              log = record { lines = []; last = None };
              model = None;
            }) }
        ensures valid { IfOk result IsSolver }
    {
        let empty = first_empty(&formula);
        Ok(Solver {
            turns,
            empty,
            work: Workspace::over(alloc, formula)?,
            log: Log {
                lines: Seq::new(alloc),
                last: None,
            },
            kept: false,
            alloc,
        })
    }

    /// A model, with one value for each variable in number order, which the solver keeps; a refutation, where the
    /// final line stands in the log; or Spent, where the log has `turns` lines and no final line holds over it. Learn
    /// lines alone may be appended, also before want of memory, after which the solver may be asked again. An empty
    /// clause of the formula refutes at once, and the final line has the least number of one. With more turns than 3
    /// to the power of the number of variables the search is never spent. The same formula, turns and given clauses
    /// give the same log.
    ///
    /// The cost is that of the search: for an assignment the clauses watched by the literal made false; for a decision
    /// the clauses with at most one negative literal, whose variable is true, each up to a true literal or to as many
    /// open ones as the best has; for a conflict the clauses resolved or looked at to shorten the learnt clause, the
    /// assignments after the earliest of its variables, the assignments taken back, the sorting of the learnt clause,
    /// and a look at each clause learnt since the level gone back to was left. All variables are looked at once, for a
    /// model.
    pub fn next(&mut self) -> Result<Found, NoMemory>
        ensures found { IfOk result (IsFound self.new) }
        ensures ends { 3 ^ self.old.vars < self.old.turns → IfOk result (λ found. found ≢ Found.Spent) }
        ensures at_once { (n : ℕ) → IsFirstEmpty self.old.clauses n
            → IfOk result (IsRefutedAtOnce n self.old self.new) }
        ensures learns { LearnsMore self.old.log.lines self.new.log.lines }
        ensures same { SameProblem self.old self.new }
        ensures err { OnErr result (IsLeftOpen self.old self.new) }
        ensures valid { IsSolver self.new }
    {
        match self.first_empty() {
            Some(number) => self.refute_by(number),
            None => self.search(),
        }
    }

    /// The least number of a clause of the formula without literals, which was looked up when the solver was opened.
    fn first_empty(&self) -> Option<u32>
        ensures { MatchOption result (NoneEmpty self.now.clauses) (IsFirstEmpty self.now.clauses) }
    {
        self.empty
    }

    fn refute_by(&mut self, number: u32) -> Result<Found, NoMemory>
        requires { IsFirstEmpty self.old.clauses number }
        ensures found { IfOk result (IsRefutedAtOnce number self.old self.new) }
        ensures lines { self.new.log.lines ≡ self.old.log.lines }
        ensures same { SameProblem self.old self.new }
        ensures err { OnErr result (IsLeftOpen self.old self.new) }
        ensures valid { IsSolver self.new }
    {
        self.kept = false;
        let hints = only(self.alloc, number)?;
        self.log.last = Some(hints);
        Ok(Found::Refuted)
    }

    fn search(&mut self) -> Result<Found, NoMemory>
        ensures found { IfOk result (IsFound self.new) }
        ensures learns { LearnsMore self.old.log.lines self.new.log.lines }
        ensures same { SameProblem self.old self.new }
        ensures err { OnErr result (IsLeftOpen self.old self.new) }
        ensures valid { IsSolver self.new }
    {
        self.kept = false;
        if self.log.last.is_some() {
            return Ok(Found::Refuted);
        }
        match run(self.alloc, self.turns, &mut self.log.lines, &mut self.work)? {
            Ending::Model => {
                let values = values_in(self.alloc, &self.work.trail)?;
                self.kept = true;
                Ok(Found::Model { values })
            }
            Ending::Refuted(hints) => {
                self.log.last = Some(hints);
                Ok(Found::Refuted)
            }
            Ending::Spent => Ok(Found::Spent),
        }
    }

    /// The clause, which the kept model makes false, stands in a Given line, and the model is kept no more; at want of
    /// memory nothing has changed. The cost is the clause's length and the number of the assignments, which are taken
    /// back.
    pub fn give(&mut self, clause: Lits) -> Result<(), NoMemory>
        requires form { IsClause self.old.vars clause }
        requires refuted { IsSomeAnd self.old.model (λ values. IsMadeFalse (assignment_of values) clause) }
        requires room { length self.old.log.lines < self.old.turns }
        ensures ok { OnOk result
            (self.new ≡ record self.old {
              log = record {
                lines = self.old.log.lines ++ Line.Given clause
                    ∷ [];
                last = self.old.log.last;
              };
              model = None;
            }) }
        ensures err { OnErr result (self.new ≡ self.old) }
        ensures valid { IsSolver self.new }
    {
        add_line(
            self.alloc,
            &mut self.log.lines,
            &mut self.work,
            Line::Given { clause },
            0,
        )?;
        self.kept = false;
        Ok(())
    }

    /// The log so far. Each line holds, and contains no clause before it. It takes no memory.
    pub fn log(&self) -> &Log
        ensures log { result.now ≡ self.now.log }
        ensures valid { IsSolver self.now }
    {
        &self.log
    }

    /// The same log, handed over. It takes no memory.
    pub fn into_log(self) -> Log
        ensures log { result ≡ self.log }
        ensures valid { IsSolver self }
    {
        self.log
    }
}
