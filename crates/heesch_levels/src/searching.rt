//! The search at one level.
ghost use Rattle.std.specs.Prelude.{◌≡◌, ◌<◌, ◌≤◌, ◌^◌, ℕ, [], Some, IfOk, IfSome, IfNone, length, unwrap_or};
ghost use Rattle.heesch_grid.specs.Geometry.{Geometry};
ghost use Rattle.heesch_cnf.specs.Meaning.{given_clauses};
ghost use Rattle.heesch_cuts.specs.Chosen.{CutsOff};
ghost use Rattle.heesch_place.specs.Universes.{IsUniverseOf, Levels};
ghost use Rattle.heesch_levels.specs.Searching.{EndsAtOnce, GoesOn, IsAsked, IsCutUpTo, IsEnding, IsSearch};
ghost use Rattle.heesch_levels.specs.Searching.{TurnsAtOnce};
ghost use Rattle.heesch_levels.specs.Steps.{proof_of};

use crate::asked::Asked;
use crate::steps::steps_of;
use heesch_cdcl::{Found, Solver};
use heesch_cert::{Cut, Proof};
use heesch_cnf::FlatFormula;
use heesch_cuts::clause_of;
use heesch_grid::Grid;
use heesch_io::{NoMemory, Seq};
use heesch_shape::Shape;
use std::alloc::Global;

/// How a search ended: with the values of a model, which leaves no hole where that was asked; with a log that refutes;
/// or with all turns taken.
#[derive(Drop)]
pub enum Ending {
    Model { values: Seq<bool> },
    Refuted,
    Spent,
}

/// The solver and its turns, the cuts whose clauses were given to it, in order, and the values of the model that the
/// first of them was made against.
#[derive(Drop)]
pub struct Search {
    pub solver: Solver,
    pub turns: u32,
    pub cuts: Seq<Cut>,
    pub holed: Option<Seq<bool>>,
}

/// The values are kept, if none are.
fn keep_first(kept: &mut Option<Seq<bool>>, values: Seq<bool>)
    ensures { kept.new ≡ Some (unwrap_or kept.old values) }
{
    if kept.is_none() {
        *kept = Some(values);
    }
}

impl Search {
    /// A search that has not begun.
    pub fn open(alloc: Global, formula: FlatFormula, turns: u32) -> Result<Search, NoMemory>
        requires turns { (1 ≤ turns) × (turns ≤ 1000000) }
        requires few { length formula.clauses < 2 ^ 30 }
        ensures search { (g : Geometry) (u : Levels) (k : ℕ) → length u.vars ≤ formula.vars
            → IfOk result (IsSearch g u k) }
        ensures turns { IfOk result (λ s. s.turns ≡ turns) }
        ensures vars { IfOk result (λ s. s.solver.vars ≡ formula.vars) }
        ensures clauses { IfOk result (λ s. s.solver.clauses ≡ formula.clauses) }
        ensures no_lines { IfOk result (λ s. s.solver.log.lines ≡ []) }
    {
        let solver = Solver::over(alloc, formula, turns)?;
        Ok(Search {
            solver,
            turns,
            cuts: Seq::new(alloc),
            holed: None,
        })
    }

    /// Searches to the end.
    pub fn run<G: Grid>(
        &mut self,
        alloc: Global,
        shape: &Shape<G>,
        asked: &Asked<G>,
    ) -> Result<Ending, NoMemory>
        requires asked { IsAsked G.geometry shape.now asked.now.universe asked.now.free_levels asked.now.inner }
        requires search { IsSearch G.geometry asked.now.universe asked.now.free_levels self.old }
        ensures on { IfOk result (λ _. GoesOn G.geometry asked.now.universe asked.now.free_levels self.old self.new) }
        ensures ending { IfOk result (IsEnding G.geometry asked.now.universe asked.now.free_levels self.new.solver) }
        ensures at_once { IfOk result (EndsAtOnce self.old.solver self.new.solver) }
    {
        loop {
            if let Some(ending) = self.turn(alloc, shape, asked)? {
                return Ok(ending);
            }
        }
    }

    /// What the solver finds next, where that is the end; else a cut was given.
    fn turn<G: Grid>(
        &mut self,
        alloc: Global,
        shape: &Shape<G>,
        asked: &Asked<G>,
    ) -> Result<Option<Ending>, NoMemory>
        requires asked { IsAsked G.geometry shape.now asked.now.universe asked.now.free_levels asked.now.inner }
        requires search { IsSearch G.geometry asked.now.universe asked.now.free_levels self.old }
        ensures on { IfOk result (λ _. GoesOn G.geometry asked.now.universe asked.now.free_levels self.old self.new) }
        ensures ending { IfOk result
            (λ ending. IfSome ending (IsEnding G.geometry asked.now.universe asked.now.free_levels self.new.solver)) }
        ensures more { IfOk result
            (λ ending. IfNone ending (length self.old.solver.log.lines < length self.new.solver.log.lines)) }
        ensures at_once { IfOk result (TurnsAtOnce self.old.solver self.new.solver) }
    {
        match self.solver.next()? {
            Found::Model { values } => self.judge(alloc, shape, asked, values),
            Found::Refuted => Ok(Some(Ending::Refuted)),
            Found::Spent => Ok(Some(Ending::Spent)),
        }
    }

    /// Whether the model of these values is the end; else a cut was given against a hole that it leaves.
    fn judge<G: Grid>(
        &mut self,
        alloc: Global,
        shape: &Shape<G>,
        asked: &Asked<G>,
        values: Seq<bool>,
    ) -> Result<Option<Ending>, NoMemory>
        requires asked { IsAsked G.geometry shape.now asked.now.universe asked.now.free_levels asked.now.inner }
        requires search { IsSearch G.geometry asked.now.universe asked.now.free_levels self.old }
        requires kept { self.old.solver.model ≡ Some values }
        ensures on { IfOk result (λ _. GoesOn G.geometry asked.now.universe asked.now.free_levels self.old self.new) }
        ensures ending { IfOk result
            (λ ending. IfSome ending (IsEnding G.geometry asked.now.universe asked.now.free_levels self.new.solver)) }
        ensures more { IfOk result
            (λ ending. IfNone ending (length self.old.solver.log.lines < length self.new.solver.log.lines)) }
    {
        match asked.cut(alloc, shape, values.as_slice())? {
            None => Ok(Some(Ending::Model { values })),
            Some(cut) => {
                if self.solver.log().lines.len() == self.turns as usize {
                    return Ok(Some(Ending::Spent));
                }
                self.give(alloc, asked, values, cut)?;
                Ok(None)
            }
        }
    }

    /// The cut against the model of these values stands last, and the solver has its clause.
    fn give<G: Grid>(
        &mut self,
        alloc: Global,
        asked: &Asked<G>,
        values: Seq<bool>,
        cut: Cut,
    ) -> Result<(), NoMemory>
        requires universe { IsUniverseOf G.geometry asked.now.universe }
        requires search { IsSearch G.geometry asked.now.universe asked.now.free_levels self.old }
        requires kept { self.old.solver.model ≡ Some values }
        requires cuts_off { CutsOff G.geometry asked.now.universe values cut }
        requires up_to { IsCutUpTo G.geometry asked.now.universe asked.now.free_levels cut }
        requires room { length self.old.solver.log.lines < self.old.turns }
        ensures on { IfOk result (λ _. GoesOn G.geometry asked.now.universe asked.now.free_levels self.old self.new) }
        ensures more { IfOk result (λ _. length self.old.solver.log.lines < length self.new.solver.log.lines) }
    {
        let clause = clause_of(alloc, &asked.universe, &cut)?;
        self.solver.give(clause)?;
        self.cuts.push(cut)?;
        keep_first(&mut self.holed, values);
        Ok(())
    }

    /// The log as a proof, with the cuts in the places of their clauses.
    pub fn into_proof(self, alloc: Global) -> Result<Proof, NoMemory>
        requires { length (given_clauses self.solver.log.lines) ≡ length self.cuts }
        ensures { IfOk result (λ proof. proof ≡ proof_of self.solver.log self.cuts) }
    {
        let Search {
            solver,
            turns: _,
            cuts,
            holed: _,
        } = self;
        let log = solver.into_log();
        let steps = steps_of(alloc, log.lines.into_vec(), cuts.into_vec())?;
        Ok(Proof {
            steps,
            last: log.last,
        })
    }
}
