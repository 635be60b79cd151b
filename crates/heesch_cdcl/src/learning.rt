//! The loop of the search: a conflict, a line, a way back.
ghost use Rattle.std.specs.Prelude.{◌≡◌, ◌<◌, ◌≤◌, ◌+◌, ◌^◌, length, IfOk, OnOk, OnErr, ◌++◌, ◌∷◌, []};
ghost use Rattle.heesch_cnf.specs.Lines.{clause_of};
ghost use Rattle.heesch_trail.specs.State.{IsTrail, level_of};
ghost use Rattle.heesch_cdcl.specs.Learning.{IsNext, LearnsMore, IsOver, IsEnding};
ghost use Rattle.heesch_cdcl.specs.Searching.{Searches, SameFormula, formula_in};
ghost use Rattle.heesch_cdcl.specs.Search.{SameClauses};

use crate::conflict::Conflict;
use crate::workspace::Workspace;
use heesch_cnf::{Hints, Line, Lits};
use heesch_io::{NoMemory, Seq};
use std::alloc::Global;

/// How the search ended.
pub enum Ending {
    Model,
    Refuted(Hints),
    Spent,
}

fn copy_of(alloc: Global, clause: &Lits) -> Result<Lits, NoMemory>
    ensures { IfOk result (λ copy. copy ≡ clause.now) }
{
    let copy = Vec::from_slice(alloc, clause.as_slice()).map_err(|_| NoMemory)?;
    Ok(Seq::from_vec(copy))
}

/// The clause of the line.
fn clause_in(line: &Line) -> &Lits
    ensures { result.now ≡ clause_of line.now }
{
    match line {
        Line::Learn { clause, hints: _ } => clause,
        Line::Given { clause } => clause,
    }
}

/// One more line, whose clause the trail has too, back at the level; or nothing has changed.
pub fn add_line(
    alloc: Global,
    lines: &mut Seq<Line>,
    work: &mut Workspace,
    line: Line,
    level: u32,
) -> Result<(), NoMemory>
    requires searching { Searches lines.old work.old.trail }
    requires next { IsNext work.old.trail line level }
    requires room { length (formula_in work.old.trail.clauses lines.old) + length lines.old < 2 ^ 31 }
    ensures searching { Searches lines.new work.new.trail }
    ensures formula { SameFormula lines.old work.old.trail lines.new work.new.trail }
    ensures ok { OnOk result (lines.new ≡ lines.old ++ line ∷ []) }
    ensures lines_stay { OnErr result (lines.new ≡ lines.old) }
    ensures trail_stays { OnErr result (work.new.trail ≡ work.old.trail) }
{
    let copy = copy_of(alloc, clause_in(&line))?;
    lines.push(line)?;
    if work.trail.add(copy).is_err() {
        let _ = lines.pop();
        return Err(NoMemory);
    }
    work.go_back(level);
    Ok(())
}

/// Without turns left: the final line, where it holds.
fn give_up(alloc: Global, work: &mut Workspace) -> Result<Ending, NoMemory>
    ensures ended { IfOk result (IsOver work.new.trail) }
    ensures level { level_of work.new.trail.steps ≡ 0 }
    ensures same { SameClauses work.old.trail work.new.trail }
    ensures valid { IsTrail work.new.trail }
{
    match work.restart()? {
        None => Ok(Ending::Spent),
        Some(number) => {
            let conflict = Conflict {
                trail: &work.trail,
                number,
            };
            let hints = work.resolution.refute(alloc, &conflict)?;
            Ok(Ending::Refuted(hints))
        }
    }
}

/// Searches and learns until there is a model, a refutation, or no turn left.
pub fn run(
    alloc: Global,
    turns: u32,
    lines: &mut Seq<Line>,
    work: &mut Workspace,
) -> Result<Ending, NoMemory>
    requires searching { Searches lines.old work.old.trail }
    requires room { length (formula_in work.old.trail.clauses lines.old) + turns < 2 ^ 31 }
    requires few { length lines.old ≤ turns }
    ensures searching { Searches lines.new work.new.trail }
    ensures formula { SameFormula lines.old work.old.trail lines.new work.new.trail }
    ensures few { length lines.new ≤ turns }
    ensures learns { LearnsMore lines.old lines.new }
    ensures ended { IfOk result (IsEnding turns lines.new work.new.trail) }
{
    loop {
        let Some(number) = work.descend()? else {
            return Ok(Ending::Model);
        };
        let conflict = Conflict {
            trail: &work.trail,
            number,
        };
        if conflict.trail.level() == 0 {
            let hints = work.resolution.refute(alloc, &conflict)?;
            return Ok(Ending::Refuted(hints));
        }
        if lines.len() == turns as usize {
            return give_up(alloc, work);
        }
        let learnt = work.resolution.learn(alloc, &conflict)?;
        let line = Line::Learn {
            clause: learnt.clause,
            hints: learnt.hints,
        };
        add_line(alloc, lines, work, line, learnt.back)?;
    }
}
