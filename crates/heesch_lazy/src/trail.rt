//! The assignments in the order in which they were made, and what the values of lists of variables are.
ghost use Rattle.std.specs.Prelude.{◌≡◌, ◌<◌, ◌≤◌, ◌+◌, ◌^◌, IfOk, IfSome};
ghost use Rattle.heesch_cnf.specs.Clauses.{IsClause};
ghost use Rattle.heesch_cover.specs.Sizes.{AreBelow};

use crate::reason::Reason;
use crate::truth::Truth;
use heesch_cnf::{Lit, PackedLit};
use heesch_io::NoMemory;
use std::alloc::Global;
use std::marker::Model;

/// Assignments to variables: by variable the value, the level and the reason, and the literals in the order in which
/// they were made true. There is a place for the number 0 too, which is no variable and counts as false. Contracts see
/// the number of the places.
#[derive(Drop)]
pub(crate) struct Trail {
    values: Vec<Truth>,
    levels: Vec<u32>,
    reasons: Vec<Option<Reason>>,
    made: Vec<PackedLit>,
    /// For each level above 0, how many literals stood before its decision.
    starts: Vec<usize>,
    level: u32,
    /// How many literals were visited.
    visited: usize,
}

impl Model for Trail {
    ghost use Rattle.std.specs.Prelude.{ℕ, ◌≡◌, ◌≤◌, ◌^◌, vec_len};

    ghost Value = { ℕ };

    ghost view = { λ t. vec_len t.values };

    ghost invariant = { λ t. (vec_len t.levels ≡ vec_len t.values) × (vec_len t.reasons ≡ vec_len t.values)
        × (vec_len t.values ≤ 2 ^ 31) };
}

/// How the candidates of a want stand.
#[derive(Debug, Clone, Copy)]
pub(crate) enum Standing {
    /// This one is chosen.
    Served(u32),
    /// None is chosen, and so many are open.
    Open(usize),
    /// As many are open as were counted to.
    Many,
}

impl Trail {
    /// No assignments to the variables 1 to `vars`. The cost is their number.
    pub fn new(alloc: Global, vars: u32) -> Result<Trail, NoMemory>
        requires { vars < 2 ^ 31 }
        ensures { IfOk result (λ t. t ≡ vars + 1) }
    {
        let places = vars as usize + 1;
        let mut values = vec![in alloc; Truth::Open; places]?;
        values[0] = Truth::No;
        Ok(Trail {
            values,
            levels: vec![in alloc; 0u32; places]?,
            reasons: vec![in alloc; None; places]?,
            made: Vec::with_capacity(alloc, places)?,
            starts: Vec::new(alloc),
            level: 0,
            visited: 0,
        })
    }

    /// The value of a variable. The cost is a look-up.
    pub fn value(&self, variable: u32) -> Truth {
        self.values
            .get(variable as usize)
            .copied()
            .unwrap_or(Truth::No)
    }

    /// The value of a literal. The cost is a look-up.
    pub fn truth(&self, lit: PackedLit) -> Truth {
        let value = self.value(lit.var());
        if lit.is_positive() {
            value
        } else {
            value.opposite()
        }
    }

    /// The level at which a variable was assigned last. The cost is a look-up.
    pub fn level_of(&self, variable: u32) -> u32 {
        self.levels.get(variable as usize).copied().unwrap_or(0)
    }

    /// What a variable's last value follows from, or None where it was decided. The cost is a look-up.
    pub fn reason_of(&self, variable: u32) -> Option<Reason> {
        match self.reasons.get(variable as usize) {
            None => None,
            Some(reason) => *reason,
        }
    }

    /// The present level: 0 before any decision, and one more with each.
    pub fn level(&self) -> u32 {
        self.level
    }

    /// The literals in the order in which they were made true.
    pub fn made(&self) -> &[PackedLit] {
        &self.made
    }

    /// The variable's literal that its value makes false.
    pub fn false_literal(&self, variable: u32) -> Lit {
        Lit {
            var: variable,
            positive: !self.value(variable).is_true(),
        }
    }

    /// The variable gets the value, for the reason. At want of memory nothing has changed.
    pub fn assign(
        &mut self,
        variable: u32,
        positive: bool,
        reason: Option<Reason>,
    ) -> Result<(), NoMemory>
        ensures { self.new ≡ self.old }
    {
        let place = variable as usize;
        if place >= self.values.len() {
            return Ok(());
        }
        self.made.push(PackedLit::of(Lit {
            var: variable,
            positive,
        }))?;
        self.values[place] = if positive { Truth::Yes } else { Truth::No };
        self.levels[place] = self.level;
        self.reasons[place] = reason;
        Ok(())
    }

    /// A level begins, where the variable is chosen.
    pub fn decide(&mut self, variable: u32) -> Result<(), NoMemory>
        ensures { self.new ≡ self.old }
    {
        self.starts.push(self.made.len())?;
        self.level = self.level.saturating_add(1);
        self.assign(variable, true, None)
    }

    /// The first literal that wasn't visited, which counts as visited from now on.
    pub fn next(&mut self) -> Option<PackedLit>
        ensures { self.new ≡ self.old }
    {
        let lit = *self.made.get(self.visited)?;
        self.visited = self.visited.saturating_add(1);
        Some(lit)
    }

    /// How many literals were made true above the level.
    pub fn above(&self, level: u32) -> usize {
        match self.starts.get(level as usize) {
            None => 0,
            Some(start) => self.made.len().saturating_sub(*start),
        }
    }

    /// The last assignment is gone. Its literal is answered.
    pub fn undo(&mut self) -> Option<PackedLit>
        ensures { self.new ≡ self.old }
    {
        let lit = self.made.pop()?;
        if let Some(value) = self.values.get_mut(lit.var() as usize) {
            *value = Truth::Open;
        }
        Some(lit)
    }

    /// The levels above this one, whose assignments are gone, are gone too.
    pub fn close_levels(&mut self, level: u32)
        ensures { self.new ≡ self.old }
    {
        self.starts.truncate(level as usize);
        self.level = self.level.min(level);
        self.visited = self.visited.min(self.made.len());
    }

    /// The tile is chosen, so each other holder of a cell of it that is open is denied. A holder that is chosen too is
    /// answered. The cost is the number of the holders.
    pub fn deny_others(&mut self, tile: u32, holders: &[u32]) -> Result<Option<u32>, NoMemory>
        requires { AreBelow self.old holders.now }
        ensures { self.new ≡ self.old }
    {
        for other in holders {
            match self.values[*other as usize] {
                Truth::No => {}
                Truth::Open => {
                    let reason = Reason::Apart {
                        tile,
                        other: *other,
                    };
                    self.assign(*other, false, Some(reason))?;
                }
                Truth::Yes => {
                    if *other != tile {
                        return Ok(Some(*other));
                    }
                }
            }
        }
        Ok(None)
    }

    /// The last two of the candidates that aren't denied, or 0 in place of one.
    pub fn last_two(&self, candidates: &[u32]) -> (u32, u32)
        requires { AreBelow self.now candidates.now }
    {
        let mut last = 0;
        for place in (0..candidates.len()).rev() {
            let candidate = candidates[place];
            if !self.values[candidate as usize].is_false() {
                if last != 0 {
                    return (last, candidate);
                }
                last = candidate;
            }
        }
        (last, 0)
    }

    /// The last of the candidates that isn't denied, other than this one.
    pub fn last_beside(&self, candidates: &[u32], beside: u32) -> Option<u32>
        requires { AreBelow self.now candidates.now }
    {
        for place in (0..candidates.len()).rev() {
            let candidate = candidates[place];
            if candidate != beside && !self.values[candidate as usize].is_false() {
                return Some(candidate);
            }
        }
        None
    }

    /// The last of the candidates that is open.
    pub fn last_open(&self, candidates: &[u32]) -> Option<u32>
        requires { AreBelow self.now candidates.now }
    {
        for place in (0..candidates.len()).rev() {
            let candidate = candidates[place];
            if self.values[candidate as usize].is_open() {
                return Some(candidate);
            }
        }
        None
    }

    /// Which of the candidates is chosen, or how many are open, counted up to `most`.
    pub fn standing(&self, candidates: &[u32], most: usize) -> Standing
        requires { AreBelow self.now candidates.now }
    {
        let mut open = 0usize;
        for candidate in candidates {
            match self.values[*candidate as usize] {
                Truth::No => {}
                Truth::Yes => return Standing::Served(*candidate),
                Truth::Open => {
                    open = open.saturating_add(1);
                    if most <= open {
                        return Standing::Many;
                    }
                }
            }
        }
        Standing::Open(open)
    }

    /// A literal of the clause that isn't false, other than this one.
    pub fn other_literal(&self, clause: &[PackedLit], beside: PackedLit) -> Option<PackedLit> {
        for lit in clause {
            if *lit != beside && !self.truth(*lit).is_false() {
                return Some(*lit);
            }
        }
        None
    }
}

const _: () = prove!(size_of::<Truth>() == 1);
