//! The marks of an analysis.
ghost use Rattle.std.specs.Prelude.{◌≡◌, ◌+◌};

use crate::reason::Reason;
use crate::state::State;
use crate::trail::Trail;
use heesch_io::NoMemory;
use std::alloc::Global;

/// The variables of a clause that is being derived, with the count of those of the present level; and for variables
/// that were asked about, whether they follow from those. Each that was ever marked or asked about is listed, so that
/// all is taken back without a look at the others.
#[derive(Drop)]
pub(crate) struct Marks {
    seen: Vec<bool>,
    touched: Vec<u32>,
    pending: usize,
    verdicts: Vec<Option<bool>>,
    judged: Vec<u32>,
}

/// At most as many reasons in a row show that a variable follows from others.
pub(crate) const DEPTH: u32 = 500;

impl Marks {
    /// Nothing is marked. The cost is the number of the variables.
    pub fn new(alloc: Global, vars: u32) -> Result<Marks, NoMemory> {
        let places = vars as usize + 1;
        Ok(Marks {
            seen: vec![in alloc; false; places]?,
            touched: Vec::new(alloc),
            pending: 0,
            verdicts: vec![in alloc; None; places]?,
            judged: Vec::new(alloc),
        })
    }

    /// How many variables of the present level are marked.
    pub fn pending(&self) -> usize {
        self.pending
    }

    /// How many variables were ever marked.
    pub fn touched(&self) -> usize {
        self.touched.len()
    }

    /// Whether the variable is marked.
    pub fn is_marked(&self, variable: u32) -> bool {
        self.seen.get(variable as usize).copied().unwrap_or(false)
    }

    fn mark(&mut self, trail: &Trail, variable: u32) -> Result<(), NoMemory> {
        if variable == 0 {
            return Ok(());
        }
        if let Some(seen) = self.seen.get_mut(variable as usize) {
            if !*seen {
                *seen = true;
                self.touched.push(variable)?;
                if trail.level_of(variable) == trail.level() {
                    self.pending = self.pending.saturating_add(1);
                }
            }
        }
        Ok(())
    }

    /// The variables of the clause that a reason is are marked too.
    pub fn mark_members(&mut self, state: &State, reason: Reason) -> Result<(), NoMemory> {
        let members = state.members(reason);
        self.mark(&state.trail, members.one)?;
        self.mark(&state.trail, members.other)?;
        for candidate in members.candidates {
            self.mark(&state.trail, *candidate)?;
        }
        for lit in members.literals {
            self.mark(&state.trail, lit.var())?;
        }
        Ok(())
    }

    /// A variable is marked no more.
    pub fn unmark(&mut self, trail: &Trail, variable: u32) {
        if let Some(seen) = self.seen.get_mut(variable as usize) {
            *seen = false;
        }
        if trail.level_of(variable) == trail.level() {
            self.pending = self.pending.saturating_sub(1);
        }
    }

    fn verdict(&self, variable: u32) -> Option<bool> {
        match self.verdicts.get(variable as usize) {
            None => None,
            Some(verdict) => *verdict,
        }
    }

    fn judge(&mut self, variable: u32, verdict: bool) -> Result<bool, NoMemory> {
        self.judged.push(variable)?;
        if let Some(place) = self.verdicts.get_mut(variable as usize) {
            *place = Some(verdict);
        }
        Ok(verdict)
    }

    /// Whether a variable is left out of a look at those of a reason: it is none, marked, or of level 0.
    fn is_given(&self, trail: &Trail, variable: u32) -> bool {
        variable == 0 || self.is_marked(variable) || trail.level_of(variable) == 0
    }

    /// Whether the variable follows from the marked ones and from level 0, by at most `depth` reasons in a row. The
    /// cost is the lengths of the reasons of the variables that weren't asked about before.
    pub fn follows(&mut self, state: &State, variable: u32, depth: u32) -> Result<bool, NoMemory> {
        if let Some(verdict) = self.verdict(variable) {
            return Ok(verdict);
        }
        if depth == 0 {
            return Ok(false);
        }
        let Some(reason) = state.trail.reason_of(variable) else {
            return Ok(false);
        };
        let members = state.members(reason);
        for other in [members.one, members.other] {
            let given = other == variable || self.is_given(&state.trail, other);
            if !given && !self.follows(state, other, depth - 1)? {
                return self.judge(variable, false);
            }
        }
        for other in members.candidates {
            let given = *other == variable || self.is_given(&state.trail, *other);
            if !given && !self.follows(state, *other, depth - 1)? {
                return self.judge(variable, false);
            }
        }
        for lit in members.literals {
            let other = lit.var();
            let given = other == variable || self.is_given(&state.trail, other);
            if !given && !self.follows(state, other, depth - 1)? {
                return self.judge(variable, false);
            }
        }
        self.judge(variable, true)
    }

    /// Appends the variables that are marked, each at least once.
    pub fn keep(&self, kept: &mut Vec<u32>) -> Result<(), NoMemory> {
        for variable in &self.touched {
            if self.is_marked(*variable) {
                kept.push(*variable)?;
            }
        }
        Ok(())
    }

    /// Nothing is marked any more. The cost is the number of the variables that were.
    pub fn clear(&mut self) {
        for variable in &self.touched {
            if let Some(seen) = self.seen.get_mut(*variable as usize) {
                *seen = false;
            }
        }
        for variable in &self.judged {
            if let Some(verdict) = self.verdicts.get_mut(*variable as usize) {
                *verdict = None;
            }
        }
        self.touched.clear();
        self.judged.clear();
        self.pending = 0;
    }
}
