//! The next decision; what an open variable can't be; and when nothing is left to be decided.
ghost use Rattle.std.specs.Prelude.{◌≡◌};

use crate::reason::Reason;
use crate::state::State;
use crate::trail::Standing;
use crate::wants::Owner;
use heesch_io::NoMemory;

/// Where nothing follows any more, each want that isn't served has as many open candidates at least.
const LEAST: usize = 2;

impl State {
    /// The number of the open candidates of the want, where none is chosen and fewer than `most` are open. A chosen
    /// one is noted.
    fn open_in(&mut self, want: u32, most: usize) -> Option<usize>
        ensures { self.new.table.vars ≡ self.old.table.vars }
    {
        if self.is_served(want) {
            return None;
        }
        match self.trail.standing(self.table.candidates(want), most) {
            Standing::Many => None,
            Standing::Open(open) => Some(open),
            Standing::Served(member) => {
                if let Some(want) = self.table.want(want) {
                    self.wants.note_chosen(want.list, member);
                }
                None
            }
        }
    }

    /// The first want that holds with the fewest open candidates, of those that aren't served.
    fn fewest_open(&mut self) -> Option<u32>
        ensures { self.new.table.vars ≡ self.old.table.vars }
    {
        let mut best = None;
        let mut fewest = usize::MAX;
        for place in 0..self.wants.count() {
            let Some(want) = self.wants.at(place) else {
                break;
            };
            if let Some(open) = self.open_in(want, fewest) {
                best = Some(want);
                fewest = open;
                if open <= LEAST {
                    break;
                }
            }
        }
        best
    }

    /// The greatest open variable of a given clause that is false where open variables are denied.
    fn open_in_given(&self, index: u32) -> Option<u32> {
        let mut open = None;
        for lit in self.store.clause(index as usize) {
            let truth = self.trail.truth(*lit);
            if truth.is_true() || (truth.is_open() && !lit.is_positive()) {
                return None;
            }
            if truth.is_open() {
                open = Some(lit.var());
            }
        }
        open
    }

    /// The same of the first such clause.
    fn open_given(&self) -> Option<u32> {
        for index in self.store.given() {
            let open = self.open_in_given(*index);
            if open.is_some() {
                return open;
            }
        }
        None
    }

    /// The variable to be chosen next: the last open candidate of the want with the fewest, or a variable of a given
    /// clause. None where each want that holds is served, and each given clause is true where open variables are
    /// denied. The cost is that of counting the open candidates of the wants that hold, each up to as many as the best
    /// has.
    pub fn choose(&mut self) -> Option<u32>
        ensures { self.new.table.vars ≡ self.old.table.vars }
    {
        if let Some(want) = self.fewest_open() {
            return self.trail.last_open(self.table.candidates(want));
        }
        self.open_given()
    }

    /// Of the wants that the variable asks for the first whose candidates are denied.
    fn first_denied(&self, variable: u32) -> Option<u32> {
        for want in self.table.asked(variable) {
            if self.trail.last_two(self.table.candidates(*want)).0 == 0 {
                return Some(*want);
            }
        }
        None
    }

    /// Whether the variable asks for one of those in slots, and they are denied.
    fn is_denied_near(&self, variable: u32) -> bool {
        if !self.table.asks_near(variable) {
            return false;
        }
        let reach = self.table.reach(variable);
        for place in 0..reach.len() {
            let candidate = reach.at(place);
            if candidate != 0 && !self.trail.value(candidate).is_false() {
                return false;
            }
        }
        true
    }

    /// A want that the variable asks for whose candidates are denied, if there is one.
    fn denied_want(&mut self, variable: u32) -> Result<Option<u32>, NoMemory>
        ensures { self.new.table.vars ≡ self.old.table.vars }
    {
        match self.first_denied(variable) {
            None if self.is_denied_near(variable) => self.near(variable),
            found => Ok(found),
        }
    }

    /// Each open variable that asks for a want whose candidates are denied is denied. Whether there was one is
    /// answered. The cost is the number of the wants that open variables ask for, and of their candidates up to one that
    /// isn't denied.
    fn deny_askers(&mut self) -> Result<bool, NoMemory>
        ensures { self.new.table.vars ≡ self.old.table.vars }
    {
        let mut any = false;
        for before in 0..self.table.vars() {
            let variable = before + 1;
            if !self.trail.value(variable).is_open() {
                continue;
            }
            if let Some(want) = self.denied_want(variable)? {
                let reason = Reason::Asked { variable, want };
                self.trail.assign(variable, false, Some(reason))?;
                any = true;
            }
        }
        Ok(any)
    }

    /// The wants hold that hold from the start, and the variables are denied that ask for one without candidates. A
    /// want that can't be served is answered.
    pub fn open(&mut self) -> Result<Option<Reason>, NoMemory>
        ensures { self.new.table.vars ≡ self.old.table.vars }
    {
        for place in 0..self.table.first().len() {
            let Some(want) = self.table.first().get(place).copied() else {
                break;
            };
            let conflict = self.begin(want, Owner::Start)?;
            if conflict.is_some() {
                return Ok(conflict);
            }
        }
        self.deny_askers()?;
        Ok(None)
    }

    /// Goes back to level 0 and makes all that follows from single clauses, those of wants that open variables ask for
    /// among them. A clause that is false is answered.
    pub fn close(&mut self) -> Result<Option<Reason>, NoMemory>
        ensures { self.new.table.vars ≡ self.old.table.vars }
    {
        self.back_to(0);
        // Each round but the last denies a variable.
        for _ in 0..u64::from(self.table.vars()) + 1 {
            let conflict = self.propagate()?;
            if conflict.is_some() {
                return Ok(conflict);
            }
            if !self.deny_askers()? {
                break;
            }
        }
        Ok(None)
    }
}
