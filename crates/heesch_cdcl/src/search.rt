//! Decisions down to a model or a conflict, and the way back.
ghost use Rattle.std.specs.Prelude.{◌≡◌, ◌≤◌, IfOk};
ghost use Rattle.heesch_trail.specs.State.{IsTrail, level_of, up_to, IsPropagated};
ghost use Rattle.heesch_cdcl.specs.Search.{LowerFixpoints, IsDescent, SameClauses};

use crate::workspace::Workspace;
use heesch_io::NoMemory;

impl Workspace {
    /// Decides and propagates until every variable has a value, or until all literals of a clause are false, whose
    /// number is answered.
    pub fn descend(&mut self) -> Result<Option<u32>, NoMemory>
        requires { LowerFixpoints self.old.trail }
        ensures found { IfOk result (IsDescent self.new.trail) }
        ensures lower { LowerFixpoints self.new.trail }
        ensures same { SameClauses self.old.trail self.new.trail }
        ensures valid { IsTrail self.new.trail }
    {
        let _ = self.trail.vars();
        loop {
            if let Some(number) = self.trail.propagate()? {
                return Ok(Some(number));
            }
            let Some(lit) = self.choose() else {
                return Ok(None);
            };
            self.trail.decide(lit)?;
        }
    }

    /// Goes back to the level.
    pub fn go_back(&mut self, level: u32)
        requires { level ≤ level_of self.old.trail.steps }
        ensures back { self.new.trail ≡ record self.old.trail { steps = up_to level self.old.trail.steps } }
        ensures level { level_of self.new.trail.steps ≡ level }
        ensures valid { IsTrail self.new.trail }
    {
        self.decisions.reset();
        self.trail.back_to(level);
    }

    /// Goes back to level 0 and propagates.
    pub fn restart(&mut self) -> Result<Option<u32>, NoMemory>
        ensures found { IfOk result (IsPropagated self.new.trail) }
        ensures level { level_of self.new.trail.steps ≡ 0 }
        ensures same { SameClauses self.old.trail self.new.trail }
        ensures valid { IsTrail self.new.trail }
    {
        self.go_back(0);
        self.trail.propagate()
    }
}
