//! Which marked variables follow from the others, so that a learnt clause needs fewer literals.
ghost use Rattle.std.specs.Prelude.{◌≡◌, ◌+◌, ◌≤◌, IfOk, IfSome, length};
ghost use Rattle.heesch_cnf.specs.Clauses.{IsClause};

use heesch_cnf::PackedLit;
use heesch_io::NoMemory;
use heesch_trail::Trail;
use std::alloc::Global;

/// For the variables that were asked about, whether they follow from the marked ones: each other variable of the
/// reason is marked, was assigned at level 0, or follows in turn. All of this is a heuristic: no answer rests on it.
#[derive(Drop)]
pub struct Verdicts {
    known: Vec<Option<bool>>,
    judged: Vec<u32>,
}

/// The clause that a variable's value follows from.
fn reason_in(trail: &Trail, var: u32) -> Option<&[PackedLit]>
    requires { var ≤ trail.now.vars }
    ensures { IfSome result (λ clause. IsClause trail.now.vars clause.now) }
{
    let _ = trail.vars();
    match trail.reason_of(var) {
        None => None,
        Some(reason) => Some(trail.clause(reason)),
    }
}

impl Verdicts {
    /// Nothing was asked.
    pub fn new(alloc: Global, vars: u32) -> Result<Verdicts, NoMemory> {
        let mut known = Vec::new(alloc);
        for _ in 0..vars as usize + 1 {
            known.push(None).map_err(|_| NoMemory)?;
        }
        Ok(Verdicts {
            known,
            judged: Vec::new(alloc),
        })
    }

    fn verdict(&self, var: u32) -> Option<bool> {
        match self.known.get(var as usize) {
            Some(Some(verdict)) => Some(*verdict),
            _ => None,
        }
    }

    fn judge(&mut self, var: u32, verdict: bool) -> Result<bool, NoMemory>
        ensures { IfOk result (λ answer. answer ≡ verdict) }
    {
        self.judged.push(var).map_err(|_| NoMemory)?;
        if let Some(place) = self.known.get_mut(var as usize) {
            *place = Some(verdict);
        }
        Ok(verdict)
    }

    /// Whether the variable follows from those that are seen, by at most `depth` reasons in a row. The cost is the
    /// lengths of the reasons of the variables that weren't asked about before.
    pub fn follows(
        &mut self,
        trail: &Trail,
        seen: &[bool],
        var: u32,
        depth: u32,
    ) -> Result<bool, NoMemory>
        requires range { var ≤ trail.now.vars }
        requires room { length seen.now ≡ trail.now.vars + 1 }
    {
        if let Some(verdict) = self.verdict(var) {
            return Ok(verdict);
        }
        if depth == 0 {
            return Ok(false);
        }
        let Some(reason) = reason_in(trail, var) else {
            return Ok(false);
        };
        for lit in reason {
            let other = lit.var();
            let given = other == var || seen[other as usize] || trail.level_of(other) == Some(0);
            if !given && !self.follows(trail, seen, other, depth - 1)? {
                return self.judge(var, false);
            }
        }
        self.judge(var, true)
    }

    /// Nothing was asked any more. The cost is the number of the variables that were.
    pub fn clear(&mut self) {
        while let Some(var) = self.judged.pop() {
            if let Some(place) = self.known.get_mut(var as usize) {
                *place = None;
            }
        }
    }
}
