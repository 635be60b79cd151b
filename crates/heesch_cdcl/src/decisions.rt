//! The choice of the next decision.
ghost use Rattle.std.specs.Prelude.{◌≡◌, ◌+◌, ◌≤◌, IfSome, All, length};
ghost use Rattle.heesch_cnf.specs.Lines.{IsNumber};
ghost use Rattle.heesch_cdcl.specs.Search.{IsOpen, IsNextOpen, IsAnyOpen, IsChoice};

use crate::covers::Covers;
use crate::workspace::Workspace;
use heesch_cnf::Lit;
use heesch_trail::Trail;

/// Which literal is decided next. Of the clauses with at most one negative literal, whose guard is true, and which
/// have no true literal, the first with the fewest open ones is taken, and its last open literal is made true. Where
/// there is none, the first open variable is made false. All of this is a heuristic: no answer rests on it.
#[derive(Drop)]
pub struct Decisions {
    pub covers: Covers,
    /// The covers whose guards stand among so many first assignments have a true literal.
    covered: usize,
    /// No variable up to this one is open.
    passed: u32,
}

/// A clause by its number, or 0, and how many of its literals are open.
#[derive(Debug, Clone, Copy)]
struct Fewest {
    number: u32,
    open: usize,
}

/// Where every clause has a true literal or two open ones, none has fewer open ones and no true one.
const LEAST: usize = 2;

/// The number of open literals of a clause, where no literal is true and fewer than `most` are open.
fn open_below(trail: &Trail, number: u32, most: usize) -> Option<usize>
    requires { IsNumber trail.now.clauses number }
{
    let mut open = 0;
    for lit in trail.clause(number) {
        match trail.value_of(*lit) {
            Some(false) => {}
            Some(true) => return None,
            None => {
                open += 1;
                if most <= open {
                    return None;
                }
            }
        }
    }
    Some(open)
}

/// The last open literal of a clause.
fn last_open(trail: &Trail, number: u32) -> Option<Lit>
    requires { IsNumber trail.now.clauses number }
    ensures { IfSome result (λ l. IsOpen trail.now l.var) }
{
    let clause = trail.clause(number);
    for place in (0..clause.len()).rev() {
        let lit = clause[place];
        if trail.value(lit.var()).is_none() {
            return Some(lit.lit());
        }
    }
    None
}

/// The first of these clauses with fewer open literals than the best so far, and no true one; or that one again.
fn fewest_in(trail: &Trail, numbers: &[u32], so_far: Fewest) -> Fewest
    requires numbers { All (IsNumber trail.now.clauses) numbers.now }
    requires best { so_far.number ≤ length trail.now.clauses }
    ensures { result.number ≤ length trail.now.clauses }
{
    let mut best = so_far;
    for number in numbers {
        if let Some(open) = open_below(trail, *number, best.open) {
            best = Fewest {
                number: *number,
                open,
            };
            if open <= LEAST {
                return best;
            }
        }
    }
    best
}

/// The least open variable behind this one, if there is one.
fn open_after(trail: &Trail, passed: u32) -> Option<u32>
    ensures { IsNextOpen trail.now passed result }
{
    let vars = trail.vars();
    for before in passed..vars {
        if trail.value(before + 1).is_none() {
            return Some(before + 1);
        }
    }
    None
}

impl Decisions {
    /// Over a trail without assignments. It takes no memory.
    pub fn new(covers: Covers) -> Decisions
        ensures { result.covers ≡ covers }
    {
        Decisions {
            covers,
            covered: 0,
            passed: 0,
        }
    }

    /// An open variable, the least where none before `passed` is open. All are scanned again only where none is left.
    fn open_variable(&mut self, trail: &Trail) -> Option<u32>
        ensures choice { IsAnyOpen trail.now result }
        ensures same { self.new.covers ≡ self.old.covers }
    {
        if let Some(var) = open_after(trail, self.passed) {
            self.passed = var;
            return Some(var);
        }
        open_after(trail, 0)
    }

    /// Assignments are about to go: all clauses and all variables are looked at again.
    pub fn reset(&mut self)
        ensures { self.new.covers ≡ self.old.covers }
    {
        self.covered = 0;
        self.passed = 0;
    }
}

impl Workspace {
    /// The first clause with the fewest open literals, of those that are looked at.
    fn fewest_open(&self) -> Fewest
        ensures { result.number ≤ length self.now.trail.clauses }
    {
        let mut best = Fewest {
            number: 0,
            open: usize::MAX,
        };
        if self.decisions.covered == 0 {
            best = fewest_in(&self.trail, self.decisions.covers.guarded_by(0), best);
        }
        let made = self.trail.made();
        for place in self.decisions.covered..made.len() {
            if best.open <= LEAST {
                return best;
            }
            let lit = made[place];
            if lit.positive {
                best = fewest_in(&self.trail, self.decisions.covers.guarded_by(lit.var), best);
            }
        }
        best
    }

    /// The last open literal of the clause with the fewest, if there is one.
    fn cover(&mut self) -> Option<Lit>
        ensures choice { IfSome result (λ l. IsOpen self.new.trail l.var) }
        ensures same { self.new.trail ≡ self.old.trail }
    {
        let best = self.fewest_open();
        if best.number == 0 {
            self.decisions.covered = self.trail.made().len();
            return None;
        }
        last_open(&self.trail, best.number)
    }

    /// The literal to decide, or None where no variable is open. The cost is that of counting the open literals of the
    /// clauses whose guard is true, each up to a true literal or to as many as the best clause has, or of passing over
    /// assigned variables.
    pub fn choose(&mut self) -> Option<Lit>
        ensures choice { IsChoice self.new.trail result }
        ensures same { self.new.trail ≡ self.old.trail }
    {
        if let Some(lit) = self.cover() {
            return Some(lit);
        }
        let var = self.decisions.open_variable(&self.trail)?;
        Some(Lit {
            var,
            positive: false,
        })
    }
}
