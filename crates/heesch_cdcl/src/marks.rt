//! The marks of an analysis.
ghost use Rattle.std.specs.Prelude.{◌≡◌, ◌<◌, ◌≤◌, ◌+◌, IfOk, OnOk, IsTrue, ◌↔◌, Some, true, false, slice_set, length};
ghost use Rattle.heesch_cnf.specs.Clauses.{IsClause};
ghost use Rattle.heesch_trail.specs.State.{level_of};
ghost use Rattle.heesch_cdcl.specs.Marking.{AreMarks, HavePlaces, IsClear, MarksClause, AreMarked, marked};
ghost use Rattle.heesch_cdcl.specs.Marking.{level_in, pending_in};

use crate::filled::filled;
use crate::verdicts::Verdicts;
use heesch_cnf::PackedLit;
use heesch_io::NoMemory;
use heesch_trail::Trail;
use std::alloc::Global;
use std::marker::Model;

/// The variables of a clause that is being derived: all of them, and those of the present level, with their count.
/// Each variable that was ever marked is listed, so that the marks can be taken back without a look at the others.
#[derive(Drop)]
pub struct Marks {
    seen: Vec<bool>,
    here: Vec<bool>,
    touched: Vec<u32>,
    pending: usize,
    verdicts: Verdicts,
}

impl Model for Marks {
    ghost use Rattle.heesch_cdcl.specs.Marking.{Marking, AreCounted};

    ghost Value = { Marking };

    ghost view = { λ m. record { seen = m.seen.items; here = m.here.items } };

    ghost invariant = { λ m. AreCounted m.seen.items m.here.items m.touched.items m.pending };
}

/// At most as many reasons in a row show that a variable follows from others.
const DEPTH: u32 = 500;

/// Whether the variable was assigned at the level.
fn is_at(trail: &Trail, level: u32, var: u32) -> bool
    requires { var ≤ trail.now.vars }
    ensures { IsTrue result ↔ (level_in trail.now.steps var ≡ Some level) }
{
    match trail.level_of(var) {
        None => false,
        Some(of) => of == level,
    }
}

impl Marks {
    /// Nothing is marked.
    pub fn new(alloc: Global, vars: u32) -> Result<Marks, NoMemory>
        ensures places { IfOk result (HavePlaces vars) }
        ensures clear { IfOk result IsClear }
    {
        let count = vars as usize + 1;
        Ok(Marks {
            seen: filled(alloc, count, false)?,
            here: filled(alloc, count, false)?,
            touched: Vec::new(alloc),
            pending: 0,
            verdicts: Verdicts::new(alloc, vars)?,
        })
    }

    fn mark_one(&mut self, trail: &Trail, level: u32, var: u32) -> Result<(), NoMemory>
        requires range { (1 ≤ var) × (var ≤ trail.now.vars) }
        requires marks { AreMarks trail.now level self.old }
        ensures marks { AreMarks trail.now level self.new }
        ensures seen { OnOk result (self.new.seen ≡ slice_set self.old.seen var true) }
        ensures more { pending_in self.old ≤ pending_in self.new }
    {
        let place = var as usize;
        if self.seen[place] {
            return Ok(());
        }
        if self.touched.push(var).is_err() {
            return Err(NoMemory);
        }
        self.seen[place] = true;
        if is_at(trail, level, var) {
            self.here[place] = true;
            self.pending += 1;
        }
        Ok(())
    }

    /// The variables of the clause are marked too.
    pub fn mark(&mut self, trail: &Trail, level: u32, clause: &[PackedLit]) -> Result<(), NoMemory>
        requires form { IsClause trail.now.vars clause.now }
        requires marks { AreMarks trail.now level self.old }
        ensures marks { AreMarks trail.now level self.new }
        ensures seen { OnOk result (MarksClause self.old.seen self.new.seen clause.now) }
        ensures more { pending_in self.old ≤ pending_in self.new }
    {
        for lit in clause {
            self.mark_one(trail, level, lit.var())?;
        }
        Ok(())
    }

    /// A variable is marked no more.
    pub fn unmark(&mut self, trail: &Trail, level: u32, var: u32)
        requires range { var ≤ trail.now.vars }
        requires marks { AreMarks trail.now level self.old }
        ensures marks { AreMarks trail.now level self.new }
        ensures seen { self.new.seen ≡ slice_set self.old.seen var false }
        ensures less { marked self.old.here var ≡ true → pending_in self.new + 1 ≡ pending_in self.old }
        ensures same { marked self.old.here var ≡ false → pending_in self.new ≡ pending_in self.old }
    {
        let place = var as usize;
        self.seen[place] = false;
        if !self.here[place] {
            return;
        }
        self.here[place] = false;
        self.pending -= 1;
    }

    /// How many variables are marked as ones of the present level.
    pub fn pending(&self) -> usize
        ensures { result ≡ pending_in self.now }
    {
        self.pending
    }

    /// How many variables were marked since the marks were clear.
    pub fn touched(&self) -> usize {
        self.touched.len()
    }

    /// Whether a variable is marked.
    pub fn is_seen(&self, var: u32) -> bool
        requires { var < length self.now.seen }
        ensures { result ≡ marked self.now.seen var }
    {
        self.seen[var as usize]
    }

    /// Whether a variable is marked, and of a lower level.
    pub fn is_below(&self, var: u32) -> bool
        requires { var < length self.now.seen }
        ensures { IsTrue result
            ↔ ((marked self.now.seen var ≡ true) × (marked self.now.here var ≡ false)) }
    {
        self.seen[var as usize] && !self.here[var as usize]
    }

    /// Whether the variable follows from the marked ones and from level 0.
    pub fn follows(&mut self, trail: &Trail, var: u32) -> Result<bool, NoMemory>
        requires range { var ≤ trail.now.vars }
        requires room { length self.old.seen ≡ trail.now.vars + 1 }
        ensures { self.new ≡ self.old }
    {
        self.verdicts.follows(trail, &self.seen, var, DEPTH)
    }

    /// The variables that are marked, in the order in which they were, each at least once.
    pub fn keep(&self, kept: &mut Vec<u32>) -> Result<(), NoMemory>
        ensures { OnOk result (AreMarked self.now.seen kept.new.items) }
    {
        kept.clear();
        for var in &self.touched {
            if self.seen[*var as usize] {
                kept.push(*var).map_err(|_| NoMemory)?;
            }
        }
        Ok(())
    }

    /// Nothing is marked any more. The cost is the number of the variables that were.
    pub fn clear(&mut self)
        ensures clear { IsClear self.new }
        ensures seen_room { length self.new.seen ≡ length self.old.seen }
        ensures here_room { length self.new.here ≡ length self.old.here }
    {
        while let Some(var) = self.touched.pop() {
            self.seen[var as usize] = false;
            self.here[var as usize] = false;
        }
        self.pending = 0;
        self.verdicts.clear();
    }
}
