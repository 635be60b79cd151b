//! A formula in one array.
ghost use Rattle.std.specs.Prelude.{◌≡◌, ◌<◌, ◌≤◌, ◌^◌, [], ◌∷◌, ◌++◌, All, length, take, IfOk, OnOk, OnErr};
ghost use Rattle.std.specs.Prelude.{slice_index_or};
ghost use Rattle.heesch_cnf.specs.Clauses.{IsClause, AreClauses};
ghost use Rattle.heesch_io.specs.Pieces.{AreEnds, start_at};

use crate::{Formula, Lit, PackedLit};
use heesch_io::{NoMemory, Seq};
use std::alloc::Global;
use std::marker::Model;

/// At most 2^31 clauses over the variables 1 to `vars`, fewer than 2^31, as a `Formula` has them, but one after
/// another in one array of packed literals, with the place where each of them ends: a literal takes four bytes, a
/// clause four more.
#[derive(Drop)]
pub struct FlatFormula {
    vars: u32,
    literals: Vec<PackedLit>,
    ends: Vec<u32>,
}

impl Model for FlatFormula {
    ghost use Rattle.heesch_io.specs.Pieces.{pieces};
    ghost use Rattle.heesch_cnf.specs.Flat.{Clauses, IsFlat};

    ghost Value = { Clauses };

    ghost view = { λ f. record { vars = f.vars; clauses = pieces f.literals.items 0 f.ends.items } };

    ghost invariant = { λ f. IsFlat f.vars f.literals.items f.ends.items };
}

/// Where the clause of this index begins and ends: it begins where the one before it ends.
fn bounds(size: usize, ends: &[u32], index: usize) -> (usize, usize)
    requires ends { AreEnds 0 ends.now size }
    requires index { index < length ends.now }
    ensures start { result.0 ≡ start_at 0 ends.now index }
    ensures end { result.1 ≡ slice_index_or ends.now index 0 }
    ensures rising { result.0 ≤ result.1 }
    ensures within { result.1 ≤ size }
{
    let start = if index == 0 { 0 } else { ends[index - 1] };
    (start as usize, ends[index] as usize)
}

/// The literals stand last, packed; at want of memory some of them may.
fn append(literals: &mut Vec<PackedLit>, clause: &[Lit]) -> Result<(), NoMemory>
    requires { All (λ l. l.var < 2 ^ 31) clause.now }
    ensures ok { OnOk result (literals.new.items ≡ literals.old.items ++ clause.now) }
    ensures kept { take (length literals.old.items) literals.new.items ≡ literals.old.items }
{
    for lit in clause {
        literals.push(PackedLit::of(*lit))?;
    }
    Ok(())
}

/// The literals of a clause, without room to spare.
fn unpacked(alloc: Global, clause: &[PackedLit]) -> Result<Vec<Lit>, NoMemory>
    ensures { IfOk result (λ literals. literals.items ≡ clause.now) }
{
    let mut literals = Vec::with_capacity(alloc, clause.len())?;
    for packed in clause {
        literals.push(packed.lit())?;
    }
    Ok(literals)
}

impl FlatFormula {
    /// A formula without clauses. It takes no memory. Condition: fewer than 2^31 variables.
    pub fn new(alloc: Global, vars: u32) -> FlatFormula
        requires { vars < 2 ^ 31 }
        ensures { result ≡ record { vars = vars; clauses = [] } }
    {
        FlatFormula {
            vars,
            literals: Vec::new(alloc),
            ends: Vec::new(alloc),
        }
    }

    /// The clauses of the formula, copied. A formula of 2^31 variables or more counts as want of memory. The cost is
    /// the number of the clauses and that of their literals.
    pub fn of(alloc: Global, formula: &Formula) -> Result<FlatFormula, NoMemory>
        ensures { IfOk result (λ f. f ≡ record { vars = formula.now.vars; clauses = formula.now.clauses }) }
    {
        if formula.vars >= 1 << 31 {
            return Err(NoMemory);
        }
        let mut flat = FlatFormula::new(alloc, formula.vars);
        for clause in formula.clauses.as_slice() {
            flat.add(clause.as_slice())?;
        }
        Ok(flat)
    }

    /// The clauses, copied, each without room to spare. The cost is the number of the clauses and that of their
    /// literals.
    pub fn to_formula(&self, alloc: Global) -> Result<Formula, NoMemory>
        ensures vars { IfOk result (λ f. f.vars ≡ self.now.vars) }
        ensures clauses { IfOk result (λ f. f.clauses ≡ self.now.clauses) }
    {
        let mut formula = Formula::new(alloc, self.vars());
        for index in 0..self.len() {
            let literals = unpacked(alloc, self.clause(index))?;
            formula.add(Seq::from_vec(literals))?;
        }
        Ok(formula)
    }

    /// The number of the variables.
    pub fn vars(&self) -> u32
        ensures vars { result ≡ self.now.vars }
        ensures small { result < 2 ^ 31 }
        ensures form { AreClauses self.now.vars self.now.clauses }
    {
        self.vars
    }

    /// The number of the clauses.
    pub fn len(&self) -> usize
        ensures count { result ≡ length self.now.clauses }
        ensures few { result ≤ 2 ^ 31 }
    {
        self.ends.len()
    }

    /// The clause of an index, which counts from 0. Nothing is copied.
    pub fn clause(&self, index: usize) -> &[PackedLit]
        requires { index < length self.now.clauses }
        ensures { result.now ≡ slice_index_or self.now.clauses index [] }
    {
        let (start, end) = bounds(self.literals.len(), &self.ends, index);
        &self.literals[start..end]
    }

    /// The clause stands last, or nothing has changed. More than 2^32 literals in all count as want of memory. The
    /// cost is the clause's length, as an average over many calls.
    pub fn add(&mut self, clause: &[Lit]) -> Result<(), NoMemory>
        requires form { IsClause self.old.vars clause.now }
        requires room { length self.old.clauses < 2 ^ 31 }
        ensures ok { OnOk result (self.new ≡ record self.old { clauses = self.old.clauses ++ clause.now ∷ [] }) }
        ensures err { OnErr result (self.new ≡ self.old) }
    {
        let start = self.literals.len();
        if append(&mut self.literals, clause).is_err() {
            self.literals.truncate(start);
            return Err(NoMemory);
        }
        let end = self.literals.len();
        if end > u32::MAX as usize || self.ends.push(end as u32).is_err() {
            self.literals.truncate(start);
            return Err(NoMemory);
        }
        Ok(())
    }

    /// The same for a clause of packed literals, which are copied as they stand.
    pub fn add_packed(&mut self, clause: &[PackedLit]) -> Result<(), NoMemory>
        requires form { IsClause self.old.vars clause.now }
        requires room { length self.old.clauses < 2 ^ 31 }
        ensures ok { OnOk result (self.new ≡ record self.old { clauses = self.old.clauses ++ clause.now ∷ [] }) }
        ensures err { OnErr result (self.new ≡ self.old) }
    {
        let start = self.literals.len();
        self.literals.extend_from_slice(clause)?;
        let end = self.literals.len();
        if end > u32::MAX as usize || self.ends.push(end as u32).is_err() {
            self.literals.truncate(start);
            return Err(NoMemory);
        }
        Ok(())
    }
}
