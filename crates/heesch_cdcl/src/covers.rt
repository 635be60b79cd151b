//! The clauses by which the next decision is taken.
ghost use Rattle.std.specs.Prelude.{◌≡◌, ◌+◌, ◌<◌, ◌≤◌, IfOk, All, length, map, Contains};
ghost use Rattle.heesch_cnf.specs.Lines.{IsNumber};
ghost use Rattle.heesch_cdcl.specs.Covers.{AreWithin};

use heesch_cnf::{FlatFormula, PackedLit};
use heesch_io::NoMemory;
use std::alloc::Global;
use std::marker::Model;

/// The clauses of a formula with at most one negative literal: where its variable, the guard, is true, one of the
/// others has to be. Those without a guard stand first, and then those of each guard.
#[derive(Drop)]
pub struct Covers {
    vars: u32,
    numbers: Vec<u32>,
    ends: Vec<usize>,
}

impl Model for Covers {
    ghost use Rattle.heesch_cdcl.specs.Covers.{Scope, AreLists};

    ghost Value = { Scope };

    ghost view = { λ c. record { vars = c.vars; numbers = c.numbers.items } };

    ghost invariant = { λ c. AreLists c.vars c.numbers.items c.ends.items };
}

/// A clause by its number, with its guard, or 0 where it has none.
#[derive(Debug, Clone, Copy)]
struct Cover {
    guard: u32,
    number: u32,
}

/// The variable of the negative literal, or 0 where there is none; None where there are several.
fn guard_in(clause: &[PackedLit]) -> Option<u32> {
    let mut guard = 0;
    for lit in clause {
        if !lit.is_positive() {
            if guard != 0 {
                return None;
            }
            guard = lit.var();
        }
    }
    Some(guard)
}

/// The clauses with at most one negative literal, in the order of their guards, and else in that of their numbers.
fn covers_in(alloc: Global, formula: &FlatFormula) -> Result<Vec<Cover>, NoMemory>
    ensures { IfOk result (λ v. All (λ c. IsNumber formula.now.clauses c.number) v.items) }
{
    let mut covers = Vec::new(alloc);
    for index in 0..formula.len() {
        if let Some(guard) = guard_in(formula.clause(index)) {
            let number = index as u32 + 1;
            covers.push(Cover { guard, number }).map_err(|_| NoMemory)?;
        }
    }
    covers.sort_by_key(|cover| cover.guard)?;
    Ok(covers)
}

/// The numbers of the covers.
fn numbers_of(alloc: Global, covers: &[Cover]) -> Result<Vec<u32>, NoMemory>
    ensures { IfOk result (λ v. v.items ≡ map (λ c. c.number) covers.now) }
{
    let mut numbers = Vec::with_capacity(alloc, covers.len())?;
    for cover in covers {
        numbers.push(cover.number).map_err(|_| NoMemory)?;
    }
    Ok(numbers)
}

/// The place behind the covers of this guard that stand from a place on.
fn end_of(covers: &[Cover], from: usize, guard: u32) -> usize
    requires { from ≤ length covers.now }
    ensures behind { from ≤ result }
    ensures within { result ≤ length covers.now }
{
    let mut end = from;
    while end < covers.len() && covers[end].guard == guard {
        end += 1;
    }
    end
}

/// Where the list of an index begins and ends: it begins where the one before it ends.
fn bounds(size: usize, ends: &[usize], index: usize) -> (usize, usize)
    requires ends { AreWithin ends.now size }
    requires index { index < length ends.now }
    ensures rising { result.0 ≤ result.1 }
    ensures within { result.1 ≤ size }
{
    let start = if index == 0 { 0 } else { ends[index - 1] };
    (start, ends[index])
}

impl Covers {
    /// Those of the formula. The cost is the number of all literals, and the sorting of the covers by their guards.
    pub fn of(alloc: Global, formula: &FlatFormula) -> Result<Covers, NoMemory>
        ensures vars { IfOk result (λ c. c.vars ≡ formula.now.vars) }
        ensures numbers { IfOk result (λ c. All (IsNumber formula.now.clauses) c.numbers) }
    {
        let covers = covers_in(alloc, formula)?;
        let vars = formula.vars();
        let mut ends = Vec::with_capacity(alloc, vars as usize + 1)?;
        let mut end = 0;
        for guard in 0..vars + 1 {
            end = end_of(&covers, end, guard);
            ends.push(end).map_err(|_| NoMemory)?;
        }
        Ok(Covers {
            vars,
            numbers: numbers_of(alloc, &covers)?,
            ends,
        })
    }

    /// The numbers of the clauses with this guard, or of those without one at 0. It takes no memory.
    pub fn guarded_by(&self, guard: u32) -> &[u32]
        requires { guard ≤ self.now.vars }
        ensures { All (Contains self.now.numbers) result.now }
    {
        let (start, end) = bounds(self.numbers.len(), &self.ends, guard as usize);
        &self.numbers[start..end]
    }
}
