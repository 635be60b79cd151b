//! Where clauses are listed, so that those which a clause may contain are found.
ghost use Rattle.std.specs.Prelude.{◌≡◌, ◌+◌, ◌*◌, ◌<◌, ◌≤◌, List, length, take, All, IfOk, OnOk, MatchBool, vec_len};
ghost use Rattle.heesch_cnf.specs.declared.literal.Lit.{Lit};
ghost use Rattle.heesch_cnf.specs.Literals.{held};
ghost use Rattle.heesch_cnf.specs.Clauses.{AreClauses, IsClause, IsNew};
ghost use Rattle.heesch_cnf.specs.Flat.{code_of};
ghost use Rattle.heesch_cnf.specs.Lines.{refuting};
ghost use Rattle.heesch_rup.specs.Listed.{slot_of, ListsFirst, SomeFalsified, NoneFalsifiedAt};

use crate::rarity::counts_of;
use crate::status::is_falsified;
use heesch_cnf::{FlatFormula, Lit, PackedLit};
use heesch_io::NoMemory;
use std::alloc::Global;

/// The slot of a literal: two for each variable, the negative literal's first.
pub fn lit_slot(lit: Lit) -> usize
    ensures { result ≡ code_of lit }
{
    2 * lit.var as usize + usize::from(lit.positive)
}

/// The slot at which a clause is listed: that of its rarest literal, or 0 for the empty clause. It reads each literal.
pub fn slot_of(counts: &[u32], clause: &[PackedLit]) -> usize
    requires { All (λ l. code_of l < length counts.now) clause.now }
    ensures { result ≡ slot_of counts.now clause.now }
{
    let Some(first) = clause.first() else {
        return 0;
    };
    let mut rarest = first.code();
    for lit in clause {
        if counts[lit.code()] < counts[rarest] {
            rarest = lit.code();
        }
    }
    rarest
}

/// Clauses by their literal that is rarest in lines, the first such. A clause contains another only if it has that
/// literal of it, so few have to be compared.
#[derive(Drop)]
pub struct Occurrences {
    /// How often lines have each literal, by slot.
    pub counts: Vec<u32>,
    /// For each slot, the place of its last clause.
    pub last: Vec<Option<usize>>,
    /// For each clause, the place of the one before it at the same slot.
    pub earlier: Vec<Option<usize>>,
}

impl Occurrences {
    /// No clauses yet, and slots for the literals of the variables 1 to `vars`, of which lines have so many.
    pub fn new(alloc: Global, vars: u32, counts: Vec<u32>) -> Result<Occurrences, NoMemory>
        ensures counts { IfOk result (λ o. o.counts ≡ counts) }
        ensures room { IfOk result (λ o. vec_len o.last ≡ 2 * vars + 2) }
        ensures none { IfOk result (λ o. vec_len o.earlier ≡ 0) }
        ensures lists { IfOk result (λ o. (clauses : List (List Lit)) → ListsFirst clauses o) }
    {
        Ok(Occurrences {
            counts,
            last: vec![in alloc; None; 2 * vars as usize + 2]?,
            earlier: Vec::new(alloc),
        })
    }

    /// Lists the next clause. It reads the clause once, and costs a `Vec::push`.
    pub fn list_next(&mut self, clauses: &FlatFormula) -> Result<(), NoMemory>
        requires room { 2 * clauses.now.vars + 1 < vec_len self.old.last }
        requires counts { 2 * clauses.now.vars + 1 < vec_len self.old.counts }
        requires form { AreClauses clauses.now.vars clauses.now.clauses }
        requires more { vec_len self.old.earlier < length clauses.now.clauses }
        requires lists { ListsFirst clauses.now.clauses self.old }
        ensures room { vec_len self.new.last ≡ vec_len self.old.last }
        ensures counts { vec_len self.new.counts ≡ vec_len self.old.counts }
        ensures count { OnOk result (vec_len self.new.earlier ≡ vec_len self.old.earlier + 1) }
        ensures lists { OnOk result (ListsFirst clauses.now.clauses self.new) }
    {
        let place = self.earlier.len();
        let slot = slot_of(self.counts.as_slice(), clauses.clause(place));
        self.earlier.push(self.last[slot])?;
        self.last[slot] = Some(place);
        Ok(())
    }

    /// Whether one of the first clauses, of which so many are listed at least, is of this slot and has all its
    /// literals false. It passes over the clauses of the slot that stand later, and reads the others.
    fn any_falsified(
        &self,
        values: &[Option<bool>],
        clauses: &FlatFormula,
        count: usize,
        slot: usize,
    ) -> bool
        requires slot { slot < vec_len self.now.last }
        requires room { clauses.now.vars < length values.now }
        requires form { AreClauses clauses.now.vars clauses.now.clauses }
        requires lists { ListsFirst clauses.now.clauses self.now }
        requires count { count ≤ vec_len self.now.earlier }
        ensures { let found = held values.now in
            MatchBool result (SomeFalsified found clauses.now.clauses count)
            (NoneFalsifiedAt self.now.counts.items found clauses.now.clauses count slot) }
    {
        let mut next = self.last[slot];
        while let Some(place) = next {
            if place < count && is_falsified(values, clauses.clause(place)) {
                return true;
            }
            next = self.earlier[place];
        }
        false
    }

    /// Whether a clause, whose literals the values make false, contains one of the first, so many, which are listed.
    /// It reads those of them that are listed at its literals.
    pub fn contains_listed(
        &self,
        values: &[Option<bool>],
        clauses: &FlatFormula,
        count: usize,
        clause: &[Lit],
    ) -> bool
        requires slots { 2 * clauses.now.vars + 1 < vec_len self.now.last }
        requires room { clauses.now.vars < length values.now }
        requires refuted { held values.now ≡ refuting clause.now }
        requires form { AreClauses clauses.now.vars clauses.now.clauses }
        requires clause { IsClause clauses.now.vars clause.now }
        requires lists { ListsFirst clauses.now.clauses self.now }
        requires count { count ≤ vec_len self.now.earlier }
        ensures { let found = held values.now in
            MatchBool result (SomeFalsified found clauses.now.clauses count)
            (IsNew (take count clauses.now.clauses) clause.now) }
    {
        if self.any_falsified(values, clauses, count, 0) {
            return true;
        }
        for lit in clause {
            if self.any_falsified(values, clauses, count, lit_slot(*lit)) {
                return true;
            }
        }
        false
    }
}

/// The first clauses, so many, listed by the literals that lines have least often.
pub fn occurrences_of(
    alloc: Global,
    clauses: &FlatFormula,
    count: usize,
    lines: &FlatFormula,
) -> Result<Occurrences, NoMemory>
    requires form { AreClauses clauses.now.vars clauses.now.clauses }
    requires vars { lines.now.vars ≡ clauses.now.vars }
    requires count { count ≤ length clauses.now.clauses }
    ensures room { IfOk result (λ o. vec_len o.last ≡ 2 * clauses.now.vars + 2) }
    ensures counts { IfOk result (λ o. vec_len o.counts ≡ 2 * clauses.now.vars + 2) }
    ensures count { IfOk result (λ o. vec_len o.earlier ≡ count) }
    ensures lists { IfOk result (ListsFirst clauses.now.clauses) }
{
    let mut listed = Occurrences::new(alloc, clauses.vars(), counts_of(alloc, lines)?)?;
    for _place in 0..count {
        listed.list_next(clauses)?;
    }
    Ok(listed)
}
