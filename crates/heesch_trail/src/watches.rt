//! Which literals watch which clause.
ghost use Rattle.std.specs.Prelude.{◌≡◌, ◌≢◌, ℕ, ◌+◌, ◌*◌, ◌<◌, ◌^◌, ◌⊎◌, [], ◌∷◌, ◌++◌, length, set, replicate, None};
ghost use Rattle.std.specs.Prelude.{Some, Contains, IfOk, OnOk, OnErr};
ghost use Rattle.heesch_cnf.specs.Flat.{code_of};
ghost use Rattle.heesch_trail.specs.Watches.{Watching, list_of, pair_of, AreKept, OthersStay, IsWithout, IsListed};
ghost use Rattle.heesch_trail.specs.Watches.{Names, IsEntry, AreMore, HasPushed};

use crate::entry::Entry;
use crate::pair::Pair;
use crate::watch_list::WatchList;
use heesch_cnf::{FlatFormula, Lit, PackedLit};
use heesch_io::NoMemory;
use std::alloc::Global;
use std::marker::Model;

/// The two literals that watch a clause, where there are such, and for each literal the clauses that it watches.
/// Clauses are named by indices from 0. A list may also have entries of clauses that its literal doesn't watch: they
/// are dropped when met.
#[derive(Drop)]
pub struct Watches {
    pairs: Vec<Option<Pair>>,
    lists: Vec<WatchList>,
    visits: u64,
}

impl Model for Watches {
    ghost use Rattle.heesch_trail.specs.Watches.{Watching};

    ghost Value = { Watching };

    ghost view = { λ w. record { pairs = w.pairs.items; lists = w.lists.items } };
}

/// `count` places with nothing in them.
fn nones<T: Drop>(alloc: Global, count: usize) -> Result<Vec<Option<T>>, NoMemory>
    ensures { IfOk result (λ v. v.items ≡ replicate count None) }
{
    let mut places = Vec::with_capacity(alloc, count)?;
    for _ in 0..count {
        if places.push(None).is_err() {
            return Err(NoMemory);
        }
    }
    Ok(places)
}

/// One clause more has the literal.
fn count_one(counts: &mut [u32], lit: PackedLit)
    ensures { length counts.new ≡ length counts.old }
{
    if let Some(count) = counts.get_mut(lit.code()) {
        *count = count.wrapping_add(1);
    }
}

/// By its code, how many clauses have a literal as their first or second one.
fn counts(alloc: Global, formula: &FlatFormula) -> Result<Vec<u32>, NoMemory>
    ensures { IfOk result (λ v. length v.items ≡ 2 * formula.now.vars + 2) }
{
    let mut counts = vec![in alloc; 0u32; 2 * formula.vars() as usize + 2]?;
    for index in 0..formula.len() {
        let clause = formula.clause(index);
        for lit in &clause[..clause.len().min(2)] {
            count_one(&mut counts, *lit);
        }
    }
    Ok(counts)
}

/// The lists of all literals, without entries, each with room for the clauses that the literal watches at first, and
/// for some that it watches later: a list that is just full doubles with the next entry.
fn lists_for(alloc: Global, formula: &FlatFormula) -> Result<Vec<WatchList>, NoMemory>
    ensures { IfOk result (λ v. v.items ≡ replicate (2 * formula.now.vars + 2) []) }
{
    let counts = counts(alloc, formula)?;
    let mut lists = Vec::with_capacity(alloc, counts.len())?;
    for code in 0..counts.len() {
        let count = counts[code] as usize;
        let list = WatchList::with_room(alloc, count + count / 8)?;
        lists.push(list).map_err(|_| NoMemory)?;
    }
    Ok(lists)
}

impl Watches {
    /// The clauses of the formula, which aren't watched. The cost is the number of these and of the variables.
    pub fn open(alloc: Global, formula: &FlatFormula) -> Result<Watches, NoMemory>
        ensures { IfOk result
            (λ w. w ≡ record {
              pairs = replicate (length formula.now.clauses) None;
              lists = replicate
                  (2 * formula.now.vars + 2) [];
            }) }
    {
        Ok(Watches {
            pairs: nones(alloc, formula.len())?,
            lists: lists_for(alloc, formula)?,
            visits: 0,
        })
    }

    /// A clause was read, or its watched literals looked at.
    pub fn note_visit(&mut self)
        ensures { self.new ≡ self.old }
    {
        self.visits = self.visits.saturating_add(1);
    }

    /// How often `note_visit` was called, and at most the greatest `u64`.
    pub fn visits(&self) -> u64 {
        self.visits
    }

    /// One clause more, which isn't watched, or nothing has changed. The cost is one write, as an average over many
    /// calls.
    pub fn add(&mut self) -> Result<(), NoMemory>
        ensures ok { OnOk result (self.new ≡ record self.old { pairs = self.old.pairs ++ None ∷ [] }) }
        ensures err { OnErr result (self.new ≡ self.old) }
    {
        if self.pairs.push(None).is_err() {
            return Err(NoMemory);
        }
        Ok(())
    }

    /// The literals that watch the clause of an index. The cost is one look-up.
    pub fn pair(&self, index: usize) -> Option<Pair>
        ensures { result ≡ pair_of self.now.pairs index }
    {
        if index < self.pairs.len() {
            self.pairs[index]
        } else {
            None
        }
    }

    /// The entries of the clauses that the literal watches, and maybe others. The cost is one look-up.
    pub fn list(&self, lit: PackedLit) -> &[Entry]
        requires { code_of lit < length self.now.lists }
        ensures { result.now ≡ list_of self.now.lists lit }
    {
        self.lists[lit.code()].as_slice()
    }

    fn push(&mut self, lit: PackedLit, entry: Entry) -> Result<(), NoMemory>
        requires { code_of lit < length self.old.lists }
        ensures ok { OnOk result
            (self.new ≡ record self.old {
              lists = set self.old.lists (code_of lit)
                  (list_of self.old.lists lit ++ entry ∷ []);
            }) }
        ensures err { OnErr result (self.new ≡ self.old) }
    {
        self.lists[lit.code()].push(entry)
    }

    fn set_pair(&mut self, index: u32, pair: Pair)
        requires { index < length self.old.pairs }
        ensures { self.new ≡ record self.old { pairs = set self.old.pairs index (Some pair) } }
    {
        self.pairs[index as usize] = Some(pair);
    }

    /// The literal's list names the clause of the index, which this pair watched before.
    fn enlist(
        &mut self,
        watched: &Option<Pair>,
        lit: PackedLit,
        index: u32,
        beside: PackedLit,
        binary: bool,
    ) -> Result<(), NoMemory>
        requires fits { code_of lit < length self.old.lists }
        requires small { index < 2 ^ 31 }
        requires watched { watched.now ≡ pair_of self.old.pairs index }
        requires listed { IsListed self.old index }
        ensures pairs { self.new.pairs ≡ self.old.pairs }
        ensures room { length self.new.lists ≡ length self.old.lists }
        ensures kept { AreKept self.old.lists self.new.lists }
        ensures others { OthersStay lit self.old.lists self.new.lists }
        ensures there { IfOk result (λ _. Names (list_of self.new.lists lit) index) }
        ensures more { (e : Entry) → Contains (list_of self.new.lists lit) e → Contains (list_of self.old.lists lit) e
            ⊎ IsEntry index beside binary e }
    {
        if let Some(pair) = watched
            && pair.beside(lit).is_some()
        {
            return Ok(());
        }
        self.push(lit, Entry::new(index, beside, binary))
    }

    /// The pair watches the clause of an index from now on, in place of the one before; the clause has no other
    /// literals where it is binary. At want of memory it is watched as before. The cost is that of two writes, as an
    /// average over many calls.
    pub fn watch(
        &mut self,
        index: u32,
        watched: &Option<Pair>,
        pair: Pair,
        binary: bool,
    ) -> Result<(), NoMemory>
        requires watched { watched.now ≡ pair_of self.old.pairs index }
        requires place { index < length self.old.pairs }
        requires small { index < 2 ^ 31 }
        requires one { code_of pair.one < length self.old.lists }
        requires other { code_of pair.other < length self.old.lists }
        requires listed { IsListed self.old index }
        ensures ok { OnOk result (self.new.pairs ≡ set self.old.pairs index (Some pair)) }
        ensures err { OnErr result (self.new.pairs ≡ self.old.pairs) }
        ensures room { length self.new.lists ≡ length self.old.lists }
        ensures kept { AreKept self.old.lists self.new.lists }
        ensures others { (l : Lit) → code_of l ≢ code_of pair.one → code_of l ≢ code_of pair.other
            → list_of self.new.lists l ≡ list_of self.old.lists l }
        ensures one_there { IfOk result (λ _. Names (list_of self.new.lists pair.one) index) }
        ensures other_there { IfOk result (λ _. Names (list_of self.new.lists pair.other) index) }
        ensures more { AreMore pair index binary self.old.lists self.new.lists }
    {
        self.enlist(watched, pair.one, index, pair.other, binary)?;
        self.enlist(watched, pair.other, index, pair.one, binary)?;
        self.set_pair(index, pair);
        Ok(())
    }

    /// The first literal of the pair watches the clause of an index in place of the one that stood beside the second;
    /// at want of memory nothing has changed. The cost is that of two writes, as an average over many calls.
    pub fn replace(&mut self, index: u32, pair: Pair) -> Result<(), NoMemory>
        requires place { index < length self.old.pairs }
        requires small { index < 2 ^ 31 }
        requires one { code_of pair.one < length self.old.lists }
        ensures pairs { OnOk result (self.new.pairs ≡ set self.old.pairs index (Some pair)) }
        ensures pushed { OnOk result (HasPushed pair index self.old.lists self.new.lists) }
        ensures err { OnErr result (self.new ≡ self.old) }
    {
        self.push(pair.one, Entry::new(index, pair.other, false))?;
        self.pairs[index as usize] = Some(pair);
        Ok(())
    }

    /// The entry at a place of the literal's list is gone from there. The cost is one write.
    pub fn remove(&mut self, lit: PackedLit, place: usize)
        requires fits { code_of lit < length self.old.lists }
        requires place { place < length (list_of self.old.lists lit) }
        ensures pairs { self.new.pairs ≡ self.old.pairs }
        ensures room { length self.new.lists ≡ length self.old.lists }
        ensures without { IsWithout place (list_of self.old.lists lit) (list_of self.new.lists lit) }
        ensures others { OthersStay lit self.old.lists self.new.lists }
    {
        self.lists[lit.code()].remove(place);
    }
}
