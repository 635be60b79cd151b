//! The entries of a round, audited at once, each in portions.
ghost use Rattle.std.specs.Prelude.{◌≡◌, ◌↔◌, ◌+◌, ◌*◌, ◌<◌, ◌≤◌, ℕ, Bool, IfOk, IsTrue, Some, length, not};
ghost use Rattle.std.specs.Prelude.{slice_get, vec_len};
ghost use Rattle.std.specs.List.{AllByRecursion, position_or_len};
ghost use Rattle.heesch_cert.specs.Limits.{AreLimits};
ghost use Rattle.heesch_check.specs.Judging.{AreAudits, AreTrueOf, IsFit, levels_sought, portion_at};

use heesch_audit::{most_portions, portion_holds};
use heesch_cert::{Limits, Verdict};
use heesch_grid::Grid;
use heesch_io::NoMemory;
use heesch_pool::{Answer, Crew, Gate, Job};
use heesch_reader::Item;
use std::alloc::Global;
use std::marker::PhantomData;
use std::thread::Threads;

/// The most portions of an entry: as many as there may be workers.
const PORTIONS_MAX: usize = 64;

/// Up to which level of coronas a verdict was sought. The audit of an entry takes the longer the more it is.
fn levels_sought(verdict: Verdict) -> u32
    ensures { result ≡ levels_sought verdict }
{
    match verdict {
        Verdict::Tiles { .. } => 0,
        _ => verdict.last_number(),
    }
}

/// The portion of an entry that comes at this turn. The first portion, which has the proofs of the levels, comes the
/// sooner the more levels were sought, so that no long audit begins last.
fn portion_at(verdict: Verdict, turn: u32, portions: u32) -> u32
    requires { 0 < portions }
    ensures value { result ≡ portion_at verdict turn portions }
    ensures below { result < portions }
{
    let place = u64::from(turn) + u64::from(levels_sought(verdict)) + 1;
    (place % u64::from(portions)) as u32
}

/// The job whose item is whether a portion of an entry holds. Threads may share the handle that it has.
#[derive(Drop)]
struct PortionOf<'a, G: Grid, R> {
    rt: R,
    alloc: Global,
    items: &'a [Item],
    /// How many of the items are audited, from the first on.
    count: u32,
    /// The number of the portion of the first item at the first turn.
    first: u32,
    /// How many portions each of the items has, and so how many turns there are.
    portions: u32,
    limits: Limits,
    grid: PhantomData<G>,
}

impl<'a, G: Grid, R: Threads + Sync + Copy> Answer<bool> for PortionOf<'a, G, R> {
    ghost use Rattle.std.specs.Prelude.{IfOk, ◌-◌, ◌&&◌, nat_lt};
    ghost use Rattle.std.specs.List.{AllByRecursion};
    ghost use Rattle.std.specs.Thread.{IsSync};
    ghost use Rattle.heesch_cert.specs.Limits.{AreLimits};
    ghost use Rattle.heesch_check.specs.Judging.{IsFit, IsPortionOf};

    ghost accepts = { λ s _. nat_lt 0 s.count && nat_lt 0 s.portions };

    ghost gives = { λ s number holds. IfOk holds
        (IsPortionOf G.geometry s.limits s.items.now s.count s.portions (number - s.first)) };

    ghost ready = { λ s. IsSync R.row × AreLimits s.limits × AllByRecursion IsFit s.items.now };

    fn answer(&self, number: u32) -> Result<bool, NoMemory> {
        let behind = number.saturating_sub(self.first);
        match self.items.get((behind % self.count) as usize) {
            Some(Item::Entry { line: _, entry }) => portion_holds::<G, R>(
                &self.rt,
                self.alloc,
                entry,
                self.limits,
                portion_at(entry.verdict, behind / self.count, self.portions),
                self.portions,
            ),
            _ => Ok(false),
        }
    }
}

/// The most portions into which an item is worth being split: one for each triple, and a turn for each number of levels
/// up to that which was sought.
fn most_portions_of(item: &Item) -> usize {
    match item {
        Item::Entry { line: _, entry } => {
            most_portions(entry).max(levels_sought(entry.verdict) as usize + 1)
        }
        _ => 1,
    }
}

/// Into how many portions each of the first `count` items is split: as many as the most of one of them, up to
/// `PORTIONS_MAX`, if no more than `left` numbers are wanted for all of them.
fn portions_of_each(items: &[Item], count: u32, left: u32) -> u32
    requires some { 0 < count }
    requires fit { count ≤ left }
    ensures some { 0 < result }
    ensures numbered { count * result ≤ left }
{
    let most = items
        .iter()
        .take(count as usize)
        .map(most_portions_of)
        .max();
    let most = most.unwrap_or(1).clamp(1, PORTIONS_MAX) as u32;
    most.min(left / count)
}

/// Whether all portions of each of so many entries hold, in order, where the answers are one of each entry, and then
/// again one of each.
fn joined(alloc: Global, answers: &[bool], count: usize) -> Result<Vec<bool>, NoMemory>
    requires { 0 < count }
    ensures len { IfOk result (λ audits. vec_len audits ≡ count) }
    ensures each { IfOk result
        (λ audits. (i : ℕ) (holds : Bool) → slice_get audits.items i ≡ Some holds
        → (IsTrue holds ↔ AreTrueOf answers.now count i)) }
{
    let mut audits = vec![in alloc; true; count]?;
    for (number, holds) in answers.iter().enumerate() {
        if !*holds {
            audits[number % count] = false;
        }
    }
    Ok(audits)
}

/// Whether each entry of the numbers from `from` to before `until` is true, in order, by as many workers as told. The
/// first of the items has the number `from`.
///
/// The caller's thread is one of the workers, and does what is done `first` before its portions, at `NoMemory` too.
///
/// One ticket of the pool is one portion of an entry, and the gate is told its number. The portions are numbered from
/// `from` on, turn by turn: at each turn there is one of each entry, in the order of the entries.
pub(crate) fn audits<
    G: Grid + Send + Sync,
    R: Threads + Sync + Copy,
    H: Gate + Sync,
    A,
    F: FnMut() -> A,
>(
    crew: &Crew<'_, R, H>,
    items: &[Item],
    from: u32,
    until: u32,
    limits: Limits,
    first: &mut F,
) -> (Result<Vec<bool>, NoMemory>, A)
    requires span { from ≤ until }
    requires limits { AreLimits limits }
    requires fit { AllByRecursion IsFit items.now }
    requires first { F.pre first.old }
    ensures len { IfOk result.0 (λ audits. from + vec_len audits ≡ until) }
    ensures audits { IfOk result.0 (λ audits. AreAudits G.geometry limits items.now audits.items) }
    ensures first { F.step first.old result.1 first.new }
{
    let count = until - from;
    if count == 0 {
        return (Ok(Vec::new(crew.alloc)), first());
    }
    let portions = portions_of_each(items, count, u32::MAX - from);
    let end = from + count * portions;
    let job = Job::new(
        PortionOf {
            rt: *crew.rt,
            alloc: crew.alloc,
            items,
            count,
            first: from,
            portions,
            limits,
            grid: PhantomData::<G>,
        },
        end,
    );
    let (answers, done) = crew.run_span_behind(&job, from, end, first);
    match answers {
        Ok(answers) => (joined(crew.alloc, &answers, count as usize), done),
        Err(refused) => (Err(refused), done),
    }
}

/// How many of the audits from the first on say that an entry is true.
pub(crate) fn leading(audits: &[bool]) -> usize
    ensures first { result ≡ position_or_len not audits.now }
    ensures few { result ≤ length audits.now }
{
    for (index, holds) in audits.iter().enumerate() {
        if !*holds {
            return index;
        }
    }
    audits.len()
}
