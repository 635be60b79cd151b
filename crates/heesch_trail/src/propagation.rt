//! Propagation: the lists of literals that became false are gone through.
ghost use Rattle.std.specs.Prelude.{◌≡◌, ◌+◌, ◌<◌, ◌≤◌, ◌^◌, [], ◌∷◌, length, Some, None, Contains, false, IfOk};
ghost use Rattle.std.specs.Prelude.{slice_index_or, ◌⊎◌};
ghost use Rattle.heesch_cnf.specs.Literals.{lit_value};
ghost use Rattle.heesch_cnf.specs.Clauses.{left_of};
ghost use Rattle.heesch_trail.specs.Fixpoint.{HasTrue};
ghost use Rattle.heesch_cnf.specs.Flat.{code_of};
ghost use Rattle.heesch_trail.specs.Watches.{AreWhole, IsSound, index_of, list_of, pair_of};
ghost use Rattle.heesch_trail.specs.Seen.{AreSeen, GoesOn, IsEnd, IsVisit, IsVisitBy, AreVisitedBy, AreRead, StaySeen};
ghost use Rattle.heesch_trail.specs.Readings.{IsOther};
ghost use Rattle.heesch_trail.specs.State.{IsTrail, Continues, IsPropagated, values_of};

use crate::Step;
use crate::assigned::Assigned;
use crate::entry::Entry;
use crate::pair::Pair;
use crate::scan::Reading;
use crate::watches::Watches;
use heesch_cnf::{Lit, PackedLit};
use heesch_io::NoMemory;

/// What a visit left of a clause: a true literal, literals that watch it and aren't false, or nothing but false ones,
/// by the clause's number.
#[derive(Debug, Clone, Copy)]
enum Visit {
    HasTrue,
    Watched,
    AllFalse(u32),
}

/// Makes the only literal that isn't false true, where it is open.
fn follow(assigned: &mut Assigned, index: u32, lit: PackedLit) -> Result<(), NoMemory>
    requires within { index < length assigned.old.clauses }
    requires alone { left_of (values_of assigned.old.steps) (slice_index_or assigned.old.clauses index []) ≡ lit ∷ [] }
    ensures goes_on { Continues assigned.old assigned.new }
    ensures made { IfOk result
        (λ _. HasTrue (values_of assigned.new.steps) (slice_index_or assigned.new.clauses index [])) }
    ensures valid { IsTrail assigned.new }
{
    let _ = assigned.count();
    if assigned.value_of(lit).is_some() {
        return Ok(());
    }
    let level = assigned.level();
    assigned.assign(Step {
        lit: lit.lit(),
        level,
        reason: Some(index + 1),
    })?;
    Ok(())
}

/// Makes the literal of a clause whose others are false true, where it is open; where it is false too, the clause is a
/// conflict.
fn settle(assigned: &mut Assigned, index: u32, lit: PackedLit) -> Result<Visit, NoMemory>
    requires within { index < length assigned.old.clauses }
    requires has { Contains (slice_index_or assigned.old.clauses index []) lit }
    requires others { IsOther (values_of assigned.old.steps) (slice_index_or assigned.old.clauses index []) lit None }
    ensures goes_on { Continues assigned.old assigned.new }
    ensures found { IfOk result (IsEnd assigned.new index) }
    ensures valid { IsTrail assigned.new }
{
    let _ = assigned.count();
    if assigned.is_false(lit) {
        return Ok(Visit::AllFalse(index + 1));
    }
    follow(assigned, index, lit)?;
    Ok(Visit::HasTrue)
}

/// Reads the clause of an index, which this pair watched: watches it by two literals that aren't false, or makes the
/// assignment that follows from it. The cost is at most the clause's length.
fn read_watched(
    assigned: &mut Assigned,
    watches: &mut Watches,
    index: u32,
    watched: &Option<Pair>,
) -> Result<Visit, NoMemory>
    requires watched { watched.now ≡ pair_of watches.old.pairs index }
    requires within { index < length assigned.old.clauses }
    requires whole { AreWhole assigned.old.vars assigned.old.clauses watches.old }
    ensures goes_on { GoesOn assigned.old watches.old assigned.new watches.new }
    ensures found { IfOk result (IsVisit assigned.new watches.new index) }
{
    match assigned.read(index as usize) {
        Reading::Nothing => Ok(Visit::AllFalse(index + 1)),
        Reading::One(lit) => {
            follow(assigned, index, lit)?;
            Ok(Visit::HasTrue)
        }
        Reading::Two(pair, binary) => {
            watches.watch(index, watched, pair, binary)?;
            Ok(Visit::Watched)
        }
    }
}

/// Visits the clause of an index that may be watched by a false literal. It is read only where the literal watches it
/// and the one beside isn't true: then another literal that isn't false watches it, or it is settled.
fn visit_watched(
    assigned: &mut Assigned,
    watches: &mut Watches,
    lit: PackedLit,
    index: u32,
) -> Result<Visit, NoMemory>
    requires whole { AreWhole assigned.old.vars assigned.old.clauses watches.old }
    requires turned { lit_value (values_of assigned.old.steps) lit ≡ Some false }
    ensures goes_on { GoesOn assigned.old watches.old assigned.new watches.new }
    ensures found { IfOk result (IsVisitBy assigned.new watches.new lit index) }
    ensures stays { list_of watches.new.lists lit ≡ list_of watches.old.lists lit }
{
    let _ = assigned.vars();
    let Some(pair) = watches.pair(index as usize) else {
        return Ok(Visit::Watched);
    };
    let Some(beside) = pair.beside(lit) else {
        return Ok(Visit::Watched);
    };
    if assigned.is_true(beside) {
        return Ok(Visit::HasTrue);
    }
    match assigned.other(index as usize, beside) {
        None => settle(assigned, index, beside),
        Some(one) => {
            watches.replace(index, Pair { one, other: beside })?;
            Ok(Visit::Watched)
        }
    }
}

/// Visits the clause of an entry of a false literal's list. Where its blocker is true, nothing else is read, and where
/// it has just two literals, the entry is the clause.
fn visit_by(
    assigned: &mut Assigned,
    watches: &mut Watches,
    lit: PackedLit,
    entry: Entry,
) -> Result<Visit, NoMemory>
    requires whole { AreWhole assigned.old.vars assigned.old.clauses watches.old }
    requires sound { IsSound assigned.old.clauses lit entry }
    requires turned { lit_value (values_of assigned.old.steps) lit ≡ Some false }
    ensures goes_on { GoesOn assigned.old watches.old assigned.new watches.new }
    ensures found { IfOk result (IsVisitBy assigned.new watches.new lit (index_of entry)) }
    ensures stays { list_of watches.new.lists lit ≡ list_of watches.old.lists lit }
{
    let _ = assigned.vars();
    if assigned.is_true(entry.blocker) {
        return Ok(Visit::HasTrue);
    }
    watches.note_visit();
    if entry.is_binary() {
        settle(assigned, entry.index(), entry.blocker)
    } else {
        visit_watched(assigned, watches, lit, entry.index())
    }
}

/// Visits the clauses in the list of a false literal, until all literals of one of them are false. The entry of a
/// clause that it watches no more is dropped.
fn visit_list(
    assigned: &mut Assigned,
    watches: &mut Watches,
    lit: PackedLit,
) -> Result<Option<u32>, NoMemory>
    requires fits { code_of lit < length watches.old.lists }
    requires whole { AreWhole assigned.old.vars assigned.old.clauses watches.old }
    requires turned { lit_value (values_of assigned.old.steps) lit ≡ Some false }
    ensures goes_on { GoesOn assigned.old watches.old assigned.new watches.new }
    ensures found { IfOk result (AreVisitedBy assigned.new watches.new lit) }
{
    let _ = assigned.vars();
    let mut place = 0;
    while place < watches.list(lit).len() {
        let entry = watches.list(lit)[place];
        match visit_by(assigned, watches, lit, entry)? {
            Visit::HasTrue => place += 1,
            Visit::Watched => watches.remove(lit, place),
            Visit::AllFalse(number) => return Ok(Some(number)),
        }
    }
    Ok(None)
}

/// Visits the clause of an index. It is read only where no two literals that aren't false watch it.
fn visit_first(
    assigned: &mut Assigned,
    watches: &mut Watches,
    index: u32,
) -> Result<Visit, NoMemory>
    requires within { index < length assigned.old.clauses }
    requires whole { AreWhole assigned.old.vars assigned.old.clauses watches.old }
    ensures goes_on { GoesOn assigned.old watches.old assigned.new watches.new }
    ensures found { IfOk result (IsVisit assigned.new watches.new index) }
{
    let _ = assigned.vars();
    let watched = watches.pair(index as usize);
    watches.note_visit();
    if let Some(pair) = &watched
        && !assigned.is_false(pair.one)
        && !assigned.is_false(pair.other)
    {
        return Ok(Visit::Watched);
    }
    read_watched(assigned, watches, index, &watched)
}

/// Visits the clauses from `fresh` on that aren't watched by literals that aren't false; `fresh` goes on past each
/// that was visited, until all literals of one are false. The cost is the number of these clauses, and of the literals
/// of those visited.
pub fn read_fresh(
    assigned: &mut Assigned,
    watches: &mut Watches,
    fresh: &mut usize,
) -> Result<Option<u32>, NoMemory>
    requires few { fresh.old ≤ length assigned.old.clauses }
    requires whole { AreWhole assigned.old.vars assigned.old.clauses watches.old }
    ensures goes_on { GoesOn assigned.old watches.old assigned.new watches.new }
    ensures read { fresh.new ≤ length assigned.new.clauses }
    ensures seen { StaySeen assigned.old watches.old fresh.old assigned.new watches.new fresh.new }
    ensures found { IfOk result (AreRead assigned.new fresh.new) }
{
    let _ = assigned.vars();
    while *fresh < assigned.count() {
        if let Visit::AllFalse(number) = visit_first(assigned, watches, *fresh as u32)? {
            return Ok(Some(number));
        }
        *fresh += 1;
    }
    Ok(None)
}

/// Visits the lists of the opposites of the assignments from `head` on, until all literals of a clause are false;
/// `head` goes on past each assignment whose list was visited whole. The cost is the number of literals of the clauses
/// visited.
pub fn drain(
    assigned: &mut Assigned,
    watches: &mut Watches,
    head: &mut usize,
) -> Result<Option<u32>, NoMemory>
    requires whole { AreWhole assigned.old.vars assigned.old.clauses watches.old }
    requires visited { head.old ≤ length assigned.old.steps }
    requires seen { AreSeen head.old assigned.old watches.old (length assigned.old.clauses) }
    ensures goes_on { GoesOn assigned.old watches.old assigned.new watches.new }
    ensures visited { head.new ≤ length assigned.new.steps }
    ensures seen { AreSeen head.new assigned.new watches.new (length assigned.new.clauses) }
    ensures found { IfOk result (IsPropagated assigned.new) }
{
    let _ = assigned.vars();
    while *head < assigned.made().len() {
        let lit = assigned.turned(*head);
        let found = visit_list(assigned, watches, lit)?;
        if found.is_some() {
            return Ok(found);
        }
        *head += 1;
    }
    Ok(None)
}

/// How many clauses, from the first on, are known to be guarded: those that were read, where no assignment waits.
pub fn guarded(assigned: &Assigned, head: usize, fresh: usize) -> usize
    ensures few { result ≤ fresh }
    ensures nothing_waits { 0 < result → length assigned.now.steps ≤ head }
{
    if head < assigned.made().len() {
        0
    } else {
        fresh
    }
}
