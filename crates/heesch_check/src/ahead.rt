//! Rounds of items, each audited while those of the next are read.
ghost use Rattle.std.specs.Prelude.{◌≡◌, ◌+◌, ◌-◌, ◌<◌, ◌≤◌, [], Err, IfOk, IsTrue, length, take};
ghost use Rattle.heesch_cert.specs.Limits.{AreLimits};
ghost use Rattle.heesch_grid.specs.Names.{geometry_of};
ghost use Rattle.heesch_io.specs.Causes.{Rose};
ghost use Rattle.std.specs.List.{AllByRecursion};
ghost use Rattle.heesch_check.specs.declared.reading.Reading.TheVariants as readings;
ghost use Rattle.heesch_check.specs.Judging.{AreAuditsBehind, ArePlaced, HasShapes, IsFit};
ghost use Rattle.heesch_check.specs.Reading.{Gathers, IsRound, MayGather, StopsInTime};

use crate::judging::Judge;
use crate::reading::{Reading, gather};
use heesch_grid::Grid;
use heesch_io::{IoStop, NoMemory, Seq, Source};
use heesch_pool::{Crew, Gate};
use heesch_reader::{Item, Stream};
use std::thread::Threads;

/// How many items a round has by one worker, unless one piece has more.
pub(crate) const FIRST: usize = 64;

/// How many items a whole round has by several workers, unless one piece has more. As many are read ahead of the next.
const ROUND: usize = 128;

/// Items that were read behind those that were judged, and how far reading came with them.
#[derive(Drop)]
pub(crate) struct Pending {
    pub items: Seq<Item>,
    pub reading: Reading,
}

/// The items of a round and how far reading came with them, audits of the entries that stand first among them, and what
/// was read ahead of the next round.
#[derive(Drop)]
pub(crate) struct Round {
    pub items: Seq<Item>,
    pub reading: Reading,
    pub audits: Vec<bool>,
    pub ahead: Pending,
}

/// How many items are at hand at most, unless one piece has more: by several workers those of a round and those that
/// are read ahead of the next, by one worker those of a round alone.
pub(crate) fn most_at_hand(workers: u32) -> usize
    ensures some { 0 < result }
    ensures most { result ≤ 256 }
{
    if workers > 1 { 2 * ROUND } else { FIRST }
}

/// How many items are enough for a round, where so many may be at hand and so many are: a whole round, unless three
/// quarters of one are there.
fn enough_for_round(most: usize, at_hand: usize) -> usize
    requires { 0 < most }
    ensures some { 0 < result }
    ensures few { result ≤ most }
{
    let whole = ROUND.min(most);
    let least = whole - whole / 4;
    if at_hand < least { whole } else { least }
}

/// Whether others are gathered while these items are audited: there are several workers, more may follow, and these
/// are entries in their places, so many, and fewer than may be at hand.
fn goes_on_beside(front: &[Item], placed: u32, reading: Reading, most: usize, workers: u32) -> bool
    ensures more { IsTrue result → reading ≡ Reading.More }
    ensures placed { IsTrue result → placed ≡ length front.now }
    ensures few { IsTrue result → length front.now < most }
{
    workers > 1
        && matches!(reading, Reading::More)
        && placed as usize == front.len()
        && front.len() < most
}

/// Audits the items of a round, all of them. The caller's thread is one of the workers: it first frees those of the
/// round before and gathers those that follow.
fn audit_and_gather<G: Grid + Send + Sync, T: Threads + Sync, R: Source, H: Gate + Sync>(
    crew: &Crew<'_, T, H>,
    source: &mut R,
    stream: &mut Stream,
    judge: &Judge<G>,
    before: u32,
    until: u32,
    spent: &mut Seq<Item>,
    front: &[Item],
    left: usize,
) -> (Result<Vec<bool>, NoMemory>, Result<Pending, IoStop>)
    requires grid { geometry_of judge.now.header.grid ≡ G.geometry }
    requires limits { AreLimits judge.now.header.limits }
    requires fit { AllByRecursion IsFit front.now }
    requires order { (before ≤ until) × (until ≤ before + length front.now) }
    requires placed { ArePlaced judge.now.header before (take (until - before) front.now) }
    requires may { MayGather (R.left source.old) stream.old [] Reading.More }
    ensures audits { IfOk result.0 (λ audits. AreAuditsBehind judge.now.header before front.now audits.items) }
    ensures gathers { IfOk result.1
        (λ p. Gathers (R.left source.old)
        (R.left source.new) stream.old stream.new [] p.items left Reading.More p.reading) }
    ensures no_further { StopsInTime (R.left source.old) (R.left source.new) stream.old [] Reading.More left }
    ensures failed { result.1 ≡ Err IoStop.Failed → Rose (R.faults source.old) (R.faults source.new) }
    ensures later { R.faults source.old ≤ R.faults source.new }
{
    let mut gathered = || -> Result<Pending, IoStop>
        requires { MayGather (R.left source.now) stream.now [] readings.More }
        ensures gathers { IfOk result
            (λ p. Gathers (R.left source.entry.now)
            (R.left source.exit.now) stream.entry.now stream.exit.now [] p.items left readings.More p.reading) }
        ensures no_further { StopsInTime (R.left source.entry.now)
            (R.left source.exit.now) stream.entry.now [] readings.More left }
        ensures failed { result ≡ Err IoStop.Failed → Rose (R.faults source.entry.now) (R.faults source.exit.now) }
        ensures later { R.faults source.entry.now ≤ R.faults source.exit.now }
    {
        *spent = Seq::new(crew.alloc);
        let mut items = Seq::new(crew.alloc);
        let reading = gather(stream, source, &mut items, Reading::More, left)?;
        Ok(Pending { items, reading })
    };
    judge.audits_between(crew, before, until, front, &mut gathered)
}

/// Gathers the items of a round, behind those at hand, and audits the entries that stand first. By several workers
/// items of the next round are gathered beside the audits, as many as may be at hand.
///
/// The items of the round before are spent. They are freed before anything is read, so mostly beside the audits.
pub(crate) fn round_from<G: Grid + Send + Sync, T: Threads + Sync, R: Source, H: Gate + Sync>(
    crew: &Crew<'_, T, H>,
    source: &mut R,
    stream: &mut Stream,
    judge: &Judge<G>,
    spent: &mut Seq<Item>,
    at_hand: Pending,
    most: usize,
) -> Result<Round, IoStop>
    requires grid { geometry_of judge.now.header.grid ≡ G.geometry }
    requires shapes { HasShapes judge.now.header judge.now.header.subject judge.now.shapes }
    requires limits { AreLimits judge.now.header.limits }
    requires may { MayGather (R.left source.old) stream.old at_hand.items at_hand.reading }
    requires some { 0 < most }
    ensures gathers { IfOk result
        (λ r. IsRound (R.left source.old) (R.left source.new) stream.old stream.new at_hand r) }
    ensures audits { IfOk result (λ r. AreAuditsBehind judge.now.header judge.now.entries r.items r.audits.items) }
    ensures no_further { StopsInTime (R.left source.old)
        (R.left source.new) stream.old at_hand.items at_hand.reading most }
    ensures failed { result ≡ Err IoStop.Failed → Rose (R.faults source.old) (R.faults source.new) }
    ensures later { R.faults source.old ≤ R.faults source.new }
{
    let Pending { mut items, reading } = at_hand;
    let enough = enough_for_round(most, items.len());
    if items.len() < enough {
        *spent = Seq::new(crew.alloc);
    }
    let reading = gather(stream, source, &mut items, reading, enough)?;
    let front = items.as_slice();
    let before = judge.entries;
    let until = judge.placed(before, front);
    if !goes_on_beside(front, until - before, reading, most, crew.workers) {
        let mut freed = || *spent = Seq::new(crew.alloc);
        let (audited, ()) = judge.audits_between(crew, before, until, front, &mut freed);
        let audits = audited?;
        let ahead = Pending {
            items: Seq::new(crew.alloc),
            reading,
        };
        return Ok(Round {
            items,
            reading,
            audits,
            ahead,
        });
    }
    let left = most - front.len();
    let (audits, ahead) = audit_and_gather(
        crew, source, stream, judge, before, until, spent, front, left,
    );
    let audits = audits?;
    let ahead = ahead?;
    Ok(Round {
        items,
        reading,
        audits,
        ahead,
    })
}
