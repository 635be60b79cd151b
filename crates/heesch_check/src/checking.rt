//! The check of a catalogue that comes from a source.
ghost use Rattle.std.specs.Prelude.{◌≡◌, ◌<◌, ◌≤◌, ℕ, List, Err, IfOk, IfSome, IfNone, drop, false, length};
ghost use Rattle.heesch_cert.specs.declared.header.Header.{Header as CatalogueHeader};
ghost use Rattle.heesch_cert.specs.Limits.{AreLimits};
ghost use Rattle.heesch_grid.specs.Names.{geometry_of};
ghost use Rattle.heesch_io.specs.Causes.{Rose};
ghost use Rattle.heesch_cert.specs.Sizes.{IsSubject};
ghost use Rattle.heesch_io.specs.Input.{IsAllOf, ReadsNoFurther};
ghost use Rattle.heesch_check.specs.Answers.{IsChecked};
ghost use Rattle.heesch_check.specs.Judging.{HasShapes};
ghost use Rattle.heesch_check.specs.Reading.{AnswersInTime, FaultsFirst, IsUnderway, BeginWith, IsOpened};
ghost use Rattle.heesch_check.specs.Reading.{DecideNothing};

use crate::ahead::{FIRST, Pending, most_at_hand, round_from};
use crate::answers::Checked;
use crate::judging::{Judge, fault_behind};
use crate::reading::{Reading, gather, read_first};
use heesch_cert::{Header, Subject};
use heesch_grid::Grid;
use heesch_io::{IoStop, NoMemory, Seq, Source};
use heesch_kite::on_grid;
use heesch_listing::all_shapes;
use heesch_pool::{Crew, Gate};
use heesch_reader::{Item, Stream};
use std::thread::Threads;

/// Whether what the source has left is a valid catalogue, else its first invalid part.
///
/// `TooLong` comes where the first 2^40 bytes decide no invalid part and more follow.
///
/// Entries are judged by rounds: items are gathered from as many pieces as that takes until there are enough, the input
/// is at fault or ends, or as much is read as may be; the entries that are in their places are audited by the workers,
/// each once, and the answer is that of the first item at fault. By one worker a round has 64 items. By more it has
/// 128. The caller's thread is one of the workers: it frees the items of the round before and gathers the next while
/// the others audit, and then audits too. Where at least 96 were gathered, these are the next round.
///
/// The gate is told of each entry's number, from 0. Where one of the entries that are audited at once has the proofs
/// of several triples, or coronas were sought for it, each is audited in portions: as many as the most triples of one,
/// or one more than the most levels, up to 64. Then the gate is told of the portions' numbers, from that of the first
/// entry on: those of one portion of each entry, then of another of each, and so on.
///
/// Reading stops at the latest 256 items behind those that are judged, and no more is held than these and those of one
/// piece. The free list of a size is made once, by the workers, before the first round, but where the input is at
/// fault with nothing whole behind its header, or with a brief entry.
///
/// Errors: `Failed` only where the source's count of faults rose; `NoMemory` where memory was refused. At an error too
/// the source has given the bytes of some pieces, front first, and no piece beyond the items at hand.
pub fn check<T: Threads + Sync, R: Source, H: Gate + Sync>(
    crew: &Crew<'_, T, H>,
    source: &mut R,
) -> Result<Checked, IoStop>
    ensures ok { IfOk result (λ c. (input : List ℕ) × IsAllOf (R.left source.old) input × IsChecked input c) }
    ensures no_further { ReadsNoFurther DecideNothing (R.left source.old) (R.left source.new) }
    ensures failed { result ≡ Err IoStop.Failed → Rose (R.faults source.old) (R.faults source.new) }
    ensures later { R.faults source.old ≤ R.faults source.new }
{
    let mut stream = Stream::new(crew.alloc);
    let mut items = Seq::new(crew.alloc);
    let reading = read_first(&mut stream, source, &mut items)?;
    let Some(header) = header_of(items.as_slice()) else {
        return Ok(Checked::InvalidHeader);
    };
    if header.brief {
        return Ok(Checked::InvalidHeader);
    }
    let reading = gather(&mut stream, source, &mut items, reading, FIRST + 1)?;
    if let Some(answer) = first_fault(items.as_slice(), reading) {
        return Ok(answer);
    }
    let opening = Opening {
        stream,
        header,
        items,
        reading,
    };
    check_named(crew, source, opening)
}

/// The header that is the first of the items, if it is one.
fn header_of(items: &[Item]) -> Option<Header>
    ensures some { IfSome result (λ header. BeginWith header items.now) }
    ensures none { IfNone result ((header : CatalogueHeader) → ¬ BeginWith header items.now) }
{
    if items.is_empty() {
        return None;
    }
    match &items[0] {
        Item::Header { header } => Some(*header),
        _ => None,
    }
}

/// The answer where what stands first behind the header is at fault whatever the free list: a brief entry, or a fault
/// before anything whole.
fn first_fault(items: &[Item], reading: Reading) -> Option<Checked>
    ensures { IfSome result (FaultsFirst items.now reading) }
{
    match (items.get(1), reading) {
        (Some(Item::Brief { .. }), _) => Some(Checked::InvalidEntry { number: 1 }),
        (None, Reading::Fault { part }) => Some(fault_behind(0, part)),
        _ => None,
    }
}

/// What was read up to a header: the items, the first of which it is, and how far reading came.
#[derive(Drop)]
struct Opening {
    stream: Stream,
    header: Header,
    items: Seq<Item>,
    reading: Reading,
}

/// The answer of a catalogue whose header was read.
fn check_named<T: Threads + Sync, R: Source, H: Gate + Sync>(
    crew: &Crew<'_, T, H>,
    source: &mut R,
    opening: Opening,
) -> Result<Checked, IoStop>
    requires opened { IsOpened (R.left source.old) opening.header opening.items opening.stream opening.reading }
    ensures in_time { AnswersInTime (R.left source.old)
        (R.left source.new) opening.items opening.stream opening.reading result }
    ensures failed { result ≡ Err IoStop.Failed → Rose (R.faults source.old) (R.faults source.new) }
    ensures later { R.faults source.old ≤ R.faults source.new }
{
    on_grid!(
        opening.header.grid,
        check_under::<_, T, R, H>(crew, source, opening)
    )
}

/// The same on the header's grid.
fn check_under<G: Grid + Send + Sync, T: Threads + Sync, R: Source, H: Gate + Sync>(
    crew: &Crew<'_, T, H>,
    source: &mut R,
    opening: Opening,
) -> Result<Checked, IoStop>
    requires grid { geometry_of opening.header.grid ≡ G.geometry }
    requires opened { IsOpened (R.left source.old) opening.header opening.items opening.stream opening.reading }
    ensures in_time { AnswersInTime (R.left source.old)
        (R.left source.new) opening.items opening.stream opening.reading result }
    ensures failed { result ≡ Err IoStop.Failed → Rose (R.faults source.old) (R.faults source.new) }
    ensures later { R.faults source.old ≤ R.faults source.new }
{
    let Opening {
        mut stream,
        header,
        items,
        reading,
    } = opening;
    let judge = judge_of::<G, T, H>(crew, header)?;
    check_behind(crew, source, &mut stream, judge, items, reading)
}

/// A judge of what stands behind the header, with the free list where it is of a size.
fn judge_of<G: Grid + Send + Sync, T: Threads + Sync, H: Gate + Sync>(
    crew: &Crew<'_, T, H>,
    header: Header,
) -> Result<Judge<G>, NoMemory>
    requires grid { geometry_of header.grid ≡ G.geometry }
    requires subject { IsSubject header.limits.version header.grid header.subject }
    ensures header { IfOk result (λ judge. judge.header ≡ header) }
    ensures shapes { IfOk result (λ judge. HasShapes header header.subject judge.shapes) }
    ensures none { IfOk result (λ judge. judge.entries ≡ 0) }
{
    let shapes = match header.subject {
        Subject::Given => None,
        Subject::Size { n } => Some(Seq::from_vec(all_shapes::<G, T, H>(crew, n)?)),
    };
    Ok(Judge {
        header,
        shapes,
        entries: 0,
    })
}

/// The items behind the first.
fn behind_header(items: Seq<Item>) -> Seq<Item>
    requires { 0 < length items }
    ensures { result ≡ drop 1 items }
{
    let mut all = items.into_vec();
    let _ = all.remove(0);
    Seq::from_vec(all)
}

/// The answer of a catalogue whose header was read, with the items so far, the first of which it is, and how far
/// reading came.
fn check_behind<G: Grid + Send + Sync, T: Threads + Sync, R: Source, H: Gate + Sync>(
    crew: &Crew<'_, T, H>,
    source: &mut R,
    stream: &mut Stream,
    mut judge: Judge<G>,
    items: Seq<Item>,
    reading: Reading,
) -> Result<Checked, IoStop>
    requires grid { geometry_of judge.header.grid ≡ G.geometry }
    requires shapes { HasShapes judge.header judge.header.subject judge.shapes }
    requires limits { AreLimits judge.header.limits }
    requires full { judge.header.brief ≡ false }
    requires none { judge.entries ≡ 0 }
    requires begins { BeginWith judge.header items }
    requires underway { IsUnderway (R.left source.old) items stream.old reading }
    ensures in_time { AnswersInTime (R.left source.old) (R.left source.new) items stream.old reading result }
    ensures failed { result ≡ Err IoStop.Failed → Rose (R.faults source.old) (R.faults source.new) }
    ensures later { R.faults source.old ≤ R.faults source.new }
{
    let most = most_at_hand(crew.workers);
    let mut at_hand = Pending {
        items: behind_header(items),
        reading,
    };
    let mut spent = Seq::new(crew.alloc);
    'rounds: loop {
        let round = round_from(crew, source, stream, &judge, &mut spent, at_hand, most)?;
        let answer = judge.judge_audited_round(
            crew.rt,
            crew.alloc,
            round.items.as_slice(),
            &round.audits,
            round.reading,
        )?;
        if let Some(answer) = answer {
            return Ok(answer);
        }
        spent = round.items;
        at_hand = round.ahead;
    }
}
