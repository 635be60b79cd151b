//! The check of an outer text.
ghost use Rattle.std.specs.Prelude.{◌≡◌, ◌↔◌, ◌+◌, ◌<◌, ◌≤◌, ◌^◌, ◌⊎◌, false, codes, length, IfOk, IsTrue};
ghost use Rattle.heesch_cert.specs.Limits.{AreLimits};
ghost use Rattle.heesch_check.specs.Catalogues.{AreAll};
ghost use Rattle.heesch_grid.specs.Names.{geometry_of};
ghost use Rattle.heesch_reader.specs.Faults.{begins};
ghost use Rattle.heesch_reader.specs.Input.{newlines};
ghost use Rattle.heesch_text.specs.Catalogue.{end_text};
ghost use Rattle.heesch_outer_check.specs.Answers.{IsOutersChecked, Tells};
ghost use Rattle.heesch_outer_check.specs.Rounds.{AreListed, CanBeListed, IsAnswerBehind, JudgesRound, most_of};

use crate::blocks::{begins_shape, from_place, next_round, up_to_place};
use crate::rounds::{answers_of, leading};
use heesch_cert::{Header, Subject};
use heesch_check::{Checked, GIVEN_MAX};
use heesch_grid::Grid;
use heesch_io::NoMemory;
use heesch_kite::on_grid;
use heesch_listing::all_shapes;
use heesch_pool::{Crew, Gate};
use heesch_reader::INPUT_MAX;
use heesch_shape::Shape;
use heesch_text::write_end;
use memchr::memchr_iter;
use std::alloc::Global;
use std::thread::Threads;

/// How many blocks a round has by one worker.
const FIRST: u32 = 64;

/// How many blocks a round has by several workers.
const ROUND: u32 = 256;

/// Whether the input is a valid outer text of the header's subject on its grid under its limits, else its first
/// invalid part: `InvalidEntry` with the number of the first shape whose block isn't the text of a good record, or
/// `InvalidEnd` where something else than the last line stands behind good records. `TooLong` comes exactly where the
/// input has more than 2^40 bytes. `InvalidHeader` never comes.
///
/// Condition: the limits lie in their ranges, and a size has 1 to 32 cells. Whether the header is brief is no matter.
///
/// Blocks are judged by rounds of 256, or of 64 by one worker, and the check ends with the round that decides the
/// answer. A ticket of the pool is one block, and the gate is told its number, from 0. Beside the input it holds the
/// free list of a size and the records of one round. Errors: `NoMemory` alone.
pub fn check_outers<T: Threads + Sync, H: Gate + Sync>(
    crew: &Crew<'_, T, H>,
    header: &Header,
    input: &[u8],
) -> Result<Checked, NoMemory>
    requires limits { AreLimits header.now.limits }
    requires subject { CanBeListed header.now.subject }
    ensures { IfOk result (IsOutersChecked header.now input.now) }
{
    if input.len() as u64 > INPUT_MAX {
        let line = newlines(up_to_place(input, INPUT_MAX as usize)) + 1;
        return Ok(Checked::TooLong { line });
    }
    let header = *header;
    on_grid!(header.grid, check_on::<_, T, H>(crew, header, input))
}

/// The number of newlines.
fn newlines(bytes: &[u8]) -> u64
    ensures { result ≡ newlines bytes.now }
{
    Iterator::count(memchr_iter(b'\n', bytes)) as u64
}

/// The same on the header's grid, of an input that isn't too long.
#[tactic(auto, using(crate::proofs::AnswerBehind::checked))]
fn check_on<G: Grid + Send + Sync, T: Threads + Sync, H: Gate + Sync>(
    crew: &Crew<'_, T, H>,
    header: Header,
    input: &[u8],
) -> Result<Checked, NoMemory>
    requires grid { geometry_of header.grid ≡ G.geometry }
    requires limits { AreLimits header.limits }
    requires subject { CanBeListed header.subject }
    requires short { length input.now ≤ 2 ^ 40 }
    ensures { IfOk result (IsOutersChecked header input.now) }
{
    let shapes = listed::<G, T, H>(crew, header.subject)?;
    check_listed(crew, &header, &shapes, input)
}

/// The free list of a size; of given shapes, nothing.
fn listed<G: Grid + Send + Sync, T: Threads + Sync, H: Gate + Sync>(
    crew: &Crew<'_, T, H>,
    subject: Subject,
) -> Result<Vec<Shape<G>>, NoMemory>
    requires { CanBeListed subject }
    ensures { IfOk result (λ shapes. AreListed G.geometry subject shapes.items) }
{
    match subject {
        Subject::Given => Ok(Vec::new(crew.alloc)),
        Subject::Size { n } => all_shapes::<G, T, H>(crew, n),
    }
}

/// How many records there may be at most.
fn most_records<G: Grid>(subject: Subject, shapes: &[Shape<G>]) -> u32
    requires { AreListed G.geometry subject shapes.now }
    ensures { result ≡ most_of subject shapes.now }
{
    match subject {
        Subject::Given => GIVEN_MAX,
        Subject::Size { .. } => shapes.len() as u32,
    }
}

/// Whether so many records are all that are asked for.
fn are_all<G: Grid>(header: &Header, shapes: &[Shape<G>], count: u32) -> bool
    requires grid { geometry_of header.now.grid ≡ G.geometry }
    requires shapes { AreListed G.geometry header.now.subject shapes.now }
    ensures { IsTrue result ↔ AreAll header.now header.now.subject count }
{
    match header.subject {
        Subject::Given => true,
        Subject::Size { n: _ } => shapes.len() == count as usize,
    }
}

/// Whether the bytes are the last line, behind so many records.
fn is_end_text(alloc: Global, bytes: &[u8], count: u32) -> Result<bool, NoMemory>
    ensures { IfOk result (λ yes. IsTrue yes ↔ (bytes.now ≡ end_text count)) }
{
    let mut text = Vec::new(alloc);
    write_end(count, &mut text)?;
    Ok(bytes == text.as_slice())
}

/// The answer of what stands behind so many good records, where no further one may stand or none begins.
fn answer_behind<G: Grid>(
    alloc: Global,
    header: &Header,
    shapes: &[Shape<G>],
    count: u32,
    rest: &[u8],
) -> Result<Checked, NoMemory>
    requires grid { geometry_of header.now.grid ≡ G.geometry }
    requires shapes { AreListed G.geometry header.now.subject shapes.now }
    requires stops { (most_of header.now.subject shapes.now ≤ count) ⊎ (begins rest.now (codes "shape ") ≡ false) }
    ensures { IfOk result (IsAnswerBehind header.now count rest.now) }
{
    if begins_shape(rest) {
        let number = u64::from(count) + 1;
        return Ok(Checked::InvalidEntry { number });
    }
    let ended = is_end_text(alloc, rest, count)?;
    if ended && are_all(header, shapes, count) {
        return Ok(Checked::Valid { count });
    }
    Ok(Checked::InvalidEnd)
}

/// What a round of blocks is, behind records.
pub(crate) enum Judged {
    /// Good records, so many in all with those before them; and how many bytes the blocks have.
    Good { after: u32, length: usize },
    /// The first that isn't good stands behind so many in all.
    Bad { after: u32 },
}

/// Judges the next blocks of the bytes behind so many records, up to that of the number `until`.
fn judge_round<G: Grid + Send + Sync, T: Threads + Sync, H: Gate + Sync>(
    crew: &Crew<'_, T, H>,
    header: &Header,
    shapes: &[Shape<G>],
    before: u32,
    until: u32,
    bytes: &[u8],
) -> Result<Judged, NoMemory>
    requires grid { geometry_of header.now.grid ≡ G.geometry }
    requires limits { AreLimits header.now.limits }
    requires shapes { AreListed G.geometry header.now.subject shapes.now }
    requires span { before ≤ until }
    ensures { IfOk result (JudgesRound header.now before until bytes.now) }
{
    let round = next_round(crew.alloc, bytes, until - before)?;
    let answers = answers_of(crew, header, shapes, before, round.blocks.as_slice())?;
    let good = leading(&answers);
    let after = before + good as u32;
    if good < answers.len() {
        return Ok(Judged::Bad { after });
    }
    Ok(Judged::Good {
        after,
        length: round.length,
    })
}

/// How many blocks a round has.
fn round_size(workers: u32) -> u32
    ensures { 0 < result }
{
    if workers > 1 { ROUND } else { FIRST }
}

/// The same where the shapes of a size are listed.
fn check_listed<G: Grid + Send + Sync, T: Threads + Sync, H: Gate + Sync>(
    crew: &Crew<'_, T, H>,
    header: &Header,
    shapes: &[Shape<G>],
    input: &[u8],
) -> Result<Checked, NoMemory>
    requires grid { geometry_of header.now.grid ≡ G.geometry }
    requires limits { AreLimits header.now.limits }
    requires shapes { AreListed G.geometry header.now.subject shapes.now }
    ensures { IfOk result (Tells header.now input.now) }
{
    let most = most_records(header.subject, shapes);
    let mut count = 0;
    let mut at = 0;
    'rounds: while count < most {
        let until = count + round_size(crew.workers).min(most - count);
        let rest = from_place(input, at);
        let judged = judge_round(crew, header, shapes, count, until, rest)?;
        match judged {
            Judged::Bad { after } => {
                let number = u64::from(after) + 1;
                return Ok(Checked::InvalidEntry { number });
            }
            Judged::Good { after, length } => {
                at += length;
                count = after;
                if count < until {
                    return answer_behind(crew.alloc, header, shapes, count, from_place(input, at));
                }
            }
        }
    }
    answer_behind(crew.alloc, header, shapes, count, from_place(input, at))
}
