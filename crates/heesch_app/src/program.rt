//! What the words of the command line ask for, done over a source and a sink.
ghost use Rattle.std.specs.Prelude.{◌≡◌, ◌≢◌, ◌≤◌, ◌<◌, ◌^◌, ◌⊎◌, ℕ, List, length, map, string_bytes, false, Some};
ghost use Rattle.std.specs.Prelude.{IfOk, Err};
ghost use Rattle.heesch_cert.specs.declared.header.Subject.{Subject};
ghost use Rattle.heesch_cert.specs.declared.header.Subject.TheVariants.{Size};
ghost use Rattle.heesch_cert.specs.declared.limits.Limits.{Limits};
ghost use Rattle.heesch_check.specs.Answers.{IsValid};
ghost use Rattle.heesch_cnf.specs.declared.version.Version.{Version};
ghost use Rattle.heesch_grid.specs.declared.GridName.{GridName};
ghost use Rattle.heesch_grid.specs.Names.{geometry_of};
ghost use Rattle.std.specs.Io.KnownBytes.{IsAtEnd};
ghost use Rattle.heesch_io.specs.Causes.{Rose};
ghost use Rattle.heesch_words.specs.declared.requests.Request.{Request as RequestOf};
ghost use Rattle.heesch_words.specs.declared.requests.Request.TheVariants.{Classify as ClassifyRequest};
ghost use Rattle.heesch_words.specs.declared.requests.Request.TheVariants.{Check as CheckRequest};
ghost use Rattle.heesch_words.specs.declared.requests.Request.TheVariants.{CheckOuter as CheckOuterRequest};
ghost use Rattle.heesch_words.specs.declared.requests.Request.TheVariants.{Table as TableRequest};
ghost use Rattle.heesch_words.specs.declared.requests.Request.TheVariants.{Formula as FormulaRequest};
ghost use Rattle.heesch_words.specs.declared.requests.Request.TheVariants.{Answer as AnswerRequest};
ghost use Rattle.heesch_words.specs.declared.requests.Request.TheVariants.{Outer as OuterRequest, Join as JoinRequest};
ghost use Rattle.heesch_parts.specs.AllShares.{AreAllShares, together};
ghost use Rattle.heesch_table.specs.Tabulating.{IsTallied};
ghost use Rattle.heesch_words.specs.Requests.{Asks};
ghost use Rattle.heesch_app.specs.Outputs.{IsAccepted, IsOutput, IsBegunOutput, HasOneText, Reads, ReadsToEnd};
ghost use Rattle.heesch_app.specs.Outputs.{AreReading, Writes, WritesPrefix, AsksForCatalogue, IsCatalogued};
ghost use Rattle.heesch_app.specs.Outputs.{WritesValid, WritesValidOuters, header_of};
ghost use Rattle.heesch_outer_check.specs.Answers.{IsValidOuters};
ghost use Rattle.heesch_app.specs.Endings.{EndsAs};
ghost use Rattle.heesch_app.specs.Inputs.{ConsumesSome};
ghost use Rattle.heesch_app.specs.Exchanges.{WritesFormula, WritesAnswer};
ghost use Rattle.heesch_app.specs.OuterNumbers.{WritesOuters};
ghost use Rattle.heesch_app.specs.Ranges.{IsInRange};

use crate::Status;
use crate::catalogues::write_asked_catalogue;
use crate::checks::{checked_outers_reply, checked_reply};
use crate::exchanges::{Exchange, exchange_reply};
use crate::joins::join_reply;
use crate::listing::{ListForm, free_list_text};
use crate::outers::write_outer_numbers;
use crate::reply::{Reply, put_reply};
use crate::tables::table_reply;
use heesch_cert::{Header, Subject};
use heesch_io::{IoStop, Sink, Source};
use heesch_parts::write_share;
use heesch_pool::{Crew, Gate};
use heesch_sample::sample;
use heesch_words::{Request, Usage, parse};
use std::alloc::Global;
use std::thread::Threads;

/// Does what the words ask for. The words are the arguments without the program's name; the gate is
/// told of each piece of work that a worker takes, and the program's own is open. `classify`, `share` and
/// `outer` write after each 256 shapes, and each other form its one text at once.
#[tactic(auto, using(crate::proofs::Consumed::none_consumed))]
pub fn run<T: Threads + Sync, R: Source, W: Sink, H: Gate + Sync>(
    rt: &T,
    alloc: Global,
    words: &[String],
    source: &mut R,
    sink: &mut W,
    gate: &H,
) -> Status
    // The words alone decide what is refused, and then nothing is read or written.
    ensures refused { result ≡ Status.Usage → ¬ IsAccepted (map string_bytes words.now) }
    ensures accepted { result ≢ Status.Usage → IsAccepted (map string_bytes words.now) }
    ensures untouched { result ≡ Status.Usage → sink.new ≡ sink.old }

    // Nothing is read by a form that reads nothing.
    ensures unread { ¬ AreReading (map string_bytes words.now) → source.new ≡ source.old }

    // Whatever the status, the source gave some bytes, from the first on, or none.
    ensures consumed { ConsumesSome (R.left source.old) (R.left source.new) }

    // Each form that reads, but `check`, has read the source to its end where it ends Done.
    ensures read_to_end { result ≡ Status.Done → (request : RequestOf) → Asks (map string_bytes words.now) request
        → ReadsToEnd request → IsAtEnd (R.left source.new) }

    ensures done { result ≡ Status.Done →
        Writes (map string_bytes words.now) (R.left source.old) Status.Done (W.held sink.old) (W.held sink.new) }
    // The headline: whatever the grid, the size, the limits, the workers and the order of their steps, a full
    // catalogue that ends Done has every free polyform of the size once and in order, each with a true entry and a
    // right verdict.
    ensures headline { result ≡ Status.Done → (grid : GridName) (n workers : ℕ) (limits : Limits)
        → AsksForCatalogue (map string_bytes words.now) grid n limits workers
        → IsCatalogued grid n limits (W.held sink.old) (W.held sink.new) }
    // A full catalogue that was written is valid, in the words of `check`.
    ensures checkable { result ≡ Status.Done → (grid : GridName) (subject : Subject) (workers : ℕ) (limits : Limits)
        → Asks (map string_bytes words.now) (ClassifyRequest grid subject limits workers false)
        → WritesValid (W.held sink.old) (W.held sink.new) }
    // So is what the outputs of `share` 1 to K of a size are joined to.
    ensures joinable { result ≡ Status.Done → (grid : GridName) (n : ℕ) (limits : Limits) (outputs : List (List ℕ))
        → Asks (map string_bytes words.now) JoinRequest
        → AreAllShares (geometry_of grid) (header_of grid (Size n) limits false) n outputs
        → R.left source.old ≡ Some (together outputs) → WritesValid (W.held sink.old) (W.held sink.new) }
    // No valid catalogue of at most 2^40 bytes is refused by `check`.
    ensures passes { (input : List ℕ) (workers count : ℕ) → R.left source.old ≡ Some input → length input ≤ 2 ^ 40
        → Asks (map string_bytes words.now) (CheckRequest workers) → IsValid input count
        → (result ≢ Status.Invalid) × (result ≢ Status.BadInput) }
    // Nor is a valid outer text by `check outer`, and a finished one is valid, in the words of its own command.
    ensures outers_pass { (input : List ℕ) (grid : GridName) (subject : Subject) (limits : Limits) (workers count : ℕ)
        → R.left source.old ≡ Some input → length input ≤ 2 ^ 40
        → Asks (map string_bytes words.now) (CheckOuterRequest grid subject limits workers)
        → IsValidOuters (header_of grid subject limits false) input count
        → (result ≢ Status.Invalid) × (result ≢ Status.BadInput) }
    ensures outer_checkable { result ≡ Status.Done
        → (grid : GridName) (subject : Subject) (limits : Limits) (workers : ℕ)
        → Asks (map string_bytes words.now) (OuterRequest grid subject limits workers)
        → WritesValidOuters (header_of grid subject limits false) (W.held sink.old) (W.held sink.new) }
    // Only an input that is longer is told `check` bad input, and no input that has a tally `table`.
    ensures too_long { (input : List ℕ) (workers : ℕ) → R.left source.old ≡ Some input
        → Asks (map string_bytes words.now) (CheckRequest workers) → result ≡ Status.BadInput → 2 ^ 40 < length input }
    ensures tables { (input tally : List ℕ) → R.left source.old ≡ Some input
        → Asks (map string_bytes words.now) TableRequest → IsTallied (Some input) tally → result ≢ Status.BadInput }
    // A formula that was written is E(S, J), which is satisfiable exactly where J coronas of the given shape S exist;
    // and what was written of a model of it is J coronas of S, or the least clause that it makes false.
    ensures formulas { result ≡ Status.Done → (grid : GridName) (level size : ℕ) (version : Version)
        → Asks (map string_bytes words.now) (FormulaRequest grid level size version)
        → WritesFormula version (geometry_of grid) level size (R.left source.old) (W.held sink.old) (W.held sink.new) }
    ensures answers { result ≡ Status.Done → (grid : GridName) (level size : ℕ) (version : Version)
        → Asks (map string_bytes words.now) (AnswerRequest grid level size version)
        → WritesAnswer version (geometry_of grid) level size (R.left source.old) (W.held sink.old) (W.held sink.new) }
    // What was written of outer numbers: for each of these shapes in order (those of the free list of the size, or the
    // canonical lists of the lines of the list text) the text of a true entry with a right verdict under the limits,
    // and then the record of an answer that `check_outer` accepts for this entry; it tells the outer number, and where
    // it is spent, its steps leave the formula open. At last comes `end COUNT`.
    ensures outer_numbers { result ≡ Status.Done
        → (grid : GridName) (subject : Subject) (limits : Limits) (workers : ℕ)
        → Asks (map string_bytes words.now) (OuterRequest grid subject limits workers)
        → WritesOuters grid subject limits (R.left source.old) (W.held sink.old) (W.held sink.new) }
    ensures bad_input { result ≡ Status.BadInput →
        Writes (map string_bytes words.now) (R.left source.old) Status.BadInput (W.held sink.old) (W.held sink.new) }
    ensures invalid { result ≡ Status.Invalid →
        Writes (map string_bytes words.now) (R.left source.old) Status.Invalid (W.held sink.old) (W.held sink.new) }
    ensures read_fault { result ≡ Status.ReadFault → AreReading (map string_bytes words.now) × (sink.new ≡ sink.old) }
    ensures read_cause { result ≡ Status.ReadFault → Rose (R.faults source.old) (R.faults source.new) }
    ensures write_fault { result ≡ Status.WriteFault →
        WritesPrefix (map string_bytes words.now) (R.left source.old) (W.held sink.old) (W.held sink.new) }
    ensures write_cause { result ≡ Status.WriteFault → Rose (W.faults sink.old) (W.faults sink.new) }
    ensures no_memory { result ≡ Status.NoMemory →
        WritesPrefix (map string_bytes words.now) (R.left source.old) (W.held sink.old) (W.held sink.new) }
    // A form that has one text has then written nothing.
    ensures unwritten { result ≡ Status.NoMemory → (request : RequestOf) → Asks (map string_bytes words.now) request
        → HasOneText request → sink.new ≡ sink.old }

    // Where no count rose, what the words ask for is done, or a fault of the input is told, or memory was refused.
    ensures complete { IsAccepted (map string_bytes words.now) →
        (result ≡ Status.Done) ⊎ (result ≡ Status.Invalid) ⊎ (result ≡ Status.BadInput) ⊎ (result ≡ Status.NoMemory)
        ⊎ Rose (R.faults source.old) (R.faults source.new) ⊎ Rose (W.faults sink.old) (W.faults sink.new) }
{
    match parse(words) {
        Ok(request) => answer(rt, alloc, request, source, sink, gate),
        Err(Usage) => Status::Usage,
    }
}

/// Does what a request asks for.
#[tactic(auto, using(crate::proofs::Consumed::none_consumed))]
fn answer<T: Threads + Sync, R: Source, W: Sink, H: Gate + Sync>(
    rt: &T,
    alloc: Global,
    request: Request,
    source: &mut R,
    sink: &mut W,
    gate: &H,
) -> Status
    requires { IsInRange request }
    ensures ends { EndsAs (IsOutput request (R.left source.old)) (IsBegunOutput request (R.left source.old))
        (W.held sink.old) (W.held sink.new) result }
    ensures ended { result ≡ Status.Done → ReadsToEnd request → IsAtEnd (R.left source.new) }
    ensures consumed { ConsumesSome (R.left source.old) (R.left source.new) }
    ensures read_fault { result ≡ Status.ReadFault → Reads request × Rose (R.faults source.old) (R.faults source.new) }
    ensures unwritten { result ≡ Status.ReadFault → sink.new ≡ sink.old }
    ensures no_memory { result ≡ Status.NoMemory → HasOneText request → sink.new ≡ sink.old }
    ensures write_fault { result ≡ Status.WriteFault → Rose (W.faults sink.old) (W.faults sink.new) }
    ensures unread { ¬ Reads request → source.new ≡ source.old }
{
    match request {
        Request::Classify {
            grid,
            subject,
            limits,
            workers,
            brief,
        } => {
            let header = Header {
                brief,
                grid,
                subject,
                limits,
            };
            let crew = Crew::new(rt, alloc, workers, gate);
            write_asked_catalogue(&crew, &header, source, sink)
        }
        Request::Share {
            grid,
            n,
            i,
            k,
            limits,
            workers,
        } => {
            let header = Header {
                brief: false,
                grid,
                subject: Subject::Size { n },
                limits,
            };
            let crew = Crew::new(rt, alloc, workers, gate);
            let written = write_share(&crew, &header, n, i, k, sink);
            Status::of_writing(written)
        }
        Request::Outer {
            grid,
            subject,
            limits,
            workers,
        } => {
            let crew = Crew::new(rt, alloc, workers, gate);
            write_outer_numbers(&crew, grid, subject, limits, source, sink)
        }
        _ => put_reply(reply(rt, alloc, request, source, gate), sink),
    }
}

/// The status and the one text that a request asks for; a catalogue, a share of one and an outer text have none, since
/// they are written as they are made.
#[tactic(auto, using(crate::proofs::Consumed::none_consumed))]
fn reply<T: Threads + Sync, R: Source, H: Gate + Sync>(
    rt: &T,
    alloc: Global,
    request: Request,
    source: &mut R,
    gate: &H,
) -> Result<Reply, IoStop>
    requires range { IsInRange request }
    requires text { HasOneText request }
    ensures ok { IfOk result (λ r. IsOutput request (R.left source.old) r.status r.text.items) }
    ensures ended { IfOk result (λ r. r.status ≡ Status.Done → ReadsToEnd request → IsAtEnd (R.left source.new)) }
    ensures consumed { ConsumesSome (R.left source.old) (R.left source.new) }
    ensures failed { result ≡ Err IoStop.Failed → Reads request × Rose (R.faults source.old) (R.faults source.new) }
    ensures unread { ¬ Reads request → source.new ≡ source.old }
{
    match request {
        Request::List { grid, n, workers } => {
            let crew = Crew::new(rt, alloc, workers, gate);
            Reply::done(free_list_text(&crew, ListForm::Cells, grid, n))
        }
        Request::Plain { grid, n, workers } => {
            let crew = Crew::new(rt, alloc, workers, gate);
            Reply::done(free_list_text(&crew, ListForm::Tilings, grid, n))
        }
        Request::Check { workers } => {
            checked_reply(&Crew::new(rt, alloc, workers, gate), source)
        }
        Request::CheckOuter {
            grid,
            subject,
            limits,
            workers,
        } => {
            let header = Header {
                brief: false,
                grid,
                subject,
                limits,
            };
            let crew = Crew::new(rt, alloc, workers, gate);
            checked_outers_reply(&crew, &header, source)
        }
        Request::Table => table_reply(alloc, source),
        Request::Formula {
            grid,
            level,
            size,
            version,
        } => exchange_reply(alloc, Exchange::Formula, grid, level, size, version, source),
        Request::Answer {
            grid,
            level,
            size,
            version,
        } => exchange_reply(alloc, Exchange::Answer, grid, level, size, version, source),
        Request::Sample {
            grid,
            n,
            count,
            seed,
            limits,
            workers,
        } => {
            let crew = Crew::new(rt, alloc, workers, gate);
            Reply::done(sample(&crew, grid, n, count, seed, limits))
        }
        Request::Join => join_reply(alloc, source),
        Request::Classify { .. } | Request::Share { .. } | Request::Outer { .. } => {
            unreachable!()
        }
    }
}
