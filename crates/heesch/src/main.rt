//! The program `heesch`: tilings and Heesch numbers of polyforms. `heesch classify GRID N` writes the
//! catalogue of the free polyforms of N cells.
#![tactic(auto)]

ghost use Rattle.std.specs.Prelude.{◌≡◌, map, string_bytes, IfErr, IfOk, IsOk, MatchResult, Ok};
ghost use Rattle.std.specs.Process.{exit_status};
ghost use Rattle.heesch_app.specs.declared.status.Status.{Status as StatusOf};
ghost use Rattle.heesch_app.specs.Statuses.{status_number};
ghost use Rattle.heesch.specs.Ends.{AreWords, HasRun, IsMissing};

use heesch_app::{Status, run};
use heesch_io::{NoMemory, Sink, Source, StdSink, StdSource};
use heesch_pool::Open;
use std::alloc::Global;
use std::env::Args;
use std::process::ExitCode;
use std::thread::Threads;
use std::{env, io};

fn main(rt: HostRuntime) -> ExitCode {
    let alloc = rt.alloc();
    let mut source = StdSource::new(rt.stdin(), alloc);
    let mut sink = StdSink::new(rt.stdout(), alloc);
    let words = words(alloc, env::args(&rt));
    end(&rt, alloc, words, &mut source, &mut sink)
}

/// The arguments without the program's name, or the status where they can't be had: `Usage` where one isn't UTF-8,
/// and `NoMemory` where memory was refused.
fn words(alloc: Global, args: io::Result<Args>) -> Result<Vec<String>, Status>
    ensures had { IfOk args (λ all.
        MatchResult result (λ words. AreWords all words.items) (λ status. status ≡ Status.NoMemory)) }
    ensures missing { IfErr args (λ error. IfErr result (IsMissing error)) }
    ensures told { IfOk result (λ words. IsOk args) }
{
    let error = match args {
        Ok(args) => return all_words(alloc, args),
        Err(error) => error,
    };
    if error.kind() == io::ErrorKind::OutOfMemory {
        Err(Status::NoMemory)
    } else {
        Err(Status::Usage)
    }
}

/// The arguments behind the first.
fn all_words(alloc: Global, args: Args) -> Result<Vec<String>, Status>
    ensures { MatchResult result (λ words. AreWords args words.items) (λ status. status ≡ Status.NoMemory) }
{
    match args.skip(1).collect(alloc) {
        Ok(words) => Ok(words),
        Err(_) => Err(Status::NoMemory),
    }
}

/// Runs over the words, and ends with the number of the run's status; with that of the status that stands in place of
/// the words, and with that of `NoMemory` where there is no source or no sink. Both are left as the run leaves them,
/// and as they were where nothing is run.
fn end<T: Threads + Sync, R: Source, W: Sink>(
    rt: &T,
    alloc: Global,
    words: Result<Vec<String>, Status>,
    source: &mut Result<R, NoMemory>,
    sink: &mut Result<W, NoMemory>,
) -> ExitCode
    ensures without_words { IfErr words (λ status. (exit_status result ≡ status_number status)
        × (source.new ≡ source.old) × (sink.new ≡ sink.old)) }
    ensures without_source { IfOk words (λ _. IfErr source.old (λ _. (exit_status result ≡ 6)
        × (source.new ≡ source.old) × (sink.new ≡ sink.old))) }
    ensures without_sink { IfOk words (λ _. IfErr sink.old (λ _. (exit_status result ≡ 6)
        × (source.new ≡ source.old) × (sink.new ≡ sink.old))) }
    ensures ran { IfOk words (λ all. IfOk source.old (λ from. IfOk sink.old (λ to.
        (status : StatusOf) × (after : R) × (into : W) × (source.new ≡ Ok after) × (sink.new ≡ Ok into)
        × (exit_status result ≡ status_number status)
        × HasRun R.left R.faults W.held W.faults (map string_bytes all.items) from after to into status))) }
{
    let words = match words {
        Ok(words) => words,
        Err(status) => return exit_code(status),
    };
    let Ok(source) = source else {
        return exit_code(Status::NoMemory);
    };
    match sink {
        Ok(sink) => end_of_run(rt, alloc, &words, source, sink),
        Err(NoMemory) => exit_code(Status::NoMemory),
    }
}

/// Runs over the words, the source and the sink, with the open gate, and ends with the number of the run's status.
fn end_of_run<T: Threads + Sync, R: Source, W: Sink>(
    rt: &T,
    alloc: Global,
    words: &[String],
    source: &mut R,
    sink: &mut W,
) -> ExitCode
    ensures { (status : StatusOf) × (exit_status result ≡ status_number status)
        × HasRun R.left R.faults W.held W.faults (map string_bytes words.now)
        source.old source.new sink.old sink.new status }
{
    let status = run(rt, alloc, words, source, sink, &Open);
    exit_code(status)
}

/// What the program ends with: the status's number.
fn exit_code(status: Status) -> ExitCode
    ensures { exit_status result ≡ status_number status }
{
    ExitCode::from(status.number())
}
