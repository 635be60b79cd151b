//! What words may ask for.
ghost use Rattle.std.specs.Prelude.{◌≡◌, ◌∷◌, ℕ, Bool, false, if◌then◌else◌, map, string_bytes, codes, IfOk, OnErr};
ghost use Rattle.std.specs.Prelude.{◌≢◌, []};
ghost use Rattle.heesch_cert.specs.declared.header.Subject.{Subject};
ghost use Rattle.heesch_cert.specs.declared.limits.Limits.{Limits};
ghost use Rattle.heesch_grid.specs.declared.GridName.{GridName};
ghost use Rattle.heesch_cnf.specs.declared.version.Version.{Version as FormulaVersion};
ghost use Rattle.heesch_words.specs.Requests.{Asks, HasListForm, HasClassifyForm, HasCheckForm, HasSampleForm};
ghost use Rattle.heesch_words.specs.Requests.{HasCheckOuterForm};
ghost use Rattle.heesch_words.specs.Requests.{HasFormulaForm, HasShareForm};

use crate::numbers::number;
use crate::options::Options;
use crate::shared_forms::{
    FormulaForm, ListForm, classify_form, formula_form, full_form, list_form,
};
use crate::subjects::grid_named;
use heesch_cert::{Limits, Subject, has_grid, most_cells};
use heesch_cnf::Version;
use heesch_grid::GridName;
use thiserror::Error;

/// The words have none of the forms.
#[derive(Clone, Copy, Debug, PartialEq, Eq, Error)]
#[error("the words have none of the forms")]
pub struct Usage;

/// What the words of a command line ask for.
#[derive(Clone, Copy, Debug, PartialEq, Eq)]
pub enum Request {
    /// The free shapes of `n` cells, found by so many workers.
    List {
        grid: GridName,
        n: u32,
        workers: u32,
    },
    /// The plain tilings of the free shapes of `n` cells, found by so many workers.
    Plain {
        grid: GridName,
        n: u32,
        workers: u32,
    },
    /// The catalogue of a subject under these limits, found by so many workers; where it is brief, its
    /// verdicts alone.
    Classify {
        grid: GridName,
        subject: Subject,
        limits: Limits,
        workers: u32,
        brief: bool,
    },
    /// Whether a catalogue is valid, found by so many workers.
    Check {
        workers: u32,
    },
    /// Whether an outer text of a subject's shapes under these limits is valid, found by so many workers.
    CheckOuter {
        grid: GridName,
        subject: Subject,
        limits: Limits,
        workers: u32,
    },
    /// The tally of a catalogue.
    Table,
    /// The tally of `count` shapes of `n` cells that are grown from a seed, classified under these
    /// limits by so many workers.
    Sample {
        grid: GridName,
        n: u32,
        count: u32,
        seed: u64,
        limits: Limits,
        workers: u32,
    },
    /// The corona formula of a given shape at this level, of at most `size` literals, as a text for other solvers.
    Formula {
        grid: GridName,
        level: u32,
        size: u32,
        version: Version,
    },
    /// The coronas that a given assignment of this formula's variables has, or the first clause that it makes false.
    Answer {
        grid: GridName,
        level: u32,
        size: u32,
        version: Version,
    },
    /// Share `i` of `k` of the catalogue of the size `n` under these limits, found by so many workers.
    Share {
        grid: GridName,
        n: u32,
        i: u32,
        k: u32,
        limits: Limits,
        workers: u32,
    },
    /// The catalogue whose shares, in order, are given.
    Join,
    /// The entries of a subject's shapes under these limits, each with the shape's outer number, found
    /// by so many workers.
    Outer {
        grid: GridName,
        subject: Subject,
        limits: Limits,
        workers: u32,
    },
}

/// The greatest number of cells of a sample's shapes.
const MOST_SAMPLE_CELLS: u64 = 32;

/// The greatest number of a sample's shapes.
const MOST_SAMPLE_SHAPES: u64 = 1_000;

/// The greatest number of shares of a catalogue.
const MOST_SHARES: u64 = 1_000;

/// What the words ask for: the arguments of the program, without its name.
///
/// The forms, with the options that each takes, are
///
/// - `list GRID N` and `plain GRID N`: `--workers`;
/// - `classify GRID N` and `classify GRID given`: `--workers`, `--turns`, `--levels`, `--domain`,
///   `--size`, `--version` and `--brief`;
/// - `check`: `--workers`;
/// - `check outer GRID N` and `check outer GRID given`: the options of `classify`, but for `--brief`;
/// - `table`: none;
/// - `sample GRID N COUNT SEED`: `--workers`, `--turns`, `--levels`, `--domain`, `--size` and
///   `--version`;
/// - `formula GRID J` and `answer GRID J`: `--size` and `--version`;
/// - `share GRID N I K`: the options of `classify`, but for `--brief`;
/// - `join`: none;
/// - `outer GRID N` and `outer GRID given`: the options of `classify`, but for `--brief`.
///
/// GRID is `square`, `hex`, `iamond` or `kite`, and `kite` doesn't go with `--version 1`. N is 1 to 14
/// for `square`, 1 to 12 for `hex`, 1 to 18 for `iamond` and 1 to 10 for `kite`, but with `--version 1`
/// it is 1 to 12, 1 to 10 and 1 to 15 for the first three; for `sample` N is 1 to 32, COUNT 1 to 1,000
/// and SEED below 2^64. J is 1 to 6. K is 1 to 1,000, and I is 1 to K.
///
/// Options follow the other words in any order, each at most once; each but `--brief` is followed by
/// its number as the next word. `--workers` is 1 to 64, by default 1; `--turns` 1 to 1,000,000, by
/// default 20,000; `--levels` 1 to 6, by default 3; `--domain` 1 to 12, by default 4; `--size` 1 to
/// 60,000,000, by default 60,000,000; `--version` 1 or 2, by default 2. A number is written in decimal
/// digits, without a sign or a leading zero.
///
/// `Usage` comes exactly where the words have none of the forms. The cost is linear in the number of
/// words and in their lengths, and no memory is taken.
pub fn parse(words: &[String]) -> Result<Request, Usage>
    ensures ok { IfOk result (λ request. Asks (map string_bytes words.now) request) }
    ensures usage { OnErr result
        ((request : Request) → ¬ Asks (map string_bytes words.now) request) }
{
    let [form, rest @ ..] = words else {
        return Err(Usage);
    };
    match form.as_str() {
        "list" => listing(rest, false),
        "plain" => listing(rest, true),
        "classify" => classify(rest),
        "check" => check(rest),
        "table" => alone(rest, Request::Table),
        "sample" => sample(rest),
        "formula" => exchange(rest, false),
        "answer" => exchange(rest, true),
        "share" => share(rest),
        "join" => alone(rest, Request::Join),
        "outer" => outer(rest),
        _ => Err(Usage),
    }
}

/// The request whose words are `list`, or `plain` for plain tilings, and these.
fn listing(words: &[String], plain: bool) -> Result<Request, Usage>
    ensures ok { IfOk result (λ request. Asks
        ((if plain then codes "plain" else codes "list") ∷ map string_bytes words.now) request) }
    ensures usage { OnErr result ((grid : GridName) (n workers : ℕ)
        → ¬ HasListForm (map string_bytes words.now) grid n workers) }
{
    let ListForm { grid, n, workers } = list_form(words)?;
    if plain {
        return Ok(Request::Plain { grid, n, workers });
    }
    Ok(Request::List { grid, n, workers })
}

/// The request whose words are `classify` and these.
fn classify(words: &[String]) -> Result<Request, Usage>
    ensures ok { IfOk result
        (λ request. Asks (codes "classify" ∷ map string_bytes words.now) request) }
    ensures usage { OnErr result
        ((grid : GridName) (subject : Subject) (limits : Limits) (workers : ℕ) (brief : Bool)
        → ¬ HasClassifyForm (map string_bytes words.now) grid subject limits workers brief) }
{
    let form = classify_form(words)?;
    Ok(Request::Classify {
        grid: form.grid,
        subject: form.subject,
        limits: form.limits,
        workers: form.workers,
        brief: form.brief,
    })
}

/// The request whose words are `check` and these.
fn check(words: &[String]) -> Result<Request, Usage>
    ensures ok { IfOk result
        (λ request. Asks (codes "check" ∷ map string_bytes words.now) request) }
    ensures usage { OnErr result
        ((workers : ℕ) → ¬ HasCheckForm (map string_bytes words.now) workers) }
    ensures no_outer { OnErr result
        ((grid : GridName) (subject : Subject) (limits : Limits) (workers : ℕ)
        → ¬ HasCheckOuterForm (map string_bytes words.now) grid subject limits workers) }
{
    let [form, rest @ ..] = words else {
        return check_catalogue(words);
    };
    match form.as_str() {
        "outer" => check_outer(rest),
        _ => check_catalogue(words),
    }
}

/// The request whose words are `check`, `outer` and these.
fn check_outer(words: &[String]) -> Result<Request, Usage>
    ensures ok { IfOk result
        (λ request. Asks (codes "check" ∷ codes "outer" ∷ map string_bytes words.now) request) }
    ensures usage { OnErr result
        ((grid : GridName) (subject : Subject) (limits : Limits) (workers : ℕ)
        → ¬ HasClassifyForm (map string_bytes words.now) grid subject limits workers false) }
{
    let form = full_form(words)?;
    Ok(Request::CheckOuter {
        grid: form.grid,
        subject: form.subject,
        limits: form.limits,
        workers: form.workers,
    })
}

/// The request whose words are `check` and these, where they are its options alone.
fn check_catalogue(words: &[String]) -> Result<Request, Usage>
    ensures ok { IfOk result
        (λ request. Asks (codes "check" ∷ map string_bytes words.now) request) }
    ensures usage { OnErr result
        ((workers : ℕ) → ¬ HasCheckForm (map string_bytes words.now) workers) }
{
    let options = Options::read(words)?;
    let workers = options.workers_alone()?;
    Ok(Request::Check { workers })
}

/// The request of a first word that these follow, where it stands alone.
fn alone(words: &[String], request: Request) -> Result<Request, Usage>
    ensures ok { IfOk result (λ asked. (asked ≡ request) × (map string_bytes words.now ≡ [])) }
    ensures usage { OnErr result (map string_bytes words.now ≢ []) }
{
    if words.is_empty() {
        Ok(request)
    } else {
        Err(Usage)
    }
}

/// The request whose words are `sample` and these.
fn sample(words: &[String]) -> Result<Request, Usage>
    ensures ok { IfOk result
        (λ request. Asks (codes "sample" ∷ map string_bytes words.now) request) }
    ensures usage { OnErr result
        ((grid : GridName) (n count seed : ℕ) (limits : Limits) (workers : ℕ)
        → ¬ HasSampleForm (map string_bytes words.now) grid n count seed limits workers) }
{
    let [grid, n, count, seed, options @ ..] = words else {
        return Err(Usage);
    };
    let grid = grid_named(grid.as_str())?;
    let n = number(n.as_str(), 1, MOST_SAMPLE_CELLS)? as u32;
    let count = number(count.as_str(), 1, MOST_SAMPLE_SHAPES)? as u32;
    let seed = number(seed.as_str(), 0, u64::MAX)?;
    let options = Options::read_full(options)?;
    let limits = options.limits();
    if !has_grid(limits.version, grid) {
        return Err(Usage);
    }
    Ok(Request::Sample {
        grid,
        n,
        count,
        seed,
        limits,
        workers: options.workers(),
    })
}

/// The request whose words are `formula`, or `answer` for the coronas of a model, and these.
fn exchange(words: &[String], answers: bool) -> Result<Request, Usage>
    ensures ok { IfOk result (λ request. Asks
        ((if answers then codes "answer" else codes "formula") ∷ map string_bytes words.now) request) }
    ensures usage { OnErr result ((grid : GridName) (level size : ℕ) (version : FormulaVersion)
        → ¬ HasFormulaForm (map string_bytes words.now) grid level size version) }
{
    let FormulaForm {
        grid,
        level,
        size,
        version,
    } = formula_form(words)?;
    if answers {
        return Ok(Request::Answer {
            grid,
            level,
            size,
            version,
        });
    }
    Ok(Request::Formula {
        grid,
        level,
        size,
        version,
    })
}

/// The request whose words are `share` and these.
fn share(words: &[String]) -> Result<Request, Usage>
    ensures ok { IfOk result
        (λ request. Asks (codes "share" ∷ map string_bytes words.now) request) }
    ensures usage { OnErr result ((grid : GridName) (n i k : ℕ) (limits : Limits) (workers : ℕ)
        → ¬ HasShareForm (map string_bytes words.now) grid n i k limits workers) }
{
    let [grid, n, i, k, options @ ..] = words else {
        return Err(Usage);
    };
    let grid = grid_named(grid.as_str())?;
    let k = number(k.as_str(), 1, MOST_SHARES)? as u32;
    let i = number(i.as_str(), 1, u64::from(k))? as u32;
    let options = Options::read_full(options)?;
    let limits = options.limits();
    let n = number(n.as_str(), 1, u64::from(most_cells(limits.version, grid)))? as u32;
    Ok(Request::Share {
        grid,
        n,
        i,
        k,
        limits,
        workers: options.workers(),
    })
}

/// The request whose words are `outer` and these.
fn outer(words: &[String]) -> Result<Request, Usage>
    ensures ok { IfOk result
        (λ request. Asks (codes "outer" ∷ map string_bytes words.now) request) }
    ensures usage { OnErr result
        ((grid : GridName) (subject : Subject) (limits : Limits) (workers : ℕ)
        → ¬ HasClassifyForm (map string_bytes words.now) grid subject limits workers false) }
{
    let form = full_form(words)?;
    Ok(Request::Outer {
        grid: form.grid,
        subject: form.subject,
        limits: form.limits,
        workers: form.workers,
    })
}
