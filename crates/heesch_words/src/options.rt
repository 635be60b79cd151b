//! The options behind the other words.
ghost use Rattle.std.specs.Prelude.{◌≡◌, ◌≢◌, ◌<◌, ◌≤◌, ◌^◌, ℕ, true, false, List, ◌∷◌, map, string_bytes, decimal};
ghost use Rattle.std.specs.Prelude.{IfOk, OnErr};
ghost use Rattle.heesch_words.specs.Options.{Setting, AreOptions, HasWorkersAlone, HasSizeAndVersionAlone, workers_of};
ghost use Rattle.heesch_words.specs.Options.{limits_of};
ghost use Rattle.heesch_words.specs.Reading.{BeginWith, AddsSetting, CannotAdd};

use crate::Usage;
use crate::numbers::number;
use heesch_cert::Limits;
use heesch_cnf::Version;

/// The greatest number of workers.
const MOST_WORKERS: u64 = 64;

/// The greatest limits.
const MOST_TURNS: u64 = 1_000_000;

pub const MOST_LEVELS: u64 = 6;

const MOST_DOMAIN: u64 = 12;

const MOST_SIZE: u64 = 60_000_000;

const MOST_VERSION: u64 = 2;

/// What the options of a form give.
#[derive(Clone, Copy, Default)]
pub struct Options {
    pub workers: Option<u32>,
    pub turns: Option<u32>,
    pub levels: Option<u32>,
    pub domain: Option<u32>,
    pub size: Option<u32>,
    pub version: Option<u32>,
    pub brief: bool,
}

impl Options {
    /// What the words give, where they are options in any order, each at most once.
    pub fn read(words: &[String]) -> Result<Options, Usage>
        ensures ok { IfOk result (λ options. AreOptions (map string_bytes words.now) options) }
        ensures usage { OnErr result
            ((options : Options) → ¬ AreOptions (map string_bytes words.now) options) }
    {
        let mut options = Options::default();
        let mut rest = words;
        while let [name, others @ ..] = rest {
            rest = options.read_one(name.as_str(), others)?;
        }
        Ok(options)
    }

    /// What the words give, where they are options other than `--brief`.
    pub fn read_full(words: &[String]) -> Result<Options, Usage>
        ensures ok { IfOk result (λ options. AreOptions (map string_bytes words.now) options) }
        ensures full { IfOk result (λ options. options.brief ≡ false) }
        ensures usage { OnErr result ((options : Options)
            → AreOptions (map string_bytes words.now) options → options.brief ≢ false) }
    {
        let options = Options::read(words)?;
        if options.brief {
            return Err(Usage);
        }
        Ok(options)
    }

    /// Takes the value of an option that was not given before from the words after its name, and
    /// answers the words that follow.
    fn read_one<'a>(&mut self, name: &str, words: &'a [String]) -> Result<&'a [String], Usage>
        ensures ok { IfOk result (λ others. (setting : Setting)
            × BeginWith setting (name.now ∷ map string_bytes words.now) (map string_bytes others.now)
            × AddsSetting setting self.old self.new) }
        ensures usage { OnErr result ((setting : Setting) (others : List (List ℕ))
            → BeginWith setting (name.now ∷ map string_bytes words.now) others
            → CannotAdd setting self.old) }
    {
        match name {
            "--workers" => read_once(&mut self.workers, words, MOST_WORKERS),
            "--turns" => read_once(&mut self.turns, words, MOST_TURNS),
            "--levels" => read_once(&mut self.levels, words, MOST_LEVELS),
            "--domain" => read_once(&mut self.domain, words, MOST_DOMAIN),
            "--size" => read_once(&mut self.size, words, MOST_SIZE),
            "--version" => read_once(&mut self.version, words, MOST_VERSION),
            "--brief" => set_once(&mut self.brief, words),
            _ => Err(Usage),
        }
    }

    /// The number of workers, where no other option was given.
    pub fn workers_alone(&self) -> Result<u32, Usage>
        ensures ok { IfOk result
            (λ workers. HasWorkersAlone self.now × (workers ≡ workers_of self.now)) }
        ensures usage { OnErr result (¬ HasWorkersAlone self.now) }
    {
        match *self {
            Options {
                turns: None,
                levels: None,
                domain: None,
                size: None,
                version: None,
                brief: false,
                ..
            } => Ok(self.workers()),
            _ => Err(Usage),
        }
    }

    /// The limits, where no other option than `--size` and `--version` was given.
    pub fn size_and_version_alone(&self) -> Result<Limits, Usage>
        ensures ok { IfOk result
            (λ limits. HasSizeAndVersionAlone self.now × (limits ≡ limits_of self.now)) }
        ensures usage { OnErr result (¬ HasSizeAndVersionAlone self.now) }
    {
        match (
            self.workers,
            self.turns,
            self.levels,
            self.domain,
            self.brief,
        ) {
            (None, None, None, None, false) => Ok(self.limits()),
            _ => Err(Usage),
        }
    }

    /// The number of workers, by default 1.
    pub fn workers(&self) -> u32
        ensures { result ≡ workers_of self.now }
    {
        self.workers.unwrap_or(1)
    }

    /// The limits, each by default its own.
    pub fn limits(&self) -> Limits
        ensures { result ≡ limits_of self.now }
    {
        Limits {
            turns: self.turns.unwrap_or(20_000),
            levels: self.levels.unwrap_or(3),
            domain: self.domain.unwrap_or(4),
            size: self.size.unwrap_or(60_000_000),
            version: match self.version {
                Some(1) => Version::One,
                _ => Version::Two,
            },
        }
    }
}

/// Puts the number from 1 to `most` that the first word writes into a place that has none yet,
/// and answers the other words.
fn read_once<'a>(
    place: &mut Option<u32>,
    words: &'a [String],
    most: u64,
) -> Result<&'a [String], Usage>
    requires { most < 2 ^ 32 }
    ensures ok { IfOk result (λ others. (n : ℕ)
        × (map string_bytes words.now ≡ decimal n ∷ map string_bytes others.now)
        × (1 ≤ n) × (n ≤ most) × (place.old ≡ None) × (place.new ≡ Some n)) }
    ensures usage { OnErr result ((n : ℕ) (others : List (List ℕ))
        → map string_bytes words.now ≡ decimal n ∷ others → 1 ≤ n → n ≤ most
        → place.old ≢ None) }
{
    let [value, others @ ..] = words else {
        return Err(Usage);
    };
    if place.is_some() {
        return Err(Usage);
    }
    *place = Some(number(value.as_str(), 1, most)? as u32);
    Ok(others)
}

/// Sets what was not set before, and answers the words that follow.
fn set_once<'a>(place: &mut bool, words: &'a [String]) -> Result<&'a [String], Usage>
    ensures ok { IfOk result (λ others.
        (map string_bytes others.now ≡ map string_bytes words.now)
        × (place.old ≡ false) × (place.new ≡ true)) }
    ensures usage { OnErr result (place.old ≡ true) }
{
    if *place {
        return Err(Usage);
    }
    *place = true;
    Ok(words)
}
