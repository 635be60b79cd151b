//! Command lines, and what they ask for.
use heesch_cert::{Limits, Subject};
use heesch_cnf::Version;
use heesch_grid::GridName;
use heesch_made::{LIMITS, same, words_of};
use heesch_words::{Request, Usage, parse};
use std::test::Fail;

/// The limits that hold where no word says otherwise.
const USUAL: Limits = Limits {
    version: Version::Two,
    ..LIMITS
};

const LEAST: Limits = Limits {
    levels: 1,
    domain: 1,
    ..LIMITS
};

const OTHER: Limits = Limits {
    turns: 50,
    levels: 6,
    domain: 12,
    size: 12,
    version: Version::Two,
};

const LONGEST: Limits = Limits {
    turns: 1_000_000,
    ..USUAL
};

const NARROW: Limits = Limits {
    turns: 200,
    levels: 1,
    domain: 2,
    ..LIMITS
};

macro_rules! list {
    ($grid:ident, $n:literal, $workers:literal) => {
        Request::List {
            grid: GridName::$grid,
            n: $n,
            workers: $workers,
        }
    };
}

macro_rules! classify {
    ($n:literal, $limits:ident, $workers:literal, $brief:literal) => {
        Request::Classify {
            grid: GridName::Iamond,
            subject: Subject::Size { n: $n },
            limits: $limits,
            workers: $workers,
            brief: $brief,
        }
    };
}

macro_rules! sample {
    ($n:literal, $count:literal, $seed:literal, $workers:literal) => {
        Request::Sample {
            grid: GridName::Square,
            n: $n,
            count: $count,
            seed: $seed,
            limits: NARROW,
            workers: $workers,
        }
    };
}

macro_rules! outer {
    ($subject:expr, $workers:literal) => {
        Request::Outer {
            grid: GridName::Square,
            subject: $subject,
            limits: NARROW,
            workers: $workers,
        }
    };
}

/// A formula, or the answer to one, which takes the same words.
macro_rules! exchange {
    ($form:ident, $grid:ident, $level:literal, $size:literal, $version:ident) => {
        Request::$form {
            grid: GridName::$grid,
            level: $level,
            size: $size,
            version: Version::$version,
        }
    };
}

/// Words, and what they ask for. Both forms of a formula take the same words.
const WORDS: [(&str, Request); 28] = [
    ("list square 4", list!(Square, 4, 1)),
    ("list square 14 --workers 64", list!(Square, 14, 64)),
    ("list hex 12 --workers 1", list!(Hex, 12, 1)),
    ("list iamond 18", list!(Iamond, 18, 1)),
    ("list kite 10", list!(Kite, 10, 1)),
    (
        "plain hex 7 --workers 2",
        Request::Plain {
            grid: GridName::Hex,
            n: 7,
            workers: 2,
        },
    ),
    ("classify iamond 18", classify!(18, USUAL, 1, false)),
    (
        "classify iamond 1 --brief --version 2",
        classify!(1, USUAL, 1, true),
    ),
    (
        "classify iamond 15 --domain 1 --version 1 --levels 1",
        classify!(15, LEAST, 1, false),
    ),
    (
        "classify iamond 1 --size 12 --brief --turns 50 --levels 6 --workers 4 --domain 12",
        classify!(1, OTHER, 4, true),
    ),
    (
        "classify iamond 16 --turns 1000000 --size 60000000",
        classify!(16, LONGEST, 1, false),
    ),
    (
        "classify square given --brief --turns 200 --levels 1 --domain 2 --version 1",
        Request::Classify {
            grid: GridName::Square,
            subject: Subject::Given,
            limits: NARROW,
            workers: 1,
            brief: true,
        },
    ),
    ("check", Request::Check { workers: 1 }),
    ("check --workers 64", Request::Check { workers: 64 }),
    ("table", Request::Table),
    (
        "sample square 8 40 1 --domain 2 --levels 1 --turns 200 --version 1",
        sample!(8, 40, 1, 1),
    ),
    (
        "sample square 32 1000 18446744073709551615 --workers 4 --domain 2 --levels 1 --turns 200 --version 1",
        sample!(32, 1_000, 18_446_744_073_709_551_615, 4),
    ),
    (
        "sample square 1 1 0 --turns 200 --levels 1 --domain 2 --version 1",
        sample!(1, 1, 0, 1),
    ),
    (
        "share square 12 2 1000 --turns 200 --levels 1 --domain 2 --version 1 --workers 3",
        Request::Share {
            grid: GridName::Square,
            n: 12,
            i: 2,
            k: 1_000,
            limits: NARROW,
            workers: 3,
        },
    ),
    ("join", Request::Join),
    (
        "outer square given --turns 200 --levels 1 --domain 2 --version 1",
        outer!(Subject::Given, 1),
    ),
    (
        "outer square 12 --workers 64 --turns 200 --levels 1 --domain 2 --version 1",
        outer!(Subject::Size { n: 12 }, 64),
    ),
    (
        "formula square 1",
        exchange!(Formula, Square, 1, 60_000_000, Two),
    ),
    (
        "answer square 1",
        exchange!(Answer, Square, 1, 60_000_000, Two),
    ),
    (
        "formula kite 6 --size 1",
        exchange!(Formula, Kite, 6, 1, Two),
    ),
    ("answer kite 6 --size 1", exchange!(Answer, Kite, 6, 1, Two)),
    (
        "formula hex 2 --version 1 --size 60000000",
        exchange!(Formula, Hex, 2, 60_000_000, One),
    ),
    (
        "answer hex 2 --version 1 --size 60000000",
        exchange!(Answer, Hex, 2, 60_000_000, One),
    ),
];

#[test]
fn words_ask_for_what_they_say(rt: HostRuntime) -> Result<(), Fail> {
    for (line, request) in &WORDS {
        let words = words_of(rt.alloc(), line)?;
        same(line, parse(&words), Ok(*request))?;
    }
    Ok(())
}

/// Words that ask for nothing.
const OTHER_WORDS: [&str; 98] = [
    "",
    "list",
    "list square",
    "list square 0",
    "list square 15",
    "list square 04",
    "list square +4",
    "list Square 4",
    "list hex 13",
    "list iamond 19",
    "list kite 11",
    "list square 4 5",
    "plain",
    "plain square 15",
    "list square 4 --workers",
    "list square 4 --workers 0",
    "list square 4 --workers 65",
    "list square 4 --workers 2 --workers 2",
    "list --workers 2 square 4",
    "list square 4 --brief",
    "plain square 4 --levels 2",
    "classify square 15",
    "classify square 13 --version 1",
    "classify hex 11 --brief --version 1",
    "classify iamond 16 --version 1",
    "classify kite 1 --version 1",
    "classify kite given --version 1",
    "classify square 4 --version",
    "classify square 4 --version 0",
    "classify square 4 --version 3",
    "classify square 4 --version 02",
    "classify square 4 --version 1 --version 1",
    "list square 3 --version 2",
    "plain square 3 --version 1",
    "check --version 1",
    "table --version 2",
    "sample square 8 40 1 --version 3",
    "--version",
    "classify square 4 --turns 1000001",
    "classify square 4 --levels 7",
    "classify square 4 --domain 13",
    "classify square 4 --size 60000001",
    "classify square 4 --size",
    "classify square 4 --brief 1",
    "classify square 4 --brief --turns 5 --brief",
    "classify square 4 --levels 2 --levels 2",
    "classify square",
    "classify square Given",
    "classify given",
    "classify square given 4",
    "check --brief",
    "check square",
    "table --brief",
    "table --workers 1",
    "sample square 8 40",
    "sample square 33 40 1",
    "sample square 0 40 1",
    "sample square 8 1001 1",
    "sample square 8 40 18446744073709551616",
    "sample square 8 40 01",
    "sample square 8 40 1 --brief",
    "sample kite 8 40 1 --version 1",
    "formula",
    "formula square",
    "formula square 0",
    "formula square 7",
    "formula square 1 1",
    "formula square 1 --turns 5",
    "formula square 1 --workers 1",
    "formula square 1 --size 0",
    "formula square 1 --version 3",
    "formula kite 1 --version 1",
    "answer",
    "answer square 01",
    "answer square 2 --levels 2",
    "answer square 2 --domain 2",
    "answer square 2 --brief",
    "answer kite 2 --size 5 --version 1",
    "share square 4 1",
    "share square 4 0 2",
    "share square 4 3 2",
    "share square 4 1 1001",
    "share square 4 1 2 --brief",
    "share square 13 1 2 --version 1",
    "share square given 1 2",
    "join 2",
    "join --workers 2",
    "outer",
    "outer square",
    "outer square 4 --brief",
    "outer square given --brief",
    "outer square 0",
    "outer square 15",
    "outer square 13 --version 1",
    "outer kite given --version 1",
    "outer given",
    "outer square 4 5",
    "outer square 4 --turns 0",
];

#[test]
fn other_words_are_refused(rt: HostRuntime) -> Result<(), Fail> {
    for line in &OTHER_WORDS {
        let words = words_of(rt.alloc(), line)?;
        same(line, parse(&words), Err(Usage))?;
    }
    Ok(())
}
