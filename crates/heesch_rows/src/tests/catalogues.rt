//! `heesch classify`: the catalogue of a size.
use super::running::written;
use heesch_made::same;
use std::test::Fail;

/// The lines of a text that a brief one has too.
fn is_brief_line(line: &str) -> bool {
    ["shape ", "verdict ", "end "]
        .iter()
        .any(|word| line.starts_with(*word))
}

/// Words of the full catalogue, of the same by four workers, and of the brief one.
const WORDS: [(&str, &str, &str); 2] = [
    (
        "classify square 7 --domain 1 --levels 1 --turns 1",
        "classify square 7 --domain 1 --levels 1 --turns 1 --workers 4",
        "classify square 7 --domain 1 --levels 1 --turns 1 --brief",
    ),
    (
        "classify square 7 --domain 2 --levels 1 --turns 200",
        "classify square 7 --domain 2 --levels 1 --turns 200 --workers 4",
        "classify square 7 --domain 2 --levels 1 --turns 200 --brief",
    ),
];

/// Whether the brief text has the brief lines of the full one behind its header, and its end.
fn is_brief_of(brief: &str, full: &str) -> bool {
    let shown = full.lines().filter(|line| is_brief_line(line));
    brief.lines().skip(1).eq(shown) && brief.ends_with("end 108\n")
}

#[test]
fn full_texts_have_the_brief_lines_for_all_workers(rt: HostRuntime) -> Result<(), Fail> {
    let alloc = rt.alloc();
    for (words, by_four, in_brief) in &WORDS {
        let full = written(&rt, alloc, words)?;
        let four = written(&rt, alloc, by_four)?;
        same(words, four.as_slice(), full.as_slice())?;
        let brief = written(&rt, alloc, in_brief)?;
        same(
            words,
            is_brief_of(str::from_utf8(&brief)?, str::from_utf8(&full)?),
            true,
        )?;
    }
    Ok(())
}

/// How many lines of a text begin with the words.
fn lines_with(text: &str, words: &str) -> usize {
    text.lines().filter(|line| line.starts_with(words)).count()
}

/// Verdicts on heptominoes, and how many there are.
const VERDICTS: [(&str, usize); 6] = [
    ("verdict tiles translation ", 41),
    ("verdict tiles halfturn ", 60),
    ("verdict tiles periodic ", 3),
    ("verdict heesch 0 ", 2),
    ("verdict heesch 1 ", 2),
    ("verdict undecided ", 0),
];

#[test]
fn heptominoes_have_the_known_verdicts(rt: HostRuntime) -> Result<(), Fail> {
    let held = written(&rt, rt.alloc(), "classify square 7 --brief --workers 4")?;
    let text = str::from_utf8(&held)?;
    for (words, count) in &VERDICTS {
        same(words, lines_with(text, words), *count)?;
    }
    Ok(())
}
