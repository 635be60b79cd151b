//! `heesch plain`: how many shapes have which plain tilings.
use super::running::written;
use heesch_made::same;
use std::test::Fail;

/// How many lines of a text have the word.
fn lines_with(text: &str, word: &str) -> usize {
    text.lines().filter(|line| line.contains(word)).count()
}

/// Words, and how many shapes tile by translations and by half-turns.
const COUNTS: [(&str, usize, usize); 6] = [
    ("plain square 1", 1, 0),
    ("plain square 2", 1, 0),
    ("plain square 3", 2, 0),
    ("plain square 4", 5, 0),
    ("plain square 5", 9, 3),
    ("plain square 6", 24, 11),
];

#[test]
fn every_polyomino_of_at_most_six_cells_has_a_plain_tiling(rt: HostRuntime) -> Result<(), Fail> {
    for (line, translations, half_turns) in &COUNTS {
        let held = written(&rt, rt.alloc(), line)?;
        let text = str::from_utf8(&held)?;
        let counts = [
            lines_with(text, " translation "),
            lines_with(text, " halfturn "),
            lines_with(text, " none"),
        ];
        same(line, counts, [*translations, *half_turns, 0])?;
    }
    Ok(())
}
