//! Entries worked by hand, made of their lines and written again.
ghost use Rattle.std.specs.Prelude.{IfOk, IfSome};
ghost use Rattle.heesch_grammar.specs.Entries.{AreEntryLines};

use heesch_cert::{Kind, Verdict};
use heesch_grammar::{Place, Spot, brief_of, entry_of};
use heesch_io::NoMemory;
use heesch_line::read_line;
use heesch_made::{cells, same};
use heesch_text::{Line, write_entry};
use std::alloc::Global;
use std::collections::VecDeque;
use std::test::Fail;

const TILING: &str = "shape 1,1
verdict tiles halfturn domain 2 classes 1
lattice 1 1 0
tile 0 0 0 class 1 by 0 0 0
tile 3 0 0 class 1 by 1 0 -1
";

const ONE_CORONA: &str = "shape 1,1
verdict undecided levels 1
coronas 1
layer 0,0,-1 0,1,-1 1,0,-1 1,1,-1 1,2,-1 0,-1,0 0,1,0 1,0,0 1,1,0 0,-1,1 0,0,1 1,0,1
";

const TOO_LARGE: &str = "shape 1,1
verdict undecided size 0 free 1
coronas 0
wall 1 size
";

/// The triangle with its verdict and its lattice, before its tiles.
const UNTILED: &str = "shape 1,1
verdict tiles halfturn domain 2 classes 1
lattice 1 1 0
";

/// A refuted wall that ends with `spent`.
const SPENT: &str = "shape 1,1
verdict undecided levels 1
coronas 1
layer 0,0,-1
wall 2 refuted
learn 1 : 4 7
cut 1 : 1,1 : 2 5
spent
";

/// Between two entries, before any.
const START: Spot = Spot {
    shapes: 0,
    place: Place::Between,
};

/// Where these lines lead, if each of them may stand.
fn lead(brief: bool, lines: &[Line]) -> Option<Spot> {
    let mut spot = START;
    for line in lines {
        spot = spot.step(brief, line)?;
    }
    Some(spot)
}

/// These lines, where the machine takes them for those of one entry.
fn taken(alloc: Global, brief: bool, lines: Vec<Line>) -> Result<Option<VecDeque<Line>>, NoMemory>
    ensures { IfOk result (λ taken. IfSome taken (λ queue. AreEntryLines brief queue.items)) }
{
    let mut spot = START;
    let mut queue = VecDeque::new(alloc);
    for line in lines {
        let Some(next) = spot.step(brief, &line) else {
            return Ok(None);
        };
        spot = next;
        queue.push_back(line)?;
    }
    if !spot.place.is_whole() {
        return Ok(None);
    }
    if spot.shapes != 1 {
        return Ok(None);
    }
    Ok(Some(queue))
}

/// The heptomino with a hole.
const HOLED: &str = "shape 0,0 1,0 2,0 0,1 2,1 0,2 1,2
verdict heesch 0 nontiler 1
coronas 0
wall 1 refuted
empty 9
bare 1 same
";

/// A search with a line of every kind; not a true one.
const ALL_PARTS: &str = "shape 1,1
verdict undecided turns 1 bare 3
coronas 1
layer 0,0,-1
wall 2 refuted
learn 1 : 4 7
cut 1 : 1,1 : 2 5
empty 8
bare 3 refuted
empty 3
open 2
layer 1,2,3
layer 2,0,0 3,0,1
triple 2 1 1 spent
learn 2 : 1
spent
triple 3 1 0 refuted
empty 1 2
";

/// The lines of a text.
fn lines_of(alloc: Global, text: &str) -> Result<Vec<Line>, Fail> {
    let mut lines = Vec::new(alloc);
    for line in text.lines() {
        lines.push(read_line(alloc, line.as_bytes())?)?;
    }
    Ok(lines)
}

/// The text of the entry of the lines of a text; nothing where the machine refuses them.
fn rewritten(alloc: Global, text: &str) -> Result<Vec<u8>, Fail> {
    let mut out = Vec::new(alloc);
    let lines = lines_of(alloc, text)?;
    let Some(lines) = taken(alloc, false, lines)? else {
        return Ok(out);
    };
    let entry = entry_of(alloc, lines)?;
    write_entry(&entry, &mut out)?;
    Ok(out)
}

/// The entries of rows 10 to 13 of the worked catalogues, and one with every part of a search, have the texts of their
/// lines.
#[test]
fn entries_are_made_of_their_lines(rt: HostRuntime) -> Result<(), Fail> {
    for text in [TILING, ONE_CORONA, TOO_LARGE, HOLED, ALL_PARTS] {
        let out = rewritten(rt.alloc(), text)?;
        same(text, out.as_slice(), text.as_bytes())?;
    }
    Ok(())
}

/// Of an entry one part, and another in its place: the numbers behind `wall` and `bare` are those of earlier lines.
const ALTERED: [(&str, &str, &str); 3] = [
    (
        HOLED,
        "wall 1 refuted\nempty 9\nbare 1",
        "wall 2 refuted\nempty 9\nbare 2",
    ),
    (HOLED, "bare 1 same", "bare 2 same"),
    (ALL_PARTS, "bare 3 refuted", "bare 2 refuted"),
];

#[test]
fn numbers_out_of_place_are_refused(rt: HostRuntime) -> Result<(), Fail> {
    for (text, old, new) in &ALTERED {
        let altered = text.replacen(rt.alloc(), old, new, 1)?;
        same(new, rewritten(rt.alloc(), &altered)?.len(), 0)?;
    }
    Ok(())
}

/// Where the lines of a text lead, if each of them may stand.
fn lead_of(alloc: Global, brief: bool, text: &str) -> Result<Option<Spot>, Fail> {
    let lines = lines_of(alloc, text)?;
    Ok(lead(brief, lines.as_slice()))
}

/// A tiling has a tile, a refutation doesn't end with `spent`, and a brief text has no evidence.
#[test]
fn lines_out_of_place_are_refused(rt: HostRuntime) -> Result<(), Fail> {
    same("no tile", rewritten(rt.alloc(), UNTILED)?.len(), 0)?;
    same("spent", lead_of(rt.alloc(), false, SPENT)?, None)?;
    same("in brief", lead_of(rt.alloc(), true, UNTILED)?, None)
}

const BRIEF: &str = "shape 1,1\nverdict tiles halfturn domain 2 classes 1\n";

/// An entry of a brief text has its cells and its verdict.
#[test]
fn brief_entries_are_their_two_lines(rt: HostRuntime) -> Result<(), Fail> {
    let lines = lines_of(rt.alloc(), BRIEF)?;
    let Some(lines) = taken(rt.alloc(), true, lines)? else {
        return Err(Fail::new("the lines are those of an entry"));
    };
    let (cells, verdict) = brief_of(lines);
    let wanted = Verdict::Tiles {
        kind: Kind::HalfTurn,
        domain: 2,
        classes: 1,
    };
    same("cells", cells.as_slice(), cells![1, 1].as_slice())?;
    same("verdict", verdict, wanted)
}

/// Behind the last line, which counts so many shapes.
macro_rules! ended {
    ($shapes:expr) => {
        Spot {
            shapes: $shapes,
            place: Place::Ended,
        }
    };
}

/// Between two entries, behind as many shapes as can be counted.
const FULL: Spot = Spot {
    shapes: u32::MAX,
    place: Place::Between,
};

/// A spot, a count of a last line there, and where it leads.
const ENDS: [(&str, Spot, u32, Option<Spot>); 4] = [
    ("none", START, 0, Some(ended!(0))),
    ("one too many", START, 1, None),
    ("behind the end", ended!(0), 0, None),
    ("as many as can be", FULL, u32::MAX, Some(ended!(u32::MAX))),
];

/// The last line has the number of shapes, and nothing follows it.
#[test]
fn the_last_line_counts(rt: HostRuntime) -> Result<(), Fail> {
    for (row, spot, count, next) in &ENDS {
        same(row, spot.step(true, &Line::End { count: *count }), *next)?;
        same(row, spot.step(false, &Line::End { count: *count }), *next)?;
    }
    let shape = read_line(rt.alloc(), b"shape 1,1")?;
    same("one more shape", FULL.step(true, &shape), None)
}
