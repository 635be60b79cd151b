//! Tallies worked by hand.
use heesch_cert::{Kind, Phase, Verdict};
use heesch_grid::Square;
use heesch_io::NoMemory;
use heesch_made::{cells, same, shape_of};
use heesch_table::Tally;
use std::alloc::Global;
use std::test::Fail;

/// The text of the tally of these shapes, each with whether it has a hole; none for more than 100.
fn text_of(alloc: Global, found: &[(bool, Verdict)]) -> Result<Vec<u8>, NoMemory> {
    if found.len() > 100 {
        return Ok(Vec::new(alloc));
    }
    let mut tally = Tally::new(alloc);
    for (holed, verdict) in found {
        tally.add(*holed, verdict)?;
    }
    let mut text = Vec::new(alloc);
    tally.write(&mut text)?;
    Ok(text)
}

macro_rules! tiling {
    ($kind:ident, $classes:literal) => {
        (
            false,
            Verdict::Tiles {
                kind: Kind::$kind,
                domain: 2,
                classes: $classes,
            },
        )
    };
}

macro_rules! heesch {
    ($holed:literal, $h:expr) => {
        ($holed, Verdict::Heesch { h: $h, m: 1 })
    };
}

/// The free tetrominoes all tile by translations.
const TETROMINOES: &str = "shapes 5
holed 0
translation 5
halfturn 0
periodic 0
isohedral 5
undecided levels 0
undecided holes 0
undecided turns 0
undecided size 0
";

/// The heptomino with a hole has no corona.
const HOLED: &str = "shapes 1
holed 1
translation 0
halfturn 0
periodic 0
isohedral 0
heesch 0 1
undecided levels 0
undecided holes 0
undecided turns 0
undecided size 0
";

/// Of every kind of verdict, with Heesch numbers that don't come in order and that leave some out.
const ALL_KINDS: [(bool, Verdict); 13] = [
    heesch!(false, 4),
    tiling!(Periodic, 3),
    heesch!(true, 0),
    tiling!(HalfTurn, 1),
    heesch!(false, u32::MAX),
    (false, Verdict::Levels { h: 3 }),
    heesch!(true, 1),
    (false, Verdict::Holes { h: 1 }),
    heesch!(false, 4),
    (
        false,
        Verdict::Turns {
            h: 1,
            phase: Phase::Free,
            at: 2,
        },
    ),
    (
        true,
        Verdict::Turns {
            h: 0,
            phase: Phase::Bare,
            at: 1,
        },
    ),
    (
        false,
        Verdict::Size {
            h: 2,
            phase: Phase::Free,
            at: 3,
        },
    ),
    tiling!(HalfTurn, 2),
];

const ALL_KINDS_TEXT: &str = "shapes 13
holed 3
translation 0
halfturn 2
periodic 1
isohedral 1
heesch 0 1
heesch 1 1
heesch 4 2
heesch 4294967295 1
undecided levels 1
undecided holes 1
undecided turns 2
undecided size 1
";

/// What was found, and the text of its tally.
const TALLIES: [(&str, &[(bool, Verdict)], &str); 3] = [
    ("tetrominoes", &[tiling!(Translation, 1); 5], TETROMINOES),
    ("a hole", &[heesch!(true, 0)], HOLED),
    ("all kinds", &ALL_KINDS, ALL_KINDS_TEXT),
];

#[test]
fn tallies_have_their_texts(rt: HostRuntime) -> Result<(), Fail> {
    for (row, found, wanted) in &TALLIES {
        let text = text_of(rt.alloc(), found)?;
        same(row, text.as_slice(), wanted.as_bytes())?;
    }
    Ok(())
}

/// The text of the tally of two shapes: seven squares around an eighth, and a single one.
fn text_of_two(alloc: Global) -> Result<Vec<u8>, Fail> {
    let ring = shape_of::<Square>(&cells![0, 0; 1, 0; 2, 0; 0, 1; 2, 1; 0, 2; 1, 2])?;
    let square = shape_of::<Square>(&cells![-5, 5])?;
    let mut tally = Tally::new(alloc);
    tally.add_shape(alloc, &ring, &Verdict::Heesch { h: 0, m: 1 })?;
    tally.add_shape(alloc, &square, &tiling!(Translation, 1).1)?;
    let mut text = Vec::new(alloc);
    tally.write(&mut text)?;
    Ok(text)
}

/// The first has a hole.
#[test]
fn holes_of_shapes(rt: HostRuntime) -> Result<(), Fail> {
    let text = text_of_two(rt.alloc())?;
    let front = b"shapes 2\nholed 1\ntranslation 1\n";
    same("front", text.as_slice().starts_with(front), true)
}
