//! Rows of the commands that were worked by hand.
use super::FIVE_TETROMINOES;
use super::running::{Row, all_run, written};
use heesch_app::Status;
use heesch_made::{BRIEF_TETROMINOES, same};
use std::test::Fail;

/// The list of the five tetrominoes, each with its plain tiling.
const PLAIN_TETROMINOES: &str = "0,0 1,0 2,0 3,0 translation 4 1 0
0,0 1,0 2,0 0,1 translation 4 1 1
0,0 1,0 2,0 1,1 translation 4 1 2
0,0 1,0 0,1 1,1 translation 2 2 0
0,0 1,0 1,1 2,1 translation 2 2 0
";

/// The brief catalogue of the single kite.
const ONE_KITE: &str = "brief 2 kite 1 turns 20000 levels 3 domain 6 size 60000000
shape 1,1
verdict tiles periodic domain 6 classes 1
end 1
";

/// The one corona of the single square.
const SQUARE_CORONA: &str =
    "coronas 1\nlayer 0,-1,-1 0,0,-1 0,1,-1 0,-1,0 0,1,0 0,-1,1 0,0,1 0,1,1\n";

/// Rows of lists, plain tilings, catalogues of a size, of given shapes, outer numbers, formulas and answers.
const ROWS: [Row; 39] = [
    ("list square 1", "", Status::Done, "0,0\n"),
    ("list square 4", "", Status::Done, FIVE_TETROMINOES),
    (
        "list square 4 --workers 3",
        "",
        Status::Done,
        FIVE_TETROMINOES,
    ),
    (
        "list hex 3",
        "",
        Status::Done,
        "0,0 1,0 2,0\n0,0 1,0 0,1\n0,0 1,0 1,1\n",
    ),
    ("list iamond 1", "", Status::Done, "1,1\n"),
    ("list iamond 3", "", Status::Done, "1,1 4,1 2,2\n"),
    ("list kite 1", "", Status::Done, "1,1\n"),
    ("list kite 2", "", Status::Done, "1,1 4,1\n4,1 5,2\n"),
    (
        "plain square 3",
        "",
        Status::Done,
        "0,0 1,0 2,0 translation 3 1 0\n0,0 1,0 0,1 translation 3 1 1\n",
    ),
    (
        "plain square 4 --workers 2",
        "",
        Status::Done,
        PLAIN_TETROMINOES,
    ),
    (
        "plain iamond 1",
        "",
        Status::Done,
        "1,1 halfturn 1 1 0 0 0\n",
    ),
    (
        "plain iamond 3",
        "",
        Status::Done,
        "1,1 4,1 2,2 halfturn 3 1 0 0 0\n",
    ),
    ("plain kite 1", "", Status::Done, "1,1 none\n"),
    (
        "classify iamond 1",
        "",
        Status::Done,
        "heesch 2 iamond 1 turns 20000 levels 3 domain 4 size 60000000\nshape 1,1\nverdict tiles halfturn domain 2 classes 1\nlattice 1 1 0\ntile 0 0 0 class 1 by 0 0 0\ntile 3 0 0 class 1 by 1 0 -1\nend 1\n",
    ),
    (
        "classify iamond 1 --domain 1 --levels 1 --version 1",
        "",
        Status::Done,
        "heesch 1 iamond 1 turns 20000 levels 1 domain 1 size 60000000\nshape 1,1\nverdict undecided levels 1\ncoronas 1\nlayer 0,0,-1 0,1,-1 1,0,-1 1,1,-1 1,2,-1 0,-1,0 0,1,0 1,0,0 1,1,0 0,-1,1 0,0,1 1,0,1\nend 1\n",
    ),
    (
        "classify iamond 1 --size 12 --domain 1 --levels 1",
        "",
        Status::Done,
        "heesch 2 iamond 1 turns 20000 levels 1 domain 1 size 12\nshape 1,1\nverdict undecided levels 1\ncoronas 1\nlayer 0,0,-1 0,1,-1 1,0,-1 1,1,-1 1,2,-1 0,-1,0 0,1,0 1,0,0 1,1,0 0,-1,1 0,0,1 1,0,1\nend 1\n",
    ),
    (
        "classify iamond 1 --size 11 --domain 1 --levels 1",
        "",
        Status::Done,
        "heesch 2 iamond 1 turns 20000 levels 1 domain 1 size 11\nshape 1,1\nverdict undecided size 0 free 1\ncoronas 0\nwall 1 size\nend 1\n",
    ),
    (
        "classify square 4 --brief",
        "",
        Status::Done,
        BRIEF_TETROMINOES,
    ),
    (
        "classify kite 1 --domain 6 --brief",
        "",
        Status::Done,
        ONE_KITE,
    ),
    (
        "classify square given",
        "0,0 1,0 2,0 0,1 2,1 0,2 1,2",
        Status::Done,
        "heesch 2 square given turns 20000 levels 3 domain 4 size 60000000\nshape 0,0 1,0 2,0 0,1 2,1 0,2 1,2\nverdict heesch 0 nontiler 1\ncoronas 0\nwall 1 refuted\nempty 9\nbare 1 same\nend 1\n",
    ),
    (
        "classify square given --brief",
        "0,0 1,0 2,0 0,1 2,1 0,2 1,2\n",
        Status::Done,
        "brief 2 square given turns 20000 levels 3 domain 4 size 60000000\nshape 0,0 1,0 2,0 0,1 2,1 0,2 1,2\nverdict heesch 0 nontiler 1\nend 1\n",
    ),
    (
        "classify hex given",
        "1,0 2,0 0,1 2,1 0,2 1,2\n",
        Status::Done,
        "heesch 2 hex given turns 20000 levels 3 domain 4 size 60000000\nshape 1,0 2,0 0,1 2,1 0,2 1,2\nverdict heesch 0 nontiler 1\ncoronas 0\nwall 1 refuted\nempty 7\nbare 1 same\nend 1\n",
    ),
    (
        "classify square given",
        "5,5 5,6 6,6 7,6 7,5\n",
        Status::Done,
        "heesch 2 square given turns 20000 levels 3 domain 4 size 60000000\nshape 0,0 1,0 2,0 0,1 2,1\nverdict tiles halfturn domain 2 classes 1\nlattice 10 1 3\ntile 0 0 0 class 1 by 0 0 0\ntile 2 5 0 class 1 by 2 5 0\nend 1\n",
    ),
    (
        "classify square given",
        "",
        Status::Done,
        "heesch 2 square given turns 20000 levels 3 domain 4 size 60000000\nend 0\n",
    ),
    // A tiling and an open Heesch number have no outer number; a hole that no tile fills leaves none more, by the
    // wall's own refutation; and a list text has the faults that `classify` tells.
    (
        "outer square given",
        "0,0 1,0 2,0 0,1 2,1 0,2 1,2\n",
        Status::Done,
        "shape 0,0 1,0 2,0 0,1 2,1 0,2 1,2\nverdict heesch 0 nontiler 1\ncoronas 0\nwall 1 refuted\nempty 9\nbare 1 same\nhc 0\nhh 0\nempty 9\nend 1\n",
    ),
    (
        "outer square given",
        "0,0\n",
        Status::Done,
        "shape 0,0\nverdict tiles translation domain 1 classes 1\nlattice 1 1 0\ntile 0 0 0 class 1 by 0 0 0\nhh tiles\nend 1\n",
    ),
    (
        "outer iamond 1 --domain 1 --levels 1",
        "",
        Status::Done,
        "shape 1,1\nverdict undecided levels 1\ncoronas 1\nlayer 0,0,-1 0,1,-1 1,0,-1 1,1,-1 1,2,-1 0,-1,0 0,1,0 1,0,0 1,1,0 0,-1,1 0,0,1 1,0,1\nhh undecided\nend 1\n",
    ),
    (
        "outer square given",
        "0,0\n0,0 2,0\n",
        Status::BadInput,
        "bad input 2 5\n",
    ),
    (
        "formula square 1",
        "0,0",
        Status::Done,
        "p cnf 8 8\n1 0\n2 0\n3 0\n4 0\n5 0\n6 0\n7 0\n8 0\n",
    ),
    (
        "formula square 1 --size 7",
        "0,0",
        Status::BadInput,
        "bad input 1 14\n",
    ),
    ("formula square 1", "", Status::BadInput, "bad input 1 13\n"),
    (
        "formula square 1",
        "0,0\n0,0",
        Status::BadInput,
        "bad input 2 13\n",
    ),
    ("formula kite 1 --version 1", "1,1", Status::Usage, ""),
    (
        "answer square 1",
        "0,0\ns SATISFIABLE\nv 1 2 3 4 5 6 7 8 0\n",
        Status::Done,
        SQUARE_CORONA,
    ),
    (
        "answer square 1",
        "0,0\nc by hand\ns SATISFIABLE\nv 1 2 3 4 5 6 7 8 0\n",
        Status::Done,
        SQUARE_CORONA,
    ),
    (
        "answer square 1",
        "0,0\ns SATISFIABLE\nv 1 0\n",
        Status::Done,
        "false 2\n",
    ),
    (
        "answer square 1",
        "0,0\ns SATISFIABLE\nv 9 0\n",
        Status::BadInput,
        "bad input 3 15\n",
    ),
    (
        "answer square 1",
        "0,0\ns SATISFIABLE\nv 1\n",
        Status::BadInput,
        "bad input 4 6\n",
    ),
    (
        "answer square 1",
        "0,0",
        Status::BadInput,
        "bad input 1 6\n",
    ),
];

#[test]
fn commands_write_what_was_worked_by_hand(rt: HostRuntime) -> Result<(), Fail> {
    all_run(&rt, rt.alloc(), &ROWS)
}

/// Words, and a line of what they write: an undecided verdict, and the plain tiling of a pentomino.
const LINES: [(&str, &str); 2] = [
    (
        "classify kite 1 --levels 1 --brief",
        "\nverdict undecided levels 1\n",
    ),
    (
        "plain square 5",
        "\n0,0 1,0 2,0 0,1 2,1 halfturn 10 1 3 5 0\n",
    ),
];

#[test]
fn texts_have_the_lines_worked_by_hand(rt: HostRuntime) -> Result<(), Fail> {
    for (line, part) in &LINES {
        let held = written(&rt, rt.alloc(), line)?;
        same(line, str::from_utf8(&held)?.contains(*part), true)?;
    }
    Ok(())
}
