//! `heesch check outer`: whether an outer text is valid, else its first invalid part.
use super::running::{Row, all_run, written};
use heesch_app::Status;
use std::alloc::Global;
use std::test::Fail;
use std::thread::Threads;

/// The record of a single square, and that of a heptomino with a hole that no tile fills: its outer number is 0, by the
/// wall's own refutation.
const RECORDS: &str = "shape 0,0
verdict tiles translation domain 1 classes 1
lattice 1 1 0
tile 0 0 0 class 1 by 0 0 0
hh tiles
shape 0,0 1,0 2,0 0,1 2,1 0,2 1,2
verdict heesch 0 nontiler 1
coronas 0
wall 1 refuted
empty 9
bare 1 same
hc 0
hh 0
empty 9
end 2
";

/// A part of the records, another in its place, how `check outer` ends, and what it tells.
const ALTERED: [(&str, &str, Status, &str); 10] = [
    ("hc 0", "hc 0", Status::Done, "valid 2\n"),
    ("hc 0", "hc 1", Status::Invalid, "invalid entry 2\n"),
    ("hh 0", "hh 1", Status::Invalid, "invalid entry 2\n"),
    (
        "hh 0\nempty 9\n",
        "hh tiles\n",
        Status::Invalid,
        "invalid entry 2\n",
    ),
    (
        "hc 0\nhh 0\nempty 9\n",
        "",
        Status::Invalid,
        "invalid entry 2\n",
    ),
    ("hh tiles\n", "", Status::Invalid, "invalid entry 1\n"),
    (
        "hh tiles\n",
        "hh undecided\n",
        Status::Invalid,
        "invalid entry 1\n",
    ),
    ("end 2\n", "", Status::Invalid, "invalid end\n"),
    ("end 2\n", "end 3\n", Status::Invalid, "invalid end\n"),
    (
        "end 2\n",
        "end 2\nend 2\n",
        Status::Invalid,
        "invalid end\n",
    ),
];

/// `check outer` over the records with the new part for the old one ends so, and tells so.
fn is_judged<T: Threads + Sync>(
    rt: &T,
    alloc: Global,
    part: (&str, &str),
    status: Status,
    told: &str,
) -> Result<(), Fail> {
    let altered = RECORDS.replacen(alloc, part.0, part.1, 1)?;
    all_run(
        rt,
        alloc,
        &[("check outer square given", altered.as_str(), status, told)],
    )
}

#[test]
fn records_are_judged_in_order(rt: HostRuntime) -> Result<(), Fail> {
    for (old, new, status, told) in &ALTERED {
        is_judged(&rt, rt.alloc(), (*old, *new), *status, told)?;
    }
    Ok(())
}

/// The records of a size have to be all, and in the order of its list.
#[test]
fn what_outer_wrote_is_valid_under_its_own_words(rt: HostRuntime) -> Result<(), Fail> {
    let held = written(&rt, rt.alloc(), "outer square 4 --workers 2")?;
    let text = str::from_utf8(&held)?;
    let rows = [
        (
            "check outer square 4 --workers 2",
            text,
            Status::Done,
            "valid 5\n",
        ),
        ("check outer square given", text, Status::Done, "valid 5\n"),
        (
            "check outer square 3",
            text,
            Status::Invalid,
            "invalid entry 1\n",
        ),
    ];
    all_run(&rt, rt.alloc(), &rows)
}

/// Texts without a record, and words that are refused.
const ROWS: [Row; 4] = [
    (
        "check outer square 1",
        "end 0\n",
        Status::Invalid,
        "invalid end\n",
    ),
    (
        "check outer square given",
        "end 0\n",
        Status::Done,
        "valid 0\n",
    ),
    ("check outer square", "", Status::Usage, ""),
    ("check outer square 4 --brief", "", Status::Usage, ""),
];

#[test]
fn texts_without_a_record_and_other_words(rt: HostRuntime) -> Result<(), Fail> {
    all_run(&rt, rt.alloc(), &ROWS)
}
