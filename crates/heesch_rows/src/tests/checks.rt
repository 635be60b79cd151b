//! `heesch check`: whether a catalogue is valid, else its first invalid part.
use super::running::{all_run, written, written_over};
use heesch_app::Status;
use heesch_io::{MemorySource, NoMemory};
use heesch_made::{HOLED, TRIANGLE, same, tetrominoes};
use std::alloc::Global;
use std::test::Fail;

pub(crate) const CORONA: &str = "heesch 1 iamond 1 turns 20000 levels 1 domain 1 size 60000000
shape 1,1
verdict undecided levels 1
coronas 1
layer 0,0,-1 0,1,-1 1,0,-1 1,1,-1 1,2,-1 0,-1,0 0,1,0 1,0,0 1,1,0 0,-1,1 0,0,1 1,0,1
end 1
";

/// The catalogue of the heptomino with a hole, of version 2.
pub(crate) fn holed(alloc: Global) -> Result<String, NoMemory> {
    Ok(HOLED.replacen(alloc, "heesch 1", "heesch 2", 1)?)
}

const OVER_SIZE: &str = "heesch 1 iamond 1 turns 20000 levels 1 domain 1 size 11
shape 1,1
verdict undecided size 0 free 1
coronas 0
wall 1 size
end 1
";

const HEADER: &str = "heesch 1 square 4 turns 20000 levels 3 domain 4 size 60000000\n";

#[test]
fn valid_catalogues_are_valid(rt: HostRuntime) -> Result<(), Fail> {
    let alloc = rt.alloc();
    let all = tetrominoes(alloc, HEADER, &[0, 1, 2, 3, 4], "end 5\n")?;
    let at_size = CORONA.replacen(alloc, "60000000", "12", 1)?;
    let holed = holed(alloc)?;
    let rows = [
        ("check", TRIANGLE, Status::Done, "valid 1\n"),
        ("check", CORONA, Status::Done, "valid 1\n"),
        ("check", at_size.as_str(), Status::Done, "valid 1\n"),
        ("check", OVER_SIZE, Status::Done, "valid 1\n"),
        ("check", holed.as_str(), Status::Done, "valid 1\n"),
        ("check", all.as_str(), Status::Done, "valid 5\n"),
    ];
    all_run(&rt, alloc, &rows)
}

/// The tetrominoes of a catalogue, from 0, what stands behind them, and what is told.
const PARTS: [(&[usize], &str, &str); 9] = [
    (&[0, 2, 3, 4], "end 5\n", "invalid entry 2\n"),
    (&[1, 0, 2, 3, 4], "end 5\n", "invalid entry 1\n"),
    (&[0, 1, 2, 3], "end 5\n", "invalid end\n"),
    (&[0, 1, 2, 3], "end 4\n", "invalid end\n"),
    (&[0, 1, 2, 3, 4, 4], "end 6\n", "invalid entry 6\n"),
    (&[0, 1, 2, 3, 4], "end 5", "invalid end\n"),
    (&[0, 1, 2, 3, 4], "end 5\nend 5\n", "invalid end\n"),
    (&[0, 1, 2, 3, 4], "en", "invalid entry 5\n"),
    (&[0, 1], "shape ", "invalid entry 3\n"),
];

#[test]
fn the_first_invalid_part_is_told(rt: HostRuntime) -> Result<(), Fail> {
    let alloc = rt.alloc();
    for (numbers, end, line) in &PARTS {
        let text = tetrominoes(alloc, HEADER, numbers, end)?;
        all_run(
            &rt,
            alloc,
            &[("check", text.as_str(), Status::Invalid, *line)],
        )?;
    }
    Ok(())
}

/// Words of catalogues with small limits, and what is told of what they write.
const WRITTEN: [(&str, &str); 2] = [
    (
        "classify square 7 --domain 1 --levels 1 --turns 1",
        "valid 108\n",
    ),
    (
        "classify kite 3 --domain 6 --levels 1 --turns 200",
        "valid 4\n",
    ),
];

/// By several workers too.
#[test]
fn what_classify_wrote_is_valid(rt: HostRuntime) -> Result<(), Fail> {
    let alloc = rt.alloc();
    for (words, line) in &WRITTEN {
        let text = written(&rt, alloc, words)?;
        let source = MemorySource::new(text, 4096, Vec::new(alloc));
        let told = written_over(&rt, alloc, "check --workers 2", source)?;
        same(words, told.as_slice(), line.as_bytes())?;
    }
    Ok(())
}
