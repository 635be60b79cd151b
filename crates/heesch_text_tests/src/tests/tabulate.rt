//! Tallies of small catalogues, worked by hand.
use super::made::source_of;
use heesch_io::IoStop;
use heesch_made::same;
use heesch_table::{Tabulated, tabulate};
use std::alloc::Global;
use std::test::Fail;

const HEADER: &str = "brief 1 square given turns 20000 levels 3 domain 4 size 60000000\n";

const TWO: &str = "shape 0,0
verdict tiles translation domain 1 classes 1
shape 0,0 1,0 2,0 0,1 2,1 0,2 1,2
verdict heesch 0 nontiler 1
end 2
";

const TALLY: &str = "shapes 2
holed 1
translation 1
halfturn 0
periodic 0
isohedral 1
heesch 0 1
undecided levels 0
undecided holes 0
undecided turns 0
undecided size 0
";

/// The second entry's cells don't hang together.
const APART: &str = "shape 0,0
verdict tiles translation domain 1 classes 1
shape 0,0 2,0
verdict heesch 0 nontiler 1
end 2
";

/// The same without its verdict.
const CUT: &str = "shape 0,0
verdict tiles translation domain 1 classes 1
shape 0,0 2,0
verdict none
";

/// What is answered of two texts, one behind the other, read seven bytes at a time.
fn answer(alloc: Global, front: &str, back: &str) -> Result<Tabulated, IoStop> {
    let mut source = source_of(alloc, front, back, 7)?;
    tabulate(alloc, &mut source)
}

#[test]
fn a_small_catalogue_has_its_tally(rt: HostRuntime) -> Result<(), Fail> {
    let text = TALLY.as_bytes().to_vec(rt.alloc())?;
    same(
        "two",
        answer(rt.alloc(), HEADER, TWO),
        Ok(Tabulated::Tally { text }),
    )
}

const REPEATED: &str = "shape 0,0 0,0\nverdict heesch 0 nontiler 1\nend 1\n";

/// Two texts, one behind the other, and the line and the number of the first fault.
const FAULTS: [(&str, &str, u64, u32); 5] = [
    ("", "", 1, 6),
    (HEADER, "", 2, 6),
    (HEADER, APART, 4, 5),
    (HEADER, CUT, 5, 6),
    (HEADER, REPEATED, 2, 4),
];

#[test]
fn the_first_fault_is_told(rt: HostRuntime) -> Result<(), Fail> {
    for (front, back, line, number) in &FAULTS {
        let (line, number) = (*line, *number);
        same(
            back,
            answer(rt.alloc(), front, back),
            Ok(Tabulated::Fault { line, number }),
        )?;
    }
    Ok(())
}
