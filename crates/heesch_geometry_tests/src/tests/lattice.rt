//! A lattice worked by hand.
use heesch_grid::{Cell, Square};
use heesch_lattice::{Triple, triples};
use heesch_made::same;
use std::test::Fail;

/// The lattice of (2, 0) and (1, 2).
const SLANTED: Triple = Triple { p: 2, q: 2, s: 1 };

#[test]
fn a_slanted_lattice(_rt: HostRuntime) -> Result<(), Fail> {
    same(
        "triples",
        [Triple::new(2, 2, 2), Triple::new(2, 2, 1)],
        [None, Some(SLANTED)],
    )?;
    let corner = Cell { a: -1, b: -1 };
    same(
        "residue",
        SLANTED.reduce::<Square>(corner),
        Cell { a: 0, b: 1 },
    )?;
    let (near, far) = (Cell { a: 1, b: 1 }, Cell { a: 2, b: 1 });
    let found = [
        SLANTED.same::<Square>(corner, far),
        SLANTED.same::<Square>(corner, near),
    ];
    same("classes", found, [true, false])
}

/// The first four triples of four units.
#[test]
fn triples_of_four_units(_rt: HostRuntime) -> Result<(), Fail> {
    let mut left = triples(4);
    for (row, p, q, s) in [
        ("first", 1, 4, 0),
        ("second", 2, 2, 0),
        ("third", 2, 2, 1),
        ("last", 4, 1, 0),
    ] {
        same(row, left.next(), Some(Triple { p, q, s }))?;
    }
    Ok(())
}
