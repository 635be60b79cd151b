//! Lattices turned by hand.
use heesch_grid::{Hex, Square};
use heesch_lattice::{Triple, is_turned};
use heesch_made::same;
use std::test::Fail;

const HIGH: Triple = Triple { p: 1, q: 2, s: 0 };

const WIDE: Triple = Triple { p: 2, q: 1, s: 0 };

const SLANTED: Triple = Triple { p: 2, q: 1, s: 1 };

const COARSE: Triple = Triple { p: 2, q: 2, s: 0 };

/// Two lattices, and the turns that carry the first onto the second. Those of the square grid that exchange the
/// coordinates carry (1, 0) and (0, 2) onto (2, 0) and (0, 1). None carries a lattice onto a coarser or a finer one.
const SQUARE: [(&str, Triple, Triple, &[u32]); 4] = [
    ("exchanged", HIGH, WIDE, &[1, 3, 4, 6]),
    ("slanted", HIGH, SLANTED, &[]),
    ("finer", COARSE, HIGH, &[]),
    ("coarser", HIGH, COARSE, &[]),
];

#[test]
fn turns_of_the_square_grid(_rt: HostRuntime) -> Result<(), Fail> {
    for (row, from, to, turns) in &SQUARE {
        for k in 0..8 {
            same(row, is_turned::<Square>(k, *from, *to), turns.contains(&k))?;
        }
    }
    Ok(())
}

/// Four turns of the hexagonal grid carry them onto (2, 0) and (1, 1).
#[test]
fn turns_of_the_hexagonal_grid(_rt: HostRuntime) -> Result<(), Fail> {
    for k in 0..12 {
        let slants = [2, 5, 7, 10].contains(&k);
        same("slanted", is_turned::<Hex>(k, HIGH, SLANTED), slants)?;
    }
    Ok(())
}
