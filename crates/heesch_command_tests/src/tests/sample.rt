//! Samples worked by hand.
use heesch_cert::Limits;
use heesch_cnf::Version;
use heesch_grid::GridName;
use heesch_made::{LIMITS, same};
use heesch_pool::{Crew, Open};
use heesch_sample::sample;
use std::test::Fail;

/// Of a single square, which tiles by translations, with one class of tiles, and has no hole.
const THREE: &[u8] = b"shapes 3
holed 0
translation 3
halfturn 0
periodic 0
isohedral 3
undecided levels 0
undecided holes 0
undecided turns 0
undecided size 0
";

/// The same of more than one round.
const MANY: &[u8] = b"shapes 514
holed 0
translation 514
halfturn 0
periodic 0
isohedral 514
undecided levels 0
undecided holes 0
undecided turns 0
undecided size 0
";

const USUAL: Limits = Limits {
    version: Version::Two,
    ..LIMITS
};

#[test]
fn single_squares(rt: HostRuntime) -> Result<(), Fail> {
    let one = Crew::new(&rt, rt.alloc(), 1, &Open);
    let text = sample(&one, GridName::Square, 1, 3, 5, USUAL)?;
    same("three", text.as_slice(), THREE)?;
    let two = Crew::new(&rt, rt.alloc(), 2, &Open);
    let text = sample(&two, GridName::Square, 1, 514, 5, USUAL)?;
    same("many", text.as_slice(), MANY)
}
