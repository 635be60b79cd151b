//! The triples of an area.
ghost use Rattle.std.specs.Prelude.{◌≤◌};
ghost use Rattle.heesch_lattice.specs.Listed.{AreTriples};

use crate::rest::{Triples, from_first};

/// The triples of an area, each once, by p and then by s. Condition: the area is 1 to 4,096 units.
/// Cost: a division for each p up to the area.
pub fn triples(area: u32) -> Triples
    requires some { 1 ≤ area }
    requires few { area ≤ 4096 }
    ensures { AreTriples area result }
{
    from_first(area)
}
