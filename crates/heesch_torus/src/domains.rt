//! The triples of the domains, in order.
ghost use Rattle.std.specs.Prelude.{◌≤◌, ◌-◌, IfOk, OnOk};
ghost use Rattle.heesch_torus.specs.Domains.{AreUpTo};

use heesch_grid::Grid;
use heesch_io::NoMemory;
use heesch_lattice::{Triple, triples};
use heesch_tiling::area_of;
use std::alloc::Global;

/// The triples of the domain of so many tiles of so many cells stand last.
fn add_domain<G: Grid>(count: u32, tiles: u32, all: &mut Vec<Triple>) -> Result<(), NoMemory>
    requires count { (1 ≤ count) × (count ≤ 32) }
    requires tiles { (2 ≤ tiles) × (tiles ≤ 12) }
    requires before { AreUpTo G.geometry count (tiles - 1) all.old.items }
    ensures { OnOk result (AreUpTo G.geometry count tiles all.new.items) }
{
    if let Some(area) = area_of::<G>(tiles * count) {
        for triple in triples(area) {
            all.push(triple)?;
        }
    }
    Ok(())
}

/// The triples of the domains from 2 to this one of a shape of so many cells, in the order of domains and then of
/// triples.
///
/// Condition: 1 to 32 cells, and a domain of 1 to 12 tiles. Its cost is the number of triples.
pub fn triples_up_to<G: Grid>(
    alloc: Global,
    count: u32,
    domain: u32,
) -> Result<Vec<Triple>, NoMemory>
    requires count { (1 ≤ count) × (count ≤ 32) }
    requires domain { (1 ≤ domain) × (domain ≤ 12) }
    ensures { IfOk result (λ all. AreUpTo G.geometry count domain all.items) }
{
    let mut all = Vec::new(alloc);
    for tiles in 2..domain + 1 {
        add_domain::<G>(count, tiles, &mut all)?;
    }
    Ok(all)
}
