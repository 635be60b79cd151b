//! What clauses are made with.
ghost use Rattle.std.specs.Prelude.{◌≡◌, ◌<◌, ◌^◌, IfOk, length};
ghost use Rattle.heesch_encode.specs.Marks.{AreUnmarked};

use crate::collector::Collector;
use crate::marks::Marks;
use heesch_cnf::PackedLit;
use heesch_grid::{Cell, Grid};
use heesch_io::NoMemory;
use heesch_place::Universe;
use std::alloc::Global;

/// Lists and marks that are used again for each variable, and where the clauses go.
#[derive(Drop)]
pub(crate) struct Desk {
    pub ring: Vec<Cell>,
    pub numbers: Vec<u32>,
    pub clause: Vec<PackedLit>,
    pub marks: Marks,
    pub collector: Collector,
}

impl Desk {
    /// With room for the marks of a universe's variables.
    pub fn new<G: Grid>(
        alloc: Global,
        universe: &Universe<G>,
        collector: Collector,
    ) -> Result<Desk, NoMemory>
        requires { length universe.now.vars < 2 ^ 31 }
        ensures unmarked { IfOk result (λ desk. AreUnmarked (length universe.now.vars) desk.marks.words.items) }
        ensures collector { IfOk result (λ desk. desk.collector ≡ collector) }
    {
        Ok(Desk {
            ring: Vec::new(alloc),
            numbers: Vec::new(alloc),
            clause: Vec::new(alloc),
            marks: Marks::new(alloc, universe.count())?,
            collector,
        })
    }
}
