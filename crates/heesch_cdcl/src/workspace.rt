//! What the search goes on with.
ghost use Rattle.std.specs.Prelude.{◌≡◌, [], IfOk};
ghost use Rattle.heesch_trail.specs.State.{IsTrail};
ghost use Rattle.heesch_cdcl.specs.Covers.{Guides};
ghost use Rattle.heesch_cdcl.specs.Marking.{HavePlaces};

use crate::analysis::Resolution;
use crate::covers::Covers;
use crate::decisions::Decisions;
use heesch_cnf::FlatFormula;
use heesch_io::NoMemory;
use heesch_trail::Trail;
use std::alloc::Global;

/// What the search goes on with: the clauses and the assignments, what is decided next, and the room in which
/// conflicts are resolved. The covers are clauses of the trail, and its variables have places to be marked.
#[derive(Drop)]
pub struct Workspace {
    pub trail: Trail,
    pub decisions: Decisions,
    pub resolution: Resolution,
    pub ghost guides: { Guides decisions.covers trail },
    pub ghost places: { HavePlaces trail.vars resolution.marks },
}

impl Workspace {
    /// No assignments, over the formula, which is taken over and not copied.
    pub fn over(alloc: Global, formula: FlatFormula) -> Result<Workspace, NoMemory>
        ensures opened { IfOk result
            (λ w. w.trail ≡ record { vars = formula.vars; clauses = formula.clauses; steps = [] }) }
        ensures valid { IfOk result (λ w. IsTrail w.trail) }
    {
        let covers = Covers::of(alloc, &formula)?;
        let resolution = Resolution::new(alloc, formula.vars())?;
        let trail = Trail::over(alloc, formula)?;
        Ok(Workspace {
            trail,
            decisions: Decisions::new(covers),
            resolution,
        })
    }
}
