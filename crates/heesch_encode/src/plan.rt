//! What a formula is made from.
ghost use Rattle.std.specs.Prelude.{◌≤◌, IfOk, IsErrOf};
ghost use Rattle.heesch_grid.specs.Clauses.{formula_size};
ghost use Rattle.heesch_cert.specs.Formulas.{IsCountedFormula};
ghost use Rattle.heesch_cert.specs.Proofs.{IsTooLarge};
ghost use Rattle.heesch_encode.specs.Plans.{IsPlan};

use crate::around::TurnedRing;
use crate::collector::Collector;
use crate::desk::Desk;
use crate::families::{take_formula, take_owner_formula};
use crate::owned::{count_with_owners, owned_cells};
use crate::stop::EncodeStop;
use heesch_cnf::{FlatFormula, Version};
use heesch_grid::Grid;
use heesch_place::Universe;
use heesch_shape::Shape;
use std::alloc::Global;

/// A shape, a level and the universe of both, with the cells around the shape under each turn.
#[derive(Drop)]
pub struct Plan<'a, G: Grid> {
    pub universe: &'a Universe<G>,
    pub shape: &'a Shape<G>,
    pub level: u32,
    pub rings: &'a [TurnedRing],
}

impl<'a, G: Grid> Plan<'a, G> {
    /// The formula of a version.
    pub(crate) fn formula(
        &self,
        alloc: Global,
        size: u32,
        version: Version,
    ) -> Result<FlatFormula, EncodeStop>
        requires { IsPlan G.geometry self.now.universe.now self.now.shape.now self.now.level self.now.rings.now }
        ensures formula { IfOk result
            (λ f. IsCountedFormula version G.geometry self.now.shape.now self.now.level self.now.universe.now.vars
            f.vars f.clauses) }
        ensures fits { IfOk result (λ f. formula_size f.clauses ≤ size) }
        ensures too_large { IsErrOf result EncodeStop.TooLarge
            → IsTooLarge version G.geometry self.now.shape.now self.now.level size }
    {
        match version {
            Version::One => {
                let collector = Collector::new(alloc, self.universe.count(), size);
                let mut desk = Desk::new(alloc, self.universe, collector)?;
                take_formula(self, &mut desk)?;
                Ok(desk.collector.formula)
            }
            Version::Two => {
                let owned = owned_cells(alloc, self.universe)?;
                let vars = count_with_owners(self.universe, &owned)?;
                let collector = Collector::new(alloc, vars, size);
                let mut desk = Desk::new(alloc, self.universe, collector)?;
                take_owner_formula(self, &owned, &mut desk)?;
                Ok(desk.collector.formula)
            }
        }
    }
}
