//! The first corona formula as a source of clauses.
ghost use Rattle.std.specs.Prelude.{◌≡◌, ◌≤◌, IfOk, IsErrOf};
ghost use Rattle.heesch_cert.specs.Formulas.{IsCountedFormula};
ghost use Rattle.heesch_cert.specs.Proofs.{IsTooLarge};
ghost use Rattle.heesch_cnf.specs.declared.version.Version.TheVariants.{One};
ghost use Rattle.heesch_grid.specs.Clauses.{formula_size};
ghost use Rattle.heesch_grid.specs.Polyform.{IsCanonicalListOf};
ghost use Rattle.heesch_place.specs.Universes.{IsUniverseOf};

use crate::newness::has_no_pair;
use crate::pairs::PairClauses;
use heesch_cnf::{ClauseSource, Left, Lit, NewnessSource};
use heesch_encode::EncodeStop;
use heesch_grid::Grid;
use heesch_numbers::CommonClauses;
use heesch_place::Universe;
use heesch_shape::Shape;
use std::alloc::Global;
use std::marker::Model;

/// The most clauses of a formula.
const CLAUSES_MAX: usize = 1 << 31;

/// The first corona formula of a shape and a level, with its universe: a clause is computed where it is asked for.
/// What is kept are the universe and sums of counts.
#[derive(Drop)]
pub struct PairwiseSource<G: Grid> {
    common: CommonClauses<G>,
    pairs: PairClauses,
}

impl<G: Grid> Model for PairwiseSource<G> {
    ghost use Rattle.heesch_numbers.specs.Sourced.{Sourced};
    ghost use Rattle.heesch_pairwise.specs.Pairwise.{IsPairwise, pairwise_formula};

    ghost Value = { Sourced };

    ghost view = { λ s. record { universe = s.common; formula = pairwise_formula G.geometry s.common } };

    ghost invariant = { λ s. IsPairwise G.geometry s.common s.pairs.later };
}

impl<G: Grid> PairwiseSource<G> {
    /// The source of the formula of a shape and a level, where the formula has at most `size` literals; these are
    /// bounded or counted, and no clause is made.
    ///
    /// Condition: the shape is canonical, the level 1 to 6, the size 1 to 60,000,000. `TooLarge` exactly where the
    /// formula has more than `size` literals; `NoMemory` says nothing more. The cost is that of the universe, two
    /// look-ups for each cell of each variable's tile and a step for each variable that has it, and a step for each
    /// cell around the tile. Where a bound by the most variables that have one cell is above the size, there is
    /// besides a look-up for each cell around each tile, and a walk over the variables of the level below that touch
    /// each variable.
    pub fn of(
        alloc: Global,
        shape: &Shape<G>,
        level: u32,
        size: u32,
    ) -> Result<PairwiseSource<G>, EncodeStop>
        requires level { (1 ≤ level) × (level ≤ 6) }
        requires canonical { IsCanonicalListOf G.geometry shape.now shape.now }
        requires size { (1 ≤ size) × (size ≤ 60000000) }
        ensures universe { IfOk result (λ s. IsUniverseOf G.geometry s.universe) }
        ensures shape { IfOk result (λ s. s.universe.shape ≡ shape.now) }
        ensures level { IfOk result (λ s. s.universe.level ≡ level) }
        ensures formula { IfOk result (λ s.
            IsCountedFormula One G.geometry shape.now level s.universe.vars s.formula.vars s.formula.clauses) }
        ensures fits { IfOk result (λ s. formula_size s.formula.clauses ≤ size) }
        ensures too_large { IsErrOf result EncodeStop.TooLarge → IsTooLarge One G.geometry shape.now level size }
    {
        let universe = Universe::of(alloc, shape, level)?;
        let (pairs, left) = PairClauses::of(alloc, &universe, size)?;
        let common = CommonClauses::of(alloc, shape, universe)?;
        if !common.fits_by(alloc, pairs.most_holders, left)? {
            return Err(EncodeStop::TooLarge);
        }
        let met = pairs.count(common.universe()) as usize;
        if common.count().saturating_add(met) > CLAUSES_MAX {
            return Err(EncodeStop::NoMemory);
        }
        Ok(PairwiseSource { common, pairs })
    }

    /// The universe. It takes no memory and a constant time.
    pub fn universe(&self) -> &Universe<G>
        ensures { result.now ≡ self.now.universe }
    {
        self.common.universe()
    }
}

impl<G: Grid> ClauseSource for PairwiseSource<G> {
    ghost listed = { λ s. s.formula };

    fn vars(&self) -> u32 {
        self.common.universe().count()
    }

    fn count(&self) -> usize {
        self.common.count() + self.pairs.count(self.common.universe()) as usize
    }

    fn left(&self, number: u32, values: &[Option<bool>]) -> Left {
        let count = self.common.count();
        if number as usize <= count {
            self.common.left(number, values)
        } else {
            self.pairs
                .left(self.common.universe(), number - count as u32 - 1, values)
        }
    }
}

impl<G: Grid> NewnessSource for PairwiseSource<G> {
    fn is_new(&self, clause: &[Lit], values: &[Option<bool>]) -> bool {
        if !self.common.is_new(clause, values) {
            return false;
        }
        has_no_pair(self.common.universe(), clause)
    }
}
