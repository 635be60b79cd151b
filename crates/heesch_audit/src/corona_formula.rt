//! The corona formulas of the two versions, over which proofs are checked: known by the numbers of their clauses.
ghost use Rattle.std.specs.Prelude.{◌≡◌, ◌≤◌, ◌↔◌, IsTrue, IfOk};
ghost use Rattle.heesch_cnf.specs.declared.version.Version.{Version as TheVersion};
ghost use Rattle.heesch_cnf.specs.declared.version.Version.TheVariants.{One, Two};
ghost use Rattle.heesch_numbers.specs.Sourced.{Sourced};
ghost use Rattle.heesch_audit.specs.Ends.{LogEnds};
ghost use Rattle.heesch_audit.specs.Formulas.{IsFormulaUpTo};
ghost use Rattle.heesch_audit.specs.Shapes.{IsCanonicalShape};

use crate::logs::is_ended;
use crate::proof_end::ProofEnd;
use heesch_encode::EncodeStop;
use heesch_grid::Grid;
use heesch_io::NoMemory;
use heesch_logs::ProofLog;
use heesch_numbers::CoronaSource;
use heesch_pairwise::PairwiseSource;
use heesch_place::Universe;
use heesch_shape::Shape;
use std::alloc::Global;

/// A corona formula of a version, with its universe. Its clauses stand nowhere, and each is had from its number.
pub(crate) trait CoronaFormula<G: Grid>: Drop {
    // The version of these formulas.
    ghost version: { TheVersion };

    // The universe, and the clauses over it.
    ghost seen: { Self → Sourced };

    /// The formula of a shape and a level, where it has at most `size` literals.
    fn of_level(
        alloc: Global,
        shape: &Shape<G>,
        level: u32,
        size: u32,
    ) -> Result<Option<Self>, NoMemory>
        requires shape { IsCanonicalShape G.geometry shape.now }
        requires level { (1 ≤ level) × (level ≤ 6) }
        requires size { (1 ≤ size) × (size ≤ 60000000) }
        ensures { IfOk result (IsFormulaUpTo seen version G.geometry shape.now level size) };

    /// The universe. A constant time.
    fn variables(&self) -> &Universe<G>
        ensures { result.now ≡ (seen self.now).universe };

    /// Whether the log refutes the formula, or is spent for so many turns over it, as asked.
    fn is_ended(
        &self,
        alloc: Global,
        log: &ProofLog<'_>,
        end: ProofEnd,
        turns: u32,
    ) -> Result<bool, NoMemory>
        ensures { let f = (seen self.now).formula in
            IfOk result (λ yes. IsTrue yes ↔ LogEnds end f.vars f.clauses turns log.now) };
}

impl<G: Grid> CoronaFormula<G> for PairwiseSource<G> {
    ghost version = { One };

    ghost seen = { λ s. s };

    fn of_level(
        alloc: Global,
        shape: &Shape<G>,
        level: u32,
        size: u32,
    ) -> Result<Option<Self>, NoMemory> {
        match PairwiseSource::of(alloc, shape, level, size) {
            Ok(source) => Ok(Some(source)),
            Err(EncodeStop::TooLarge) => Ok(None),
            Err(EncodeStop::NoMemory) => Err(NoMemory),
        }
    }

    fn variables(&self) -> &Universe<G> {
        self.universe()
    }

    fn is_ended(
        &self,
        alloc: Global,
        log: &ProofLog<'_>,
        end: ProofEnd,
        turns: u32,
    ) -> Result<bool, NoMemory> {
        is_ended(alloc, self, log, end, turns)
    }
}

impl<G: Grid> CoronaFormula<G> for CoronaSource<G> {
    ghost version = { Two };

    ghost seen = { λ s. s };

    fn of_level(
        alloc: Global,
        shape: &Shape<G>,
        level: u32,
        size: u32,
    ) -> Result<Option<Self>, NoMemory> {
        match CoronaSource::of(alloc, shape, level, size) {
            Ok(source) => Ok(Some(source)),
            Err(EncodeStop::TooLarge) => Ok(None),
            Err(EncodeStop::NoMemory) => Err(NoMemory),
        }
    }

    fn variables(&self) -> &Universe<G> {
        self.universe()
    }

    fn is_ended(
        &self,
        alloc: Global,
        log: &ProofLog<'_>,
        end: ProofEnd,
        turns: u32,
    ) -> Result<bool, NoMemory> {
        is_ended(alloc, self, log, end, turns)
    }
}
