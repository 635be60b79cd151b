//! The corona formula of a version, with its universe.
ghost use Rattle.std.specs.Prelude.{◌≡◌, ◌≤◌, ◌↔◌, ℕ, Bool, IfOk, IsErrOf};
ghost use Rattle.heesch_grid.specs.Corona.{AreCoronas, HasCoronas};
ghost use Rattle.heesch_grid.specs.Polyform.{IsCanonicalListOf};
ghost use Rattle.heesch_grid.specs.Clauses.{formula_size};
ghost use Rattle.heesch_grid.specs.Statements.{chosen_layers};
ghost use Rattle.heesch_cnf.specs.Clauses.{Satisfies};
ghost use Rattle.heesch_cert.specs.Formulas.{IsCountedFormula};
ghost use Rattle.heesch_cert.specs.Proofs.{IsTooLarge};
ghost use Rattle.heesch_place.specs.Universes.{IsUniverseOf};

use crate::around::rings_of;
use crate::plan::Plan;
use crate::stop::EncodeStop;
use heesch_cnf::{FlatFormula, Formula, Version};
use heesch_grid::Grid;
use heesch_place::Universe;
use heesch_shape::Shape;
use std::alloc::Global;

/// A corona formula, and what its variables stand for.
#[derive(Drop)]
pub struct Encoded<G: Grid> {
    pub universe: Universe<G>,
    pub formula: Formula,
}

/// A corona formula whose clauses stand in one array, and what its variables stand for.
#[derive(Drop)]
pub struct FlatEncoded<G: Grid> {
    pub universe: Universe<G>,
    pub formula: FlatFormula,
}

/// The corona formula of a shape and a level, of one of the two versions, where it has at most `size` literals, with
/// its clauses in one array.
///
/// It has a model exactly where so many coronas of the shape exist, holes allowed, and the true variables of level k
/// of a model are the k-th corona. Condition: the shape is canonical, the level 1 to 6, the size 1 to 60,000,000.
/// `TooLarge` exactly where the formula has more than `size` literals; `NoMemory` says nothing more.
///
/// The clauses are made once, up to the first literal too many. Variables are found by the cells of their tiles, never
/// by a look at all pairs. In version Two the owner variables come after the universe's; they are counted before the
/// clauses are made.
pub fn encode_flat<G: Grid>(
    alloc: Global,
    shape: &Shape<G>,
    level: u32,
    size: u32,
    version: Version,
) -> Result<FlatEncoded<G>, EncodeStop>
    requires level { (1 ≤ level) × (level ≤ 6) }
    requires canonical { IsCanonicalListOf G.geometry shape.now shape.now }
    requires size { (1 ≤ size) × (size ≤ 60000000) }
    ensures universe { IfOk result (λ e. IsUniverseOf G.geometry e.universe) }
    ensures shape { IfOk result (λ e. e.universe.shape ≡ shape.now) }
    ensures level { IfOk result (λ e. e.universe.level ≡ level) }
    ensures formula { IfOk result
        (λ e. IsCountedFormula version G.geometry shape.now level e.universe.vars e.formula.vars e.formula.clauses) }
    ensures fits { IfOk result (λ e. formula_size e.formula.clauses ≤ size) }
    ensures too_large { IsErrOf result EncodeStop.TooLarge → IsTooLarge version G.geometry shape.now level size }

    ensures satisfiable { IfOk result
        (λ e. ((values : ℕ → Bool) × Satisfies values e.formula.clauses) ↔ HasCoronas G.geometry shape.now level) }
    ensures models { IfOk result (λ e. (values : ℕ → Bool) → Satisfies values e.formula.clauses
        → AreCoronas G.geometry shape.now (chosen_layers values e.universe.vars level)) }
{
    // Reading the cells tells the proof that they are a polyform.
    let _cells = shape.cells();
    let universe = Universe::of(alloc, shape, level)?;
    let rings = rings_of(alloc, shape)?;
    let plan = Plan {
        universe: &universe,
        shape,
        level,
        rings: &rings,
    };
    let formula = plan.formula(alloc, size, version)?;
    Ok(FlatEncoded { universe, formula })
}

/// The same formula, with a list for each clause.
///
/// It has a model exactly where so many coronas of the shape exist, holes allowed, and the true variables of level k
/// of a model are the k-th corona. Condition: the shape is canonical, the level 1 to 6, the size 1 to 60,000,000.
/// `TooLarge` exactly where the formula has more than `size` literals; `NoMemory` says nothing more.
///
/// The cost is that of `encode_flat`, and of a copy of each clause without room to spare.
pub fn encode<G: Grid>(
    alloc: Global,
    shape: &Shape<G>,
    level: u32,
    size: u32,
    version: Version,
) -> Result<Encoded<G>, EncodeStop>
    requires level { (1 ≤ level) × (level ≤ 6) }
    requires canonical { IsCanonicalListOf G.geometry shape.now shape.now }
    requires size { (1 ≤ size) × (size ≤ 60000000) }
    ensures universe { IfOk result (λ e. IsUniverseOf G.geometry e.universe) }
    ensures shape { IfOk result (λ e. e.universe.shape ≡ shape.now) }
    ensures level { IfOk result (λ e. e.universe.level ≡ level) }
    ensures formula { IfOk result
        (λ e. IsCountedFormula version G.geometry shape.now level e.universe.vars e.formula.vars e.formula.clauses) }
    ensures fits { IfOk result (λ e. formula_size e.formula.clauses ≤ size) }
    ensures too_large { IsErrOf result EncodeStop.TooLarge → IsTooLarge version G.geometry shape.now level size }

    ensures satisfiable { IfOk result
        (λ e. ((values : ℕ → Bool) × Satisfies values e.formula.clauses) ↔ HasCoronas G.geometry shape.now level) }
    ensures models { IfOk result (λ e. (values : ℕ → Bool) → Satisfies values e.formula.clauses
        → AreCoronas G.geometry shape.now (chosen_layers values e.universe.vars level)) }
{
    let FlatEncoded { universe, formula } = encode_flat(alloc, shape, level, size, version)?;
    let formula = formula.to_formula(alloc)?;
    Ok(Encoded { universe, formula })
}
