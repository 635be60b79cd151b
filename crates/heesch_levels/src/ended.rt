//! The end of a search, and what it says of the level.
ghost use Rattle.std.specs.Prelude.{◌≡◌, ◌≤◌, ◌<◌, ◌^◌, ℕ, List, [], true, false, length, IfOk, IfSome, IfNone};
ghost use Rattle.std.specs.Prelude.{MatchOption};
ghost use Rattle.heesch_grid.specs.declared.Cell.{Cell};
ghost use Rattle.heesch_grid.specs.Geometry.{Geometry};
ghost use Rattle.heesch_grid.specs.Polyform.{IsCanonicalListOf};
ghost use Rattle.heesch_cnf.specs.declared.version.Version.{Version as Numbered};
ghost use Rattle.heesch_cert.specs.Formulas.{IsCountedFormula};
ghost use Rattle.heesch_cert.specs.Proofs.{IsTooLarge};
ghost use Rattle.heesch_levels.specs.Answer.{IsLevelAnswer, NamesEmptyClauses, SpellsCoronas};
ghost use Rattle.heesch_levels.specs.Searching.{IsEnded, IsUnder};
ghost use Rattle.heesch_levels.specs.UpTo.{IsAnswerUpTo};
ghost use Rattle.heesch_levels.specs.Wall.{RefutesWithoutCut, ShowsHoles, level_answer};

use crate::answer::{LevelAnswer, WallAnswer};
use crate::asked::Asked;
use crate::layers::layers_of;
use crate::searching::{Ending, Search};
use heesch_cert::Layers;
use heesch_cnf::{FlatFormula, Version};
use heesch_encode::{EncodeStop, FlatEncoded, encode_flat};
use heesch_grid::Grid;
use heesch_io::NoMemory;
use heesch_shape::Shape;
use std::alloc::Global;

/// A formula with this many clauses counts as want of memory. None comes to it: all clauses but some hundred have a
/// literal, and there are at most 60,000,000 literals.
const CLAUSES_MAX: usize = 1 << 30;

/// Which corona formula a search is over, with how many literals at most, and how many turns it may take.
#[derive(Clone, Copy)]
pub struct Effort {
    pub turns: u32,
    pub size: u32,
    pub version: Version,
}

/// What was asked of models, the search for one, and how it ended.
#[derive(Drop)]
pub struct Ended<G: Grid> {
    pub asked: Asked<G>,
    pub search: Search,
    pub ending: Ending,
}

/// Whether the formula has fewer clauses than count as want of memory.
fn has_room(formula: &FlatFormula) -> bool
    ensures { result ≡ true → length formula.now.clauses < 2 ^ 30 }
{
    formula.len() < CLAUSES_MAX
}

/// The search at this level to its end, with holes forbidden at the levels from 1 to `free_levels`; none where the
/// corona formula has more literals than it may have.
pub fn ended_at<G: Grid>(
    alloc: Global,
    shape: &Shape<G>,
    j: u32,
    free_levels: u32,
    effort: Effort,
) -> Result<Option<Ended<G>>, NoMemory>
    requires level { (1 ≤ j) × (j ≤ 6) }
    requires free { free_levels ≤ j }
    requires turns { (1 ≤ effort.turns) × (effort.turns ≤ 1000000) }
    requires size { (1 ≤ effort.size) × (effort.size ≤ 60000000) }
    requires canonical { IsCanonicalListOf G.geometry shape.now shape.now }
    ensures ended { IfOk result
        (λ e. IfSome e (λ e. IsEnded G.geometry e.asked.universe e.asked.free_levels e.search e.ending)) }
    ensures under { IfOk result
        (λ e. IfSome e (λ e. IsUnder effort.version G.geometry shape.now j free_levels effort.turns effort.size
        e.asked.universe e.asked.free_levels e.search)) }
    ensures too_large { IfOk result (λ e. IfNone e (IsTooLarge effort.version G.geometry shape.now j effort.size)) }
{
    // Reading the cells tells the proof that they are a polyform.
    let _cells = shape.cells();
    let encoded = match encode_flat(alloc, shape, j, effort.size, effort.version) {
        Ok(encoded) => encoded,
        Err(EncodeStop::TooLarge) => return Ok(None),
        Err(EncodeStop::NoMemory) => return Err(NoMemory),
    };
    if !has_room(&encoded.formula) {
        return Err(NoMemory);
    }
    let FlatEncoded { universe, formula } = encoded;
    let asked = Asked::of(alloc, shape, universe, free_levels)?;
    let mut search = Search::open(alloc, formula, effort.turns)?;
    let ending = search.run(alloc, shape, &asked)?;
    Ok(Some(Ended {
        asked,
        search,
        ending,
    }))
}

/// The answer of the search with holes forbidden, with coronas that have a hole, if they are known.
fn wall_of(answer: LevelAnswer, holed: Option<Layers>) -> WallAnswer
    ensures same { level_answer result ≡ answer }
    ensures holes { (version : Numbered) (g : Geometry) (shape : List Cell) (j turns size : ℕ)
        → IsLevelAnswer version g shape j true turns size answer
        → MatchOption holed (RefutesWithoutCut answer) (SpellsCoronas g shape j false)
        → ShowsHoles g shape j result }
{
    match answer {
        LevelAnswer::Coronas { layers } => WallAnswer::Coronas { layers },
        LevelAnswer::Refuted { proof } => match holed {
            Some(layers) => WallAnswer::Holed { proof, layers },
            None => WallAnswer::Refuted { proof },
        },
        LevelAnswer::Spent { proof } => WallAnswer::Spent { proof },
        LevelAnswer::TooLarge => WallAnswer::TooLarge,
    }
}

impl<G: Grid> Ended<G> {
    /// Where a refutation has a cut, the layers of the model that the first one was made against.
    fn holed_layers(&self, alloc: Global) -> Result<Option<Layers>, NoMemory>
        requires { IsEnded G.geometry self.now.asked.universe self.now.asked.free_levels self.now.search
            self.now.ending }
        ensures { (version : Numbered)
            → IsCountedFormula version G.geometry self.now.asked.universe.shape self.now.asked.universe.level
            self.now.asked.universe.vars self.now.search.solver.vars self.now.search.solver.clauses
            → IfOk result (λ holed. MatchOption holed (self.now.ending ≡ Ending.Refuted → self.now.search.cuts ≡ [])
            (SpellsCoronas G.geometry self.now.asked.universe.shape self.now.asked.universe.level false)) }
    {
        match (&self.ending, &self.search.holed) {
            (Ending::Refuted, Some(values)) => {
                let layers = layers_of(alloc, &self.asked.universe, values.as_slice())?;
                Ok(Some(layers))
            }
            _ => Ok(None),
        }
    }

    /// What the end says of the level.
    pub fn into_answer(self, alloc: Global) -> Result<LevelAnswer, NoMemory>
        requires { IsEnded G.geometry self.asked.universe self.asked.free_levels self.search self.ending }
        ensures answer { (version : Numbered) (shape : List Cell) (j k turns size : ℕ)
            → IsUnder version G.geometry shape j k turns size self.asked.universe self.asked.free_levels self.search
            → IfOk result (λ answer. IsAnswerUpTo version G.geometry shape j k turns size answer
            × NamesEmptyClauses version G.geometry shape j answer) }
        ensures no_cut { (self.ending ≡ Ending.Refuted → self.search.cuts ≡ []) → IfOk result RefutesWithoutCut }
    {
        let Ended {
            asked,
            search,
            ending,
        } = self;
        match ending {
            Ending::Model { values } => {
                let layers = layers_of(alloc, &asked.universe, values.as_slice())?;
                Ok(LevelAnswer::Coronas { layers })
            }
            Ending::Refuted => {
                let proof = search.into_proof(alloc)?;
                Ok(LevelAnswer::Refuted { proof })
            }
            Ending::Spent => {
                let proof = search.into_proof(alloc)?;
                Ok(LevelAnswer::Spent { proof })
            }
        }
    }

    /// What the end of a search with holes forbidden at each level says of the level.
    pub fn into_wall(self, alloc: Global) -> Result<WallAnswer, NoMemory>
        requires { IsEnded G.geometry self.asked.universe self.asked.free_levels self.search self.ending }
        ensures answer { (version : Numbered) (shape : List Cell) (j turns size : ℕ)
            → IsUnder version G.geometry shape j j turns size self.asked.universe self.asked.free_levels self.search
            → IfOk result (λ answer. IsLevelAnswer version G.geometry shape j true turns size (level_answer answer)
            × NamesEmptyClauses version G.geometry shape j (level_answer answer)
            × ShowsHoles G.geometry shape j answer) }
    {
        let holed = self.holed_layers(alloc)?;
        let answer = self.into_answer(alloc)?;
        Ok(wall_of(answer, holed))
    }
}
