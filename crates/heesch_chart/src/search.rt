//! The search at one level, from a universe to advice.
ghost use Rattle.std.specs.Prelude.{◌≡◌, ◌<◌, ◌≤◌, ◌^◌, ℕ, IfOk, IfSome, length};
ghost use Rattle.heesch_chart.specs.Sizes.{AdvisesOn, EndsWith, HasValues};
ghost use Rattle.heesch_cuts.specs.Chosen.{CutsOff};
ghost use Rattle.heesch_grid.specs.Polyform.{IsCanonicalListOf};
ghost use Rattle.heesch_place.specs.Universes.{IsUniverseOf};

use crate::frame::Frame;
use crate::hints::HintWriter;
use crate::numbers::Numbers;
use crate::steps::Transcript;
use crate::table::table_on;
use crate::values::values_of;
use heesch_cert::{Cut, Proof};
use heesch_cover::CoverTable;
use heesch_cuts::{clause_of, cut_for};
use heesch_encode::last_below;
use heesch_grid::Grid;
use heesch_io::{NoMemory, Seq};
use heesch_lazy::{Found, Search};
use heesch_place::Universe;
use heesch_shape::Shape;
use std::alloc::Global;

/// How a search ended, to be judged.
#[derive(Drop)]
pub enum Advice {
    /// The values of a model, by the universe's variables from 1.
    Coronas {
        values: Seq<bool>,
    },
    /// A proof that refutes the formula; and where cuts were made, the values of the model that the first was made
    /// against.
    Refuted {
        proof: Proof,
        holed: Option<Seq<bool>>,
    },
    /// A proof of as many steps as there are turns.
    Spent {
        proof: Proof,
    },
    /// None of these was found.
    GaveUp,
}

/// The same, with the proof still in the search.
#[derive(Drop)]
pub(crate) enum Ending {
    Model { values: Seq<bool> },
    Refuted,
    Spent,
    GaveUp,
}

/// The variables of a level's formula, up to which level holes are forbidden, and how many lines a search may have.
#[derive(Drop)]
struct Question<'a, G: Grid> {
    shape: &'a Shape<G>,
    universe: &'a Universe<G>,
    free_levels: u32,
    turns: u32,
}

/// The search, the cuts whose clauses were given to it, in order, and the values of the model that the first of them
/// was made against.
#[derive(Drop)]
struct LevelSearch {
    search: Search,
    cuts: Vec<Option<Cut>>,
    holed: Option<Seq<bool>>,
}

/// The first want from the start that has no candidate.
fn first_empty(table: &CoverTable) -> Option<u32> {
    for want in table.first() {
        if table.candidates(*want).is_empty() {
            return Some(*want);
        }
    }
    None
}

/// The refutation by the clause of a cell around the shape that no tile can cover.
fn refuted_at_once(alloc: Global, want: u32) -> Result<Advice, NoMemory>
    ensures { (count : ℕ) → IfOk result (AdvisesOn count) }
{
    let mut last = Seq::new(alloc);
    last.push(want.saturating_add(1))?;
    let proof = Proof {
        steps: Seq::new(alloc),
        last: Some(last),
    };
    Ok(Advice::Refuted { proof, holed: None })
}

/// The log of a search with these cuts as a proof over the formula of the universe, whose table has so many cells.
/// None where a given line isn't one of the cuts.
fn proof_of<G: Grid>(
    alloc: Global,
    search: Search,
    cuts: Vec<Option<Cut>>,
    universe: &Universe<G>,
    cells: u32,
) -> Result<Option<Proof>, NoMemory>
    requires { IsUniverseOf G.geometry universe.now }
{
    let (table, log) = search.into_log()?;
    let numbers = Numbers::of(alloc, &table, cells, last_below(universe, 2))?;
    let transcript = Transcript {
        table,
        log,
        writer: HintWriter::new(alloc, numbers)?,
        cuts,
    };
    transcript.into_proof(alloc)
}

impl<'a, G: Grid> Question<'a, G> {
    /// A cut against a hole that the placements of a model enclose at one of the levels where none may be.
    fn cut(&self, alloc: Global, values: &[bool]) -> Result<Option<Cut>, NoMemory>
        requires universe { IsUniverseOf G.geometry self.now.universe.now }
        requires shape { self.now.universe.now.shape ≡ self.now.shape.now }
        requires values { length self.now.universe.now.vars ≤ length values.now }
        ensures cuts_off { IfOk result (λ cut. IfSome cut (CutsOff G.geometry self.now.universe.now values.now)) }
        ensures up_to { IfOk result (λ cut. IfSome cut (λ cut. cut.level ≤ self.now.free_levels)) }
    {
        if self.free_levels == 0 {
            return Ok(None);
        }
        match cut_for(alloc, self.shape, self.universe, values)? {
            Some(cut) if cut.level <= self.free_levels => Ok(Some(cut)),
            _ => Ok(None),
        }
    }
}

impl LevelSearch {
    /// What is found next, where that is the end; else a cut was given.
    fn turn<G: Grid>(
        &mut self,
        alloc: Global,
        question: &Question<'_, G>,
    ) -> Result<Option<Ending>, NoMemory>
        requires universe { IsUniverseOf G.geometry question.now.universe.now }
        requires shape { question.now.universe.now.shape ≡ question.now.shape.now }
        requires holed { HasValues (length question.now.universe.now.vars) self.old.holed }
        ensures ending { IfOk result (λ ending. IfSome ending (EndsWith (length question.now.universe.now.vars))) }
        ensures holed { HasValues (length question.now.universe.now.vars) self.new.holed }
    {
        match self.search.next(question.turns)? {
            Found::Model { chosen } => self.judge(alloc, question, chosen.as_slice()),
            Found::Refuted => Ok(Some(Ending::Refuted)),
            Found::Spent => Ok(Some(Ending::Spent)),
            Found::GaveUp => Ok(Some(Ending::GaveUp)),
        }
    }

    /// Whether the model of these variables is the end; else a cut was given against a hole that it leaves.
    fn judge<G: Grid>(
        &mut self,
        alloc: Global,
        question: &Question<'_, G>,
        chosen: &[u32],
    ) -> Result<Option<Ending>, NoMemory>
        requires universe { IsUniverseOf G.geometry question.now.universe.now }
        requires shape { question.now.universe.now.shape ≡ question.now.shape.now }
        requires holed { HasValues (length question.now.universe.now.vars) self.old.holed }
        ensures ending { IfOk result (λ ending. IfSome ending (EndsWith (length question.now.universe.now.vars))) }
        ensures holed { HasValues (length question.now.universe.now.vars) self.new.holed }
    {
        let values = values_of(alloc, question.universe.count(), chosen)?;
        let Some(cut) = question.cut(alloc, values.as_slice())? else {
            return Ok(Some(Ending::Model { values }));
        };
        if self.search.lines() >= question.turns as usize {
            return Ok(Some(Ending::Spent));
        }
        let clause = clause_of(alloc, question.universe, &cut)?;
        self.search.give(clause.as_slice())?;
        self.cuts.push(Some(cut))?;
        if self.holed.is_none() {
            self.holed = Some(values);
        }
        Ok(None)
    }

    /// Searches to the end. Each turn but the last gives a line, so there are no more than lines.
    fn run<G: Grid>(
        &mut self,
        alloc: Global,
        question: &Question<'_, G>,
    ) -> Result<Ending, NoMemory>
        requires universe { IsUniverseOf G.geometry question.now.universe.now }
        requires shape { question.now.universe.now.shape ≡ question.now.shape.now }
        requires holed { HasValues (length question.now.universe.now.vars) self.old.holed }
        ensures ending { IfOk result (EndsWith (length question.now.universe.now.vars)) }
        ensures holed { HasValues (length question.now.universe.now.vars) self.new.holed }
    {
        for _ in 0..question.turns.saturating_add(1) {
            if let Some(ending) = self.turn(alloc, question)? {
                return Ok(ending);
            }
        }
        Ok(Ending::GaveUp)
    }

    /// What the end says of the level.
    fn into_advice<G: Grid>(
        self,
        alloc: Global,
        universe: &Universe<G>,
        cells: u32,
        ending: Ending,
    ) -> Result<Advice, NoMemory>
        requires universe { IsUniverseOf G.geometry universe.now }
        requires ending { EndsWith (length universe.now.vars) ending }
        requires holed { HasValues (length universe.now.vars) self.holed }
        ensures { IfOk result (AdvisesOn (length universe.now.vars)) }
    {
        let LevelSearch {
            search,
            cuts,
            holed,
        } = self;
        match ending {
            Ending::Model { values } => Ok(Advice::Coronas { values }),
            Ending::Refuted => match proof_of(alloc, search, cuts, universe, cells)? {
                Some(proof) => Ok(Advice::Refuted { proof, holed }),
                None => Ok(Advice::GaveUp),
            },
            Ending::Spent => match proof_of(alloc, search, cuts, universe, cells)? {
                Some(proof) => Ok(Advice::Spent { proof }),
                None => Ok(Advice::GaveUp),
            },
            Ending::GaveUp => Ok(Advice::GaveUp),
        }
    }
}

/// Searches for coronas up to the level of a universe, whose patches of the levels 1 to `free_levels` are hole-free,
/// and says how that ended: with the values of a model of the second corona formula; with a proof that refutes it;
/// with a proof of as many steps as there are turns; or with neither, where the search gave up.
///
/// It is advice: no clause says that the values are a model, or that the steps of a proof hold. Each model that leaves
/// a hole at a level where none may be is answered by a cut of that level against it, which is a step. A refutation
/// has only the steps that its last line rests on. Where no tile can cover a cell around the shape, the clause of the
/// first such cell is the whole proof.
///
/// The cost is that of the table, of the search, of `cut_for` for each model where holes are forbidden, and at the end
/// a few steps for each variable, each cell of the table and each reason of a step.
pub fn search_level<G: Grid>(
    alloc: Global,
    shape: &Shape<G>,
    universe: &Universe<G>,
    free_levels: u32,
    turns: u32,
) -> Result<Advice, NoMemory>
    requires canonical { IsCanonicalListOf G.geometry shape.now shape.now }
    requires universe { IsUniverseOf G.geometry universe.now }
    requires shape { universe.now.shape ≡ shape.now }
    requires few { length universe.now.vars < 2 ^ 31 }
    ensures { IfOk result (AdvisesOn (length universe.now.vars)) }
{
    let frame = Frame::around(shape, universe)?;
    let table = table_on(alloc, shape, universe, frame)?;
    if let Some(want) = first_empty(&table) {
        return refuted_at_once(alloc, want);
    }
    let question = Question {
        shape,
        universe,
        free_levels,
        turns,
    };
    let mut level = LevelSearch {
        search: Search::over(alloc, table)?,
        cuts: Vec::new(alloc),
        holed: None,
    };
    let ending = level.run(alloc, &question)?;
    level.into_advice(alloc, universe, frame.places, ending)
}
