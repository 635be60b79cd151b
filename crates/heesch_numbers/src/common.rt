//! Families 1 to 3 of the corona formulas, which both versions have: their clauses by number.
ghost use Rattle.std.specs.Prelude.{◌≡◌, ◌<◌, ◌≤◌, ◌^◌, ◌↔◌, ℕ, List, IfOk, IsTrue, length};
ghost use Rattle.heesch_cnf.specs.Clauses.{IsClause, IsNew};
ghost use Rattle.heesch_cnf.specs.Left.{IsLeft};
ghost use Rattle.heesch_cnf.specs.Lines.{numbered, refuting};
ghost use Rattle.heesch_cnf.specs.Literals.{held};
ghost use Rattle.heesch_grid.specs.declared.Cell.{Cell};
ghost use Rattle.heesch_grid.specs.Clauses.{formula_size};
ghost use Rattle.heesch_grid.specs.CoronaFormula.{GivesCellsAround};
ghost use Rattle.heesch_grid.specs.Polyform.{IsCanonicalListOf};
ghost use Rattle.heesch_place.specs.Universes.{IsUniverseOf};
ghost use Rattle.heesch_encode.specs.Plans.{IsPlan};
ghost use Rattle.heesch_numbers.specs.Common.{common_of, IsCommonNumber};
ghost use Rattle.heesch_numbers.specs.OwnerCounts.{IsHoldersBound};

use crate::bound::supports_fit;
use crate::counts::counts_of;
use crate::prefix::Prefix;
use crate::remain::{all_negated_remain, first_remain};
use crate::room::are_within;
use crate::walks::{left_of_covering, left_of_first, left_of_support};
use heesch_cnf::{Left, Lit};
use heesch_encode::{Plan, TurnedRing, last_below, rings_of, write_ring};
use heesch_grid::{Cell, Grid};
use heesch_io::NoMemory;
use heesch_place::Universe;
use heesch_shape::Shape;
use std::alloc::Global;
use std::marker::Model;

/// The clauses of families 1 to 3 of the corona formulas of a universe, by their numbers, which count from 1. No
/// clause stands anywhere: its literals are looked up by the cells. Contracts see the universe.
#[derive(Drop)]
pub struct CommonClauses<G: Grid> {
    universe: Universe<G>,
    shape: Shape<G>,
    first: Vec<Cell>,
    rings: Vec<TurnedRing>,
    covering: Prefix,
    lowest: u32,
}

impl<G: Grid> Model for CommonClauses<G> {
    ghost use Rattle.heesch_place.specs.Universes.{Levels};
    ghost use Rattle.heesch_numbers.specs.Common.{AreTables};

    ghost Value = { Levels };

    ghost view = { λ c. c.universe };

    ghost invariant = { λ c. AreTables G.geometry c.universe c.shape c.first.items c.rings.items c.covering c.lowest };
}

impl<G: Grid> CommonClauses<G> {
    /// Those of a universe of a shape. It looks at the cells around each tile once, and keeps a number for each
    /// variable. 2^32 clauses or more count as want of memory.
    pub fn of(
        alloc: Global,
        shape: &Shape<G>,
        universe: Universe<G>,
    ) -> Result<CommonClauses<G>, NoMemory>
        requires canonical { IsCanonicalListOf G.geometry shape.now shape.now }
        requires universe { IsUniverseOf G.geometry universe }
        requires shape { universe.shape ≡ shape.now }
        requires few { length universe.vars < 2 ^ 31 }
        ensures { IfOk result (λ c. c ≡ universe) }
    {
        let _cells = shape.cells();
        let rings = rings_of(alloc, shape)?;
        let mut first = Vec::new(alloc);
        write_ring(&mut first, shape)?;
        let plan = Plan {
            universe: &universe,
            shape,
            level: universe.level(),
            rings: &rings,
        };
        let covering = counts_of(alloc, &plan)?;
        let lowest = last_below(&universe, 2);
        Ok(CommonClauses {
            universe,
            shape: shape.canonical(),
            first,
            rings,
            covering,
            lowest,
        })
    }

    /// The universe. A constant time.
    pub fn universe(&self) -> &Universe<G>
        ensures universe { result.now ≡ self.now }
        ensures is_universe { IsUniverseOf G.geometry self.now }
        ensures few { length self.now.vars < 2 ^ 31 }
    {
        &self.universe
    }

    /// What the clauses are made from.
    fn plan(&self) -> Plan<'_, G>
        ensures plan { IsPlan G.geometry result.universe.now result.shape.now result.level result.rings.now }
        ensures universe { result.universe.now ≡ self.now }
    {
        Plan {
            universe: &self.universe,
            shape: &self.shape,
            level: self.universe.level(),
            rings: self.rings.as_slice(),
        }
    }

    /// How many clauses there are. A constant time.
    pub fn count(&self) -> usize
        ensures { (around : List Cell → List Cell) → GivesCellsAround G.geometry around → result
            ≡ length (common_of G.geometry around self.now) }
    {
        let supports = self.universe.count() - self.lowest;
        self.first.len() + self.covering.total() as usize + supports as usize
    }

    /// The literals of the clause of a number that aren't false. A binary search for the variable, and then a look at
    /// the variables that have the clause's cells. It takes no memory.
    pub fn left(&self, number: u32, values: &[Option<bool>]) -> Left
        requires number { IsCommonNumber G.geometry self.now number }
        requires room { length self.now.vars < length values.now }
        ensures { (around : List Cell → List Cell) → GivesCellsAround G.geometry around
            → IsLeft (held values.now) (numbered (common_of G.geometry around self.now) number) result }
    {
        let plan = self.plan();
        let index = number as usize - 1;
        if index < self.first.len() {
            return left_of_first(&plan, self.first[index], values);
        }
        let place = index - self.first.len();
        let total = self.covering.total() as usize;
        if place < total {
            let (part, rest) = self.covering.place(place as u32);
            return left_of_covering(&plan, part as u32 + 1, rest, values);
        }
        let var = self.lowest + (place - total) as u32 + 1;
        left_of_support(&plan, var, values)
    }

    /// Whether a clause contains, as a set of literals, none of the clauses. The values make its literals false, and
    /// no others. It looks at the clauses of family 1, and at those of the variables that the clause has negated. It
    /// takes no memory.
    pub fn is_new(&self, clause: &[Lit], values: &[Option<bool>]) -> bool
        requires form { (vars : ℕ) × IsClause vars clause.now }
        requires room { length self.now.vars < length values.now }
        requires refuted { held values.now ≡ refuting clause.now }
        ensures { (around : List Cell → List Cell) → GivesCellsAround G.geometry around
            → IsTrue result ↔ IsNew (common_of G.geometry around self.now) clause.now }
    {
        let plan = self.plan();
        if !first_remain(&plan, &self.first, values) {
            return false;
        }
        all_negated_remain(&plan, clause, values)
    }

    /// Whether the clauses have at most so many literals by a bound, where no cell is in the tiles of more than `most`
    /// variables: a clause of family 1 or 2 has a literal for each variable that has its cell, and one more at most.
    /// It takes no memory and a constant time for each variable.
    fn surely_fits(&self, most: u32, room: u32) -> bool
        requires { IsHoldersBound self.now.vars most }
        ensures { (around : List Cell → List Cell) → GivesCellsAround G.geometry around
            → IsTrue result → formula_size (common_of G.geometry around self.now) ≤ room }
    {
        let plan = self.plan();
        let count = self.first.len() + self.covering.total() as usize;
        let size = count.saturating_mul(most as usize + 1);
        if size > room as usize {
            return false;
        }
        supports_fit(&plan, most, room as usize - size)
    }

    /// The same as `fits`, where no cell is in the tiles of more than `most` variables. Only where the bound that this
    /// gives is above the room are the literals counted.
    pub fn fits_by(&self, alloc: Global, most: u32, room: u32) -> Result<bool, NoMemory>
        requires { IsHoldersBound self.now.vars most }
        ensures { (around : List Cell → List Cell) → GivesCellsAround G.geometry around
            → IfOk result (λ yes. IsTrue yes ↔ (formula_size (common_of G.geometry around self.now) ≤ room)) }
    {
        if self.surely_fits(most, room) {
            return Ok(true);
        }
        self.fits(alloc, room)
    }

    /// Whether the clauses have at most so many literals. They are counted by the cells, and no clause is made.
    pub fn fits(&self, alloc: Global, room: u32) -> Result<bool, NoMemory>
        ensures { (around : List Cell → List Cell) → GivesCellsAround G.geometry around
            → IfOk result (λ yes. IsTrue yes ↔ (formula_size (common_of G.geometry around self.now) ≤ room)) }
    {
        let plan = self.plan();
        are_within(alloc, &plan, &self.first, room)
    }
}
