//! The last family of the second formula, by the numbers of its clauses: owner variables tell of each cell that
//! several variables have which of them is chosen.
ghost use Rattle.std.specs.Prelude.{◌≡◌, ◌+◌, ◌-◌, ◌*◌, ◌<◌, ◌≤◌, ◌^◌, ◌∷◌, ◌++◌, ◌↔◌, [], IsTrue, Contains};
ghost use Rattle.std.specs.Prelude.{length, max, slice_index_or, IfOk, OnOk, IsErrOf};
ghost use Rattle.heesch_cert.specs.Literals.{literals};
ghost use Rattle.heesch_cnf.specs.Clauses.{IsClause, IsNew};
ghost use Rattle.heesch_cnf.specs.Left.{IsLeft};
ghost use Rattle.heesch_cnf.specs.Literals.{held};
ghost use Rattle.heesch_grid.specs.Clauses.{formula_size};
ghost use Rattle.heesch_grid.specs.OwnerFormula.{bit, digits, signed};
ghost use Rattle.heesch_place.specs.Universes.{IsUniverseOf};

use crate::prefix::Prefix;
use heesch_cnf::{Left, Lit, left_in};
use heesch_encode::{EncodeStop, digits_of_ranks, holders_of, owned_cells};
use heesch_grid::{Cell, Grid};
use heesch_place::Universe;
use std::alloc::Global;

/// A formula has fewer variables than this.
const VARIABLES_MAX: u32 = 1 << 31;

/// The cells that several variables of a universe have, in cell order, with how many clauses and owner variables each
/// has, and the most variables that have one of them.
#[derive(Drop)]
pub(crate) struct OwnerClauses {
    pub cells: Vec<Cell>,
    pub clauses: Prefix,
    pub owners: Prefix,
    pub most_holders: u32,
}

/// The literal of a variable and a sign.
fn literal(var: u32, positive: bool) -> Lit
    ensures { result ≡ signed literals positive var }
{
    Lit { var, positive }
}

/// Whether bit t of the rank is 1.
fn bit_of(rank: usize, t: u32) -> bool
    requires { t < 64 }
    ensures { result ≡ bit t rank }
{
    (rank >> t) & 1 == 1
}

impl OwnerClauses {
    ghost use Rattle.heesch_numbers.specs.OwnerCounts.{AreOwners, HaveMoreThan, HasOneOf, IsHoldersBound};
    ghost use Rattle.heesch_numbers.specs.OwnerCounts.{owners_of, vars_with};

    /// Without a count. A cell that isn't among these has one holder at most.
    fn new(alloc: Global, cells: Vec<Cell>) -> OwnerClauses
        ensures cells { result.cells.items ≡ cells.items }
        ensures clauses { result.clauses ≡ [] }
        ensures owners { result.owners ≡ [] }
        ensures most { result.most_holders ≡ 1 }
    {
        OwnerClauses {
            cells,
            clauses: Prefix::new(alloc),
            owners: Prefix::new(alloc),
            most_holders: 1,
        }
    }

    /// Counts the clauses and the owner variables of a cell that so many variables have.
    fn count_cell(&mut self, holders: usize, room: u32) -> Result<u32, EncodeStop>
        requires several { 2 ≤ holders }
        requires few { holders < 2 ^ 31 }
        ensures cells { self.new.cells ≡ self.old.cells }
        ensures clauses { OnOk result (self.new.clauses ≡ self.old.clauses ++ holders * digits (holders - 1) ∷ []) }
        ensures owners { OnOk result (self.new.owners ≡ self.old.owners ++ digits (holders - 1) ∷ []) }
        ensures most { OnOk result (self.new.most_holders ≡ max self.old.most_holders holders) }
        ensures left { IfOk result (λ left. left + 2 * (holders * digits (holders - 1)) ≡ room) }
        ensures too_large { IsErrOf result EncodeStop.TooLarge → room < 2 * (holders * digits (holders - 1)) }
    {
        let digits = digits_of_ranks(holders);
        let clauses = holders as u64 * digits as u64;
        if 2 * clauses > room as u64 {
            return Err(EncodeStop::TooLarge);
        }
        self.clauses.push(clauses as u32)?;
        self.owners.push(digits)?;
        self.most_holders = self.most_holders.max(holders as u32);
        Ok(room - 2 * clauses as u32)
    }

    /// The last family of a universe, where its clauses have at most `room` literals, and how many more there could
    /// be. `TooLarge` exactly where they have more. 2^31 variables or more count as want of memory. A look-up for each
    /// cell of each variable's tile, and a sort of the cells found.
    pub fn of<G: Grid>(
        alloc: Global,
        universe: &Universe<G>,
        room: u32,
    ) -> Result<(OwnerClauses, u32), EncodeStop>
        requires universe { IsUniverseOf G.geometry universe.now }
        requires few { length universe.now.vars < 2 ^ 31 }
        ensures owners { IfOk result (λ r. AreOwners universe.now.vars r.0) }
        ensures most { IfOk result (λ r. IsHoldersBound universe.now.vars r.0.most_holders) }
        ensures left { IfOk result (λ r. r.1 + formula_size (owners_of universe.now.vars r.0.cells.items) ≡ room) }
        ensures too_large { IsErrOf result EncodeStop.TooLarge → HaveMoreThan universe.now.vars room }
    {
        let mut all = OwnerClauses::new(alloc, owned_cells(alloc, universe)?);
        let mut left = room;
        for i in 0..all.cells.len() {
            let holders = holders_of(universe, all.cells[i]).len();
            left = all.count_cell(holders, left)?;
        }
        if all.owners.total() >= VARIABLES_MAX - universe.count() {
            return Err(EncodeStop::NoMemory);
        }
        Ok((all, left))
    }

    /// How many clauses there are.
    pub fn count<G: Grid>(&self, universe: &Universe<G>) -> u32
        requires { AreOwners universe.now.vars self.now }
        ensures { result ≡ length (owners_of universe.now.vars self.now.cells.items) }
    {
        self.clauses.total()
    }

    /// How many variables there are with the owner variables.
    pub fn vars<G: Grid>(&self, universe: &Universe<G>) -> u32
        requires { AreOwners universe.now.vars self.now }
        ensures { result ≡ vars_with universe.now.vars self.now.cells.items }
    {
        universe.count() + self.owners.total()
    }

    /// The literals of the clause at this place, from 0, that aren't false. A binary search and a look-up; it takes no
    /// memory.
    pub fn left<G: Grid>(&self, universe: &Universe<G>, place: u32, values: &[Option<bool>]) -> Left
        requires universe { IsUniverseOf G.geometry universe.now }
        requires owners { AreOwners universe.now.vars self.now }
        requires place { place < length (owners_of universe.now.vars self.now.cells.items) }
        requires room { vars_with universe.now.vars self.now.cells.items < length values.now }
        ensures { IsLeft (held values.now)
            (slice_index_or (owners_of universe.now.vars self.now.cells.items) place []) result }
    {
        let (part, rest) = self.clauses.place(place);
        let holders = holders_of(universe, self.cells[part]);
        let digits = digits_of_ranks(holders.len());
        let rank = (rest / digits) as usize;
        let t = rest % digits;
        let owner = universe.count() + 1 + self.owners.start(part) + t;
        left_in(
            values,
            &[
                literal(holders[rank], false),
                literal(owner, bit_of(rank, t)),
            ],
        )
    }

    /// Whether the clause of the variable's negation and this literal of an owner variable is one of them. Two binary
    /// searches and a look-up.
    fn has_pair<G: Grid>(&self, universe: &Universe<G>, var: u32, owner: Lit) -> bool
        requires universe { IsUniverseOf G.geometry universe.now }
        requires owners { AreOwners universe.now.vars self.now }
        requires later { length universe.now.vars < owner.var }
        requires last { owner.var ≤ vars_with universe.now.vars self.now.cells.items }
        ensures { IsTrue result
            ↔ Contains (owners_of universe.now.vars self.now.cells.items) (literals.minus var ∷ owner ∷ []) }
    {
        let (part, t) = self.owners.place(owner.var - universe.count() - 1);
        match holders_of(universe, self.cells[part]).binary_search(&var) {
            Ok(rank) => bit_of(rank, t) == owner.positive,
            Err(_) => false,
        }
    }

    /// Whether one of them is this literal of an owner variable and the negation of a variable in the clause.
    fn has_one_of<G: Grid>(&self, universe: &Universe<G>, owner: Lit, clause: &[Lit]) -> bool
        requires universe { IsUniverseOf G.geometry universe.now }
        requires owners { AreOwners universe.now.vars self.now }
        requires later { length universe.now.vars < owner.var }
        requires last { owner.var ≤ vars_with universe.now.vars self.now.cells.items }
        ensures { IsTrue result ↔ HasOneOf (owners_of universe.now.vars self.now.cells.items) owner clause.now }
    {
        for lit in clause {
            if !lit.positive && self.has_pair(universe, lit.var, owner) {
                return true;
            }
        }
        false
    }

    /// Whether the clause contains, as a set of literals, none of them. For each literal of an owner variable in it
    /// and each negated variable, two binary searches and a look-up; it takes no memory.
    pub fn is_new<G: Grid>(&self, universe: &Universe<G>, clause: &[Lit]) -> bool
        requires universe { IsUniverseOf G.geometry universe.now }
        requires owners { AreOwners universe.now.vars self.now }
        requires form { IsClause (vars_with universe.now.vars self.now.cells.items) clause.now }
        ensures { IsTrue result ↔ IsNew (owners_of universe.now.vars self.now.cells.items) clause.now }
    {
        for owner in clause {
            if owner.var > universe.count() && self.has_one_of(universe, *owner, clause) {
                return false;
            }
        }
        true
    }
}
