//! The last family of the first formula, by the numbers of its clauses: of two variables that meet one isn't chosen.
ghost use Rattle.std.specs.Prelude.{◌≡◌, ◌+◌, ◌*◌, ◌<◌, ◌≤◌, ◌^◌, ◌∷◌, ◌++◌, [], All};
ghost use Rattle.std.specs.Prelude.{length, slice_index_or, IfOk, OnOk, IsErrOf};
ghost use Rattle.heesch_cert.specs.Literals.{literals};
ghost use Rattle.heesch_cnf.specs.Left.{IsLeft};
ghost use Rattle.heesch_cnf.specs.Literals.{held};
ghost use Rattle.heesch_encode.specs.Families.{apart_at};
ghost use Rattle.heesch_encode.specs.Marks.{AreUnmarked};
ghost use Rattle.heesch_grid.specs.Clauses.{formula_size};
ghost use Rattle.heesch_grid.specs.CoronaFormula.{Variable, IsNumbered};
ghost use Rattle.heesch_grid.specs.OwnerFormula.{holders};
ghost use Rattle.heesch_place.specs.Universes.{IsUniverseOf};
ghost use Rattle.heesch_numbers.specs.OwnerCounts.{IsHoldersBound};

use crate::later::later_at;
use heesch_cnf::{Left, Lit, left_in};
use heesch_encode::{EncodeStop, Marks, holders_of, list_meeting};
use heesch_grid::Grid;
use heesch_io::NoMemory;
use heesch_numbers::Prefix;
use heesch_place::Universe;
use std::alloc::Global;

/// How many later variables meet each variable, and the most variables that have one cell.
#[derive(Drop)]
pub(crate) struct PairClauses {
    pub later: Prefix,
    pub most_holders: u32,
}

/// The negation of a variable.
fn minus(var: u32) -> Lit
    ensures { result ≡ literals.minus var }
{
    Lit {
        var,
        positive: false,
    }
}

/// The most variables that have one of the cells of the variable's tile, or `most` where that is more. A look-up for
/// each cell.
fn most_with<G: Grid>(universe: &Universe<G>, var: u32, most: u32) -> u32
    requires universe { IsUniverseOf G.geometry universe.now }
    requires few { length universe.now.vars < 2 ^ 31 }
    requires number { (1 ≤ var) × (var ≤ length universe.now.vars) }
    ensures more { most ≤ result }
    ensures each { (x : Variable) → IsNumbered universe.now.vars var x
        → All (λ c. length (holders universe.now.vars c) ≤ result) x.tile }
{
    let mut found = most;
    for c in universe.placement_of(var).shape().cells() {
        found = found.max(holders_of(universe, *c).len() as u32);
    }
    found
}

/// How many later variables meet the variable. They are found by the cells of its tile, and listed: a step for each
/// variable that has one of them.
fn count_later<G: Grid>(
    universe: &Universe<G>,
    var: u32,
    numbers: &mut Vec<u32>,
    marks: &mut Marks,
) -> Result<u32, NoMemory>
    requires universe { IsUniverseOf G.geometry universe.now }
    requires few { length universe.now.vars < 2 ^ 31 }
    requires number { (1 ≤ var) × (var ≤ length universe.now.vars) }
    requires unmarked { AreUnmarked (length universe.now.vars) marks.old.words.items }
    ensures unmarked { OnOk result (AreUnmarked (length universe.now.vars) marks.new.words.items) }
    ensures count { (x : Variable) → IsNumbered universe.now.vars var x
        → IfOk result (λ n. n ≡ length (apart_at universe.now.vars (var, x))) }
    ensures small { IfOk result (λ n. n < 2 ^ 31) }
{
    let cells = universe.placement_of(var).shape().cells();
    list_meeting(numbers, marks, universe, cells, var, universe.level())?;
    Ok(numbers.len() as u32)
}

impl PairClauses {
    ghost use Rattle.heesch_pairwise.specs.Pairs.{pairs_of, pair_counts, HaveMoreThan};

    /// Adds the count of the next variable, and says how much room its clauses leave.
    fn add(&mut self, count: u32, room: u32) -> Result<u32, EncodeStop>
        requires { count < 2 ^ 31 }
        ensures later { OnOk result (self.new.later ≡ self.old.later ++ count ∷ []) }
        ensures most { self.new.most_holders ≡ self.old.most_holders }
        ensures left { IfOk result (λ left. left + 2 * count ≡ room) }
        ensures too_large { IsErrOf result EncodeStop.TooLarge → room < 2 * count }
    {
        if 2 * count > room {
            return Err(EncodeStop::TooLarge);
        }
        self.later.push(count)?;
        Ok(room - 2 * count)
    }

    /// The last family of a universe, where its clauses have at most `room` literals, and how many more there could
    /// be. `TooLarge` exactly where they have more. Two look-ups for each cell of each variable's tile, and a step for
    /// each variable that has it.
    pub fn of<G: Grid>(
        alloc: Global,
        universe: &Universe<G>,
        room: u32,
    ) -> Result<(PairClauses, u32), EncodeStop>
        requires universe { IsUniverseOf G.geometry universe.now }
        requires few { length universe.now.vars < 2 ^ 31 }
        ensures later { IfOk result (λ r. r.0.later ≡ pair_counts universe.now.vars) }
        ensures most { IfOk result (λ r. IsHoldersBound universe.now.vars r.0.most_holders) }
        ensures left { IfOk result (λ r. r.1 + formula_size (pairs_of universe.now.vars) ≡ room) }
        ensures too_large { IsErrOf result EncodeStop.TooLarge → HaveMoreThan universe.now.vars room }
    {
        let mut all = PairClauses {
            later: Prefix::new(alloc),
            most_holders: 0,
        };
        let mut numbers = Vec::new(alloc);
        let mut marks = Marks::new(alloc, universe.count())?;
        let mut left = room;
        for i in 0..universe.count() {
            let count = count_later(universe, i + 1, &mut numbers, &mut marks)?;
            left = all.add(count, left)?;
            all.most_holders = most_with(universe, i + 1, all.most_holders);
        }
        Ok((all, left))
    }

    /// How many clauses there are.
    pub fn count<G: Grid>(&self, universe: &Universe<G>) -> u32
        requires { self.now.later ≡ pair_counts universe.now.vars }
        ensures { result ≡ length (pairs_of universe.now.vars) }
    {
        self.later.total()
    }

    /// The literals of the clause at this place, from 0, that aren't false. A binary search for the first variable,
    /// and a merge of those that have its cells up to the second; it takes no memory.
    pub fn left<G: Grid>(&self, universe: &Universe<G>, place: u32, values: &[Option<bool>]) -> Left
        requires universe { IsUniverseOf G.geometry universe.now }
        requires few { length universe.now.vars < 2 ^ 31 }
        requires later { self.now.later ≡ pair_counts universe.now.vars }
        requires place { place < length (pairs_of universe.now.vars) }
        requires room { length universe.now.vars < length values.now }
        ensures { IsLeft (held values.now) (slice_index_or (pairs_of universe.now.vars) place []) result }
    {
        let (part, rest) = self.later.place(place);
        let var = part as u32 + 1;
        let other = later_at(universe, var, rest);
        left_in(values, &[minus(var), minus(other)])
    }
}
