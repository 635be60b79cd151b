//! The last family of the second formula: owner variables, which tell of each cell that several variables have which
//! of them is chosen.
ghost use Rattle.std.specs.Prelude.{◌≡◌, ◌+◌, ◌<◌, ◌≤◌, ◌^◌, length, flat_map, All, sum_by};
ghost use Rattle.std.specs.List.{enumerate_from};
ghost use Rattle.heesch_grid.specs.OwnerFormula.{IsOwned, owner_count, rank_clauses, owner_clauses};
ghost use Rattle.heesch_cert.specs.Literals.{literals};
ghost use Rattle.heesch_place.specs.Universes.{IsUniverseOf};
ghost use Rattle.heesch_encode.specs.Taking.{IsTaken};

use crate::clauses::{literal, minus};
use crate::collector::Collector;
use crate::owned::{digits_of_ranks, holders_of};
use crate::stop::EncodeStop;
use heesch_grid::{Cell, Grid};
use heesch_place::Universe;

/// Where the variable is true, so many owner variables from `start` on are the bits of its rank, from the lowest.
fn take_rank(
    rank: usize,
    var: u32,
    start: u32,
    count: u32,
    collector: &mut Collector,
) -> Result<(), EncodeStop>
    requires var { (1 ≤ var) × (var < start) }
    requires count { count ≤ 64 }
    requires last { start + count ≤ collector.old.formula.vars + 1 }
    requires small { collector.old.formula.vars < 2 ^ 31 }
    ensures { IsTaken result collector.old collector.new (rank_clauses literals start count (rank, var)) }
{
    for t in 0..count {
        let owner = literal(start + t, (rank >> t) & 1 == 1);
        collector.take(&[minus(var), owner])?;
    }
    Ok(())
}

/// The clauses of a cell that these variables have.
fn take_ranks(
    holders: &[u32],
    start: u32,
    count: u32,
    collector: &mut Collector,
) -> Result<(), EncodeStop>
    requires holders { All (λ n. (1 ≤ n) × (n < start)) holders.now }
    requires count { count ≤ 64 }
    requires last { start + count ≤ collector.old.formula.vars + 1 }
    requires small { collector.old.formula.vars < 2 ^ 31 }
    ensures { IsTaken result collector.old collector.new
        (flat_map (rank_clauses literals start count) (enumerate_from 0 holders.now)) }
{
    for (rank, var) in holders.iter().enumerate() {
        take_rank(rank, *var, start, count, collector)?;
    }
    Ok(())
}

/// The clauses of these cells, whose owner variables are numbered after the universe's, by cell and then by bit. A
/// look-up for each cell and a step for each clause.
pub(crate) fn take_owners<G: Grid>(
    universe: &Universe<G>,
    owned: &[Cell],
    collector: &mut Collector,
) -> Result<(), EncodeStop>
    requires universe { IsUniverseOf G.geometry universe.now }
    requires owned { All (IsOwned universe.now.vars) owned.now }
    requires vars { collector.old.formula.vars ≡ length universe.now.vars + sum_by
        (owner_count universe.now.vars) owned.now }
    requires small { collector.old.formula.vars < 2 ^ 31 }
    ensures { IsTaken result collector.old collector.new
        (owner_clauses literals universe.now.vars (length universe.now.vars + 1) owned.now) }
{
    let mut start = universe.count() + 1;
    for c in owned {
        let holders = holders_of(universe, *c);
        let count = digits_of_ranks(holders.len());
        take_ranks(holders, start, count, collector)?;
        start += count;
    }
    Ok(())
}
