//! The variables that have each reduced cell.
ghost use Rattle.std.specs.Prelude.{◌≡◌, ◌≤◌, ◌*◌, length, IfOk};
ghost use Rattle.heesch_grid.specs.Lattice.{IsTriple};
ghost use Rattle.heesch_tori.specs.Shared.{AreReducedLists};
ghost use Rattle.heesch_torus.specs.Covering.{cell_lists};
ghost use Rattle.heesch_torus.specs.Variables.{sets_of, AreReducedSets};

use heesch_grid::Grid;
use heesch_io::{NoMemory, Seq};
use heesch_lattice::Triple;
use heesch_tiling::pair_at;
use heesch_torus::{Variable, covering_lists};
use std::alloc::Global;

/// Those of these lists that are of cells, where there is a list for each pair of the window.
fn lists_of_cells<G: Grid>(
    alloc: Global,
    triple: Triple,
    all: Vec<Seq<u32>>,
) -> Result<Vec<Seq<u32>>, NoMemory>
    requires few { length all.items ≤ 13824 }
    ensures { IfOk result (λ lists. lists.items ≡ cell_lists G.geometry triple all.items) }
{
    let mut lists = Vec::new(alloc);
    let mut k = 0;
    for list in all {
        if G::is_cell(pair_at::<G>(triple, k)) {
            lists.push(list)?;
        }
        k += 1;
    }
    Ok(lists)
}

/// For each reduced cell, in cell order, the numbers of the variables that have it, in rising order.
pub(crate) fn reduced_lists<G: Grid>(
    alloc: Global,
    triple: Triple,
    variables: &[Variable],
) -> Result<Vec<Seq<u32>>, NoMemory>
    requires triple { IsTriple triple }
    requires small { triple.p * triple.q ≤ 384 }
    requires sets { AreReducedSets G.geometry triple (sets_of variables.now) }
    requires few { length variables.now ≤ 4608 }
    ensures lists { IfOk result (λ lists. AreReducedLists G.geometry triple (sets_of variables.now) lists.items) }
    ensures few { IfOk result (λ lists. length lists.items ≤ 13824) }
{
    let all = covering_lists::<G>(alloc, triple, variables)?;
    lists_of_cells::<G>(alloc, triple, all)
}
