//! The variables that have a reduced cell, for each reduced cell.
ghost use Rattle.std.specs.Prelude.{◌≡◌, ◌<◌, ◌≤◌, ◌++◌, ◌∷◌, [], length, slice_set, slice_index_or, replicate, IfOk};
ghost use Rattle.std.specs.Prelude.{OnOk};
ghost use Rattle.heesch_grid.specs.Lattice.{IsTriple};
ghost use Rattle.heesch_tiling.specs.Counting.{window_size};
ghost use Rattle.heesch_torus.specs.Variables.{sets_of, AreReducedSets, IsReducedSet};
ghost use Rattle.heesch_torus.specs.Covering.{AreCovering, AddsNumber};

use crate::found::Variable;
use crate::incidence::TorusSets;
use heesch_grid::{Cell, Grid};
use heesch_io::{NoMemory, Seq};
use heesch_lattice::Triple;
use heesch_tiling::{number_of, window_size};
use std::alloc::Global;
use std::marker::PhantomData;

/// Adds a number to the k-th list.
fn add_to(lists: &mut [Seq<u32>], k: usize, variable: u32) -> Result<(), NoMemory>
    requires { k < length lists.old }
    ensures { OnOk result (lists.new ≡ slice_set lists.old k (slice_index_or lists.old k [] ++ variable ∷ [])) }
{
    lists[k].push(variable)
}

/// Adds the number of a variable to the lists of its cells.
fn add_variable<G: Grid>(
    lists: &mut [Seq<u32>],
    triple: Triple,
    cells: &[Cell],
    variable: u32,
) -> Result<(), NoMemory>
    requires triple { IsTriple triple }
    requires all { length lists.old ≡ window_size G.geometry triple }
    requires cells { IsReducedSet G.geometry triple cells.now }
    ensures { OnOk result (AddsNumber G.geometry triple cells.now variable lists.old lists.new) }
{
    for c in cells {
        add_to(lists, number_of::<G>(triple, *c), variable)?;
    }
    Ok(())
}

/// An empty list for each number.
fn empty_lists(alloc: Global, count: usize) -> Result<Vec<Seq<u32>>, NoMemory>
    ensures { IfOk result (λ v. v.items ≡ replicate count []) }
{
    let mut lists = Vec::new(alloc);
    for _ in 0..count {
        lists.push(Seq::new(alloc))?;
    }
    Ok(lists)
}

/// Adds the numbers of the variables to the lists of their cells.
fn add_variables<G: Grid>(lists: &mut [Seq<u32>], sets: &TorusSets<G>) -> Result<(), NoMemory>
    requires { AreCovering G.geometry sets.now.triple [] lists.old }
    ensures { OnOk result (AreCovering G.geometry sets.now.triple (sets_of sets.now.variables.now) lists.new) }
{
    let triple = sets.triple;
    let variables = sets.variables;
    for (before, variable) in variables.iter().enumerate() {
        add_variable::<G>(
            lists,
            triple,
            variable.residues.as_slice(),
            before as u32 + 1,
        )?;
    }
    Ok(())
}

/// For each pair of the window the numbers of the variables that have it, in rising order.
pub(crate) fn lists_of_sets<G: Grid>(
    alloc: Global,
    sets: &TorusSets<G>,
) -> Result<Vec<Seq<u32>>, NoMemory>
    ensures { IfOk result
        (λ lists. AreCovering G.geometry sets.now.triple (sets_of sets.now.variables.now) lists.items) }
{
    let mut lists = empty_lists(alloc, window_size::<G>(sets.triple))?;
    add_variables(&mut lists, sets)?;
    Ok(lists)
}

/// For each pair of the window the numbers of the variables that have it, in rising order.
///
/// Condition: the variables' cells are reduced, and there are at most 4,608 variables. `NoMemory` says nothing more.
/// Cost: a step for each pair of the window, and one for each cell of each variable.
pub fn covering_lists<G: Grid>(
    alloc: Global,
    triple: Triple,
    variables: &[Variable],
) -> Result<Vec<Seq<u32>>, NoMemory>
    requires triple { IsTriple triple }
    requires sets { AreReducedSets G.geometry triple (sets_of variables.now) }
    requires few { length variables.now ≤ 4608 }
    ensures { IfOk result (λ lists. AreCovering G.geometry triple (sets_of variables.now) lists.items) }
{
    let sets = TorusSets::<G> {
        triple,
        variables,
        grid: PhantomData,
    };
    lists_of_sets(alloc, &sets)
}
