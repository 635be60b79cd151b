//! The variables of a torus formula, and which of them share a cell.
ghost use Rattle.std.specs.Prelude.{◌≡◌, ◌<◌, ◌≤◌, ◌*◌, true, length, IfOk};
ghost use Rattle.heesch_grid.specs.declared.Cell.{Cell};
ghost use Rattle.heesch_grid.specs.Cells.{has, meet, set_of};
ghost use Rattle.heesch_grid.specs.Vectors.{IsWithin};
ghost use Rattle.heesch_torus.specs.Domain.{HasDomain};
ghost use Rattle.heesch_torus.specs.Variables.{sets_of, AreVariables};
ghost use Rattle.heesch_tori.specs.Shared.{AreCellLists, AreReducedLists, IsVariable, tabled_sets};

use crate::lists::reduced_lists;
use crate::rows::{have_common_bit, rows_of};
use heesch_grid::Grid;
use heesch_io::{NoMemory, Seq};
use heesch_lattice::Triple;
use heesch_shape::Shape;
use heesch_torus::{Variable, variables_of};
use std::alloc::Global;
use std::marker::Model;

/// The variables, for each reduced cell those that have it, and for each variable a row of words with a bit for each
/// of its cells. Contracts see the variables and the lists.
#[derive(Drop)]
pub(crate) struct CellTable {
    variables: Vec<Variable>,
    lists: Vec<Seq<u32>>,
    width: usize,
    words: Vec<u64>,
}

impl Model for CellTable {
    ghost use Rattle.heesch_tori.specs.Shared.{Tabled, IsTable, table_of};

    ghost Value = { Tabled };

    ghost view = { λ t. table_of t.variables.items t.lists.items };

    ghost invariant = { λ t. IsTable t.variables.items t.lists.items t.width t.words.items };
}

impl CellTable {
    /// The table of a shape and a triple.
    pub fn of<G: Grid>(
        alloc: Global,
        shape: &Shape<G>,
        triple: Triple,
    ) -> Result<CellTable, NoMemory>
        requires near { (c : Cell) → has shape.now c ≡ true → IsWithin 100000 c }
        requires domain { HasDomain G.geometry (length shape.now) triple }
        ensures variables { IfOk result (λ t. AreVariables G.geometry shape.now triple t.variables) }
        ensures lists { IfOk result (λ t. AreReducedLists G.geometry triple (sets_of t.variables) t.lists) }
    {
        let variables = variables_of::<G>(alloc, shape.cells(), triple)?;
        let lists = reduced_lists::<G>(alloc, triple, &variables)?;
        let width = lists.len() / 64 + 1;
        let words = rows_of(alloc, &lists, variables.len(), width)?;
        Ok(CellTable {
            variables,
            lists,
            width,
            words,
        })
    }

    /// The variables, in number order.
    pub fn variables(&self) -> &[Variable]
        ensures { result.now ≡ self.now.variables }
    {
        &self.variables
    }

    /// For each reduced cell, in cell order, the numbers of the variables that have it, in rising order.
    pub fn lists(&self) -> &[Seq<u32>]
        ensures lists { result.now ≡ self.now.lists }
        ensures numbers { AreCellLists (tabled_sets self.now) self.now.lists }
        ensures few { length self.now.lists ≤ 13824 }
        ensures most { length self.now.variables ≤ 4608 }
    {
        &self.lists
    }

    /// How many variables there are.
    pub fn count(&self) -> u32
        ensures count { result ≡ length self.now.variables }
        ensures few { result ≤ 4608 }
        ensures lists { AreCellLists (tabled_sets self.now) self.now.lists }
    {
        self.variables.len() as u32
    }

    /// Whether the variables of these numbers share a cell. A step for each 64 cells.
    pub fn meets(&self, first: u32, second: u32) -> bool
        requires first { IsVariable (length self.now.variables) first }
        requires second { IsVariable (length self.now.variables) second }
        ensures { result ≡ meet (set_of (tabled_sets self.now) first) (set_of (tabled_sets self.now) second) }
    {
        have_common_bit(
            &self.words,
            self.width,
            first as usize - 1,
            second as usize - 1,
        )
    }
}
