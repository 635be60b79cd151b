//! Residue sets with their isometries, as they are found.
ghost use Rattle.std.specs.Prelude.{◌≡◌, [], IfOk, OnOk};
ghost use Rattle.heesch_grid.specs.Cells.{cells_before};
ghost use Rattle.heesch_grid.specs.Listing.{IsRising};
ghost use Rattle.heesch_torus.specs.Variables.{sets_of, torus_variable, AddsFirst};

use crate::residues::Residues;
use heesch_grid::Iso;
use heesch_io::NoMemory;
use std::alloc::Global;
use std::collections::BTreeMap;
use std::marker::Model;

/// A variable of the torus formula: a residue set, in cell order, and its isometry, the first within the triple that
/// gives it.
#[derive(Drop)]
pub struct Variable {
    pub residues: Residues,
    pub by: Iso,
}

impl Model for Variable {
    ghost use Rattle.heesch_torus.specs.Variables.{TorusVariable, torus_variable};

    ghost Value = { TorusVariable };

    ghost view = { λ v. torus_variable v.residues.items v.by };
}

/// The residue sets that were found, in the order of their cell lists, each with the first isometry
/// that gave it.
#[derive(Drop)]
pub(crate) struct Found {
    sets: BTreeMap<Residues, Iso>,
}

impl Model for Found {
    ghost use Rattle.std.specs.Prelude.{List, map};
    ghost use Rattle.heesch_torus.specs.Variables.{TorusVariable, torus_variable};

    ghost Value = { List TorusVariable };

    ghost view = { λ f. map (λ e. torus_variable e.0.items e.1) f.sets.entries };
}

impl Found {
    pub(crate) fn new(alloc: Global) -> Found
        ensures { result ≡ [] }
    {
        Found {
            sets: BTreeMap::new(alloc),
        }
    }

    /// One more residue set, unless it was found before.
    pub(crate) fn add(&mut self, set: Residues, by: Iso) -> Result<(), NoMemory>
        ensures { OnOk result (AddsFirst (torus_variable set.items by) self.old self.new) }
    {
        if self.sets.contains_key(&set) {
            return Ok(());
        }
        self.sets.insert(set, by)?;
        Ok(())
    }

    /// The variables, in number order.
    pub(crate) fn into_variables(self, alloc: Global) -> Result<Vec<Variable>, NoMemory>
        ensures rising { IsRising cells_before (sets_of self) }
        ensures all { IfOk result (λ v. v.items ≡ self) }
    {
        let mut variables = Vec::new(alloc);
        for (residues, by) in self.sets {
            variables.push(Variable { residues, by })?;
        }
        Ok(variables)
    }
}
