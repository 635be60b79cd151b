//! The clauses that say that each reduced cell is covered.
ghost use Rattle.std.specs.Prelude.{◌≡◌, ◌<◌, ◌≤◌, ◌^◌, ◌∷◌, [], map, length, IfOk, OnOk};
ghost use Rattle.heesch_cert.specs.Literals.{literals};
ghost use Rattle.heesch_torus.specs.Covering.{AreNumbers, cell_lists};
ghost use Rattle.heesch_torus.specs.Formula.{AddsClauses};

use crate::incidence::Incidence;
use heesch_cnf::{FlatFormula, Lit};
use heesch_grid::Grid;
use heesch_io::NoMemory;
use heesch_tiling::pair_at;
use std::alloc::Global;

/// Makes the clause of these variables, in place of what the list had.
fn write_clause(clause: &mut Vec<Lit>, variables: &[u32]) -> Result<(), NoMemory>
    ensures { OnOk result (clause.new.items ≡ map literals.plus variables.now) }
{
    clause.clear();
    for var in variables {
        clause.push(Lit {
            var: *var,
            positive: true,
        })?;
    }
    Ok(())
}

/// Adds the clause of a list, which is made in `clause`.
fn add_clause(
    formula: &mut FlatFormula,
    clause: &mut Vec<Lit>,
    variables: &[u32],
) -> Result<(), NoMemory>
    requires numbers { AreNumbers formula.old.vars variables.now }
    requires room { length formula.old.clauses < 2 ^ 31 }
    ensures { OnOk result
        (AddsClauses (map literals.plus variables.now
        ∷ []) formula.old.vars formula.old.clauses formula.new.vars formula.new.clauses) }
{
    write_clause(clause, variables)?;
    formula.add(clause.as_slice())
}

/// The clause of each reduced cell, in cell order: the variables that have it.
pub(crate) fn covering_clauses<G: Grid>(
    alloc: Global,
    incidence: &Incidence<G>,
) -> Result<FlatFormula, NoMemory>
    ensures vars { IfOk result (λ f. f.vars ≡ length incidence.now.sets.now.variables.now) }
    ensures clauses { IfOk result
        (λ f. f.clauses ≡ map (map literals.plus)
        (cell_lists G.geometry incidence.now.sets.now.triple incidence.now.lists.now)) }
    ensures few { IfOk result (λ f. length f.clauses ≤ 13824) }
{
    let sets = incidence.sets;
    let triple = sets.triple;
    let lists = incidence.lists;
    let mut formula = FlatFormula::new(alloc, sets.variables.len() as u32);
    let mut clause = Vec::new(alloc);
    for (k, list) in lists.iter().enumerate() {
        if G::is_cell(pair_at::<G>(triple, k)) {
            add_clause(&mut formula, &mut clause, list.as_slice())?;
        }
    }
    Ok(formula)
}
