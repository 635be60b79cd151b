//! The clauses that say that of two residue sets that share a cell one isn't chosen.
ghost use Rattle.std.specs.Prelude.{◌≡◌, ◌<◌, ◌≤◌, ◌+◌, ◌-◌, ◌*◌, ◌^◌, ◌∷◌, [], ◌==◌, length, replicate, All, OnOk};
ghost use Rattle.std.specs.List.{list_any};
ghost use Rattle.heesch_cert.specs.Literals.{literals};
ghost use Rattle.heesch_grid.specs.Cells.{meet, set_of};
ghost use Rattle.heesch_grid.specs.CoronaFormula.{exclusion_clauses};
ghost use Rattle.heesch_torus.specs.Formula.{AddsClauses, pair_clause, marked_clauses};
ghost use Rattle.heesch_torus.specs.Marks.{Marks};
ghost use Rattle.heesch_torus.specs.Variables.{sets_of};

use crate::incidence::Incidence;
use heesch_cnf::{FlatFormula, Lit};
use heesch_grid::Grid;
use heesch_io::NoMemory;
use heesch_tiling::number_of;

/// Marks the listed variables with a number.
fn mark(marks: &mut [u32], variables: &[u32], number: u32)
    requires { All (λ v. v < length marks.old) variables.now }
    ensures { Marks (λ v. list_any (λ w. w == v) variables.now) number marks.old marks.new }
{
    for var in variables {
        marks[*var as usize] = number;
    }
}

/// Marks the variables that share a cell with the variable at this place, by its number.
fn mark_meeting<G: Grid>(marks: &mut [u32], incidence: &Incidence<G>, at: usize)
    requires at { at < length incidence.now.sets.now.variables.now }
    requires all { length marks.old ≡ length incidence.now.sets.now.variables.now + 1 }
    ensures { Marks (λ v. meet (set_of (sets_of incidence.now.sets.now.variables.now) (at + 1))
        (set_of (sets_of incidence.now.sets.now.variables.now) v)) (at + 1) marks.old marks.new }
{
    let number = at as u32 + 1;
    let sets = incidence.sets;
    let triple = sets.triple;
    let lists = incidence.lists;
    let variables = sets.variables;
    let variable = &variables[at];
    for c in variable.residues.as_slice() {
        mark(marks, lists[number_of::<G>(triple, *c)].as_slice(), number);
    }
}

/// The negation of a variable.
fn minus(var: u32) -> Lit
    ensures { result ≡ literals.minus var }
{
    Lit {
        var,
        positive: false,
    }
}

/// The clause that says that one of two variables isn't chosen.
fn pair_clause(first: u32, second: u32) -> [Lit; 2]
    ensures { result ≡ pair_clause first second }
{
    [minus(first), minus(second)]
}

/// Adds the clauses of the variable at this place with each later one that is marked with its number.
fn add_marked(formula: &mut FlatFormula, marks: &[u32], at: usize) -> Result<(), NoMemory>
    requires below { at + 1 < length marks.now }
    requires few { length marks.now ≤ 4609 }
    requires all { length marks.now ≡ formula.old.vars + 1 }
    requires room { length formula.old.clauses ≤ 2 ^ 30 }
    ensures adds { OnOk result
        (AddsClauses (marked_clauses marks.now (at + 1)) formula.old.vars formula.old.clauses formula.new.vars
        formula.new.clauses) }
    ensures few { OnOk result (length formula.new.clauses ≤ length formula.old.clauses + 4608) }
{
    let number = at as u32 + 1;
    for other in number + 1..marks.len() as u32 {
        if marks[other as usize] == number {
            formula.add(&pair_clause(number, other))?;
        }
    }
    Ok(())
}

/// Adds the clause of each pair of variables that share a cell, by the first and then the second. No variable is
/// marked yet.
pub(crate) fn add_pair_clauses<G: Grid>(
    formula: &mut FlatFormula,
    marks: &mut [u32],
    incidence: &Incidence<G>,
) -> Result<(), NoMemory>
    requires none { marks.old ≡ replicate (length incidence.now.sets.now.variables.now + 1) 0 }
    requires vars { formula.old.vars ≡ length incidence.now.sets.now.variables.now }
    requires room { length formula.old.clauses ≤ 2000000 }
    ensures adds { OnOk result
        (AddsClauses (exclusion_clauses literals meet
        (sets_of incidence.now.sets.now.variables.now)) formula.old.vars formula.old.clauses formula.new.vars
        formula.new.clauses) }
    ensures few { OnOk result (length formula.new.clauses ≤ length formula.old.clauses + 4608 * 4608) }
{
    for at in 0..incidence.sets.variables.len() {
        mark_meeting(marks, incidence, at);
        add_marked(formula, marks, at)?;
    }
    Ok(())
}
