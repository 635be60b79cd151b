//! The torus formula, in one array.
ghost use Rattle.std.specs.Prelude.{◌≡◌, ◌≤◌, true, length, IfOk};
ghost use Rattle.heesch_grid.specs.declared.Cell.{Cell};
ghost use Rattle.heesch_grid.specs.Cells.{has};
ghost use Rattle.heesch_grid.specs.Polyform.{IsPolyform};
ghost use Rattle.heesch_grid.specs.TorusFormula.{torus_clauses};
ghost use Rattle.heesch_grid.specs.Vectors.{IsWithin};
ghost use Rattle.heesch_cert.specs.Literals.{literals};
ghost use Rattle.heesch_torus.specs.Domain.{HasDomain};
ghost use Rattle.heesch_torus.specs.Formula.{reduced_cells, IsFormulaOf, HasModelWhereCover};
ghost use Rattle.heesch_torus.specs.Variables.{sets_of, AreVariables};

use crate::clauses::covering_clauses;
use crate::covering::lists_of_sets;
use crate::found::Variable;
use crate::incidence::{Incidence, TorusSets};
use crate::pairs::add_pair_clauses;
use crate::variables::variables_of;
use heesch_cnf::FlatFormula;
use heesch_grid::Grid;
use heesch_io::NoMemory;
use heesch_lattice::Triple;
use heesch_shape::Shape;
use std::alloc::Global;
use std::marker::PhantomData;

/// The formula over these variables.
fn formula_of<G: Grid>(alloc: Global, incidence: &Incidence<G>) -> Result<FlatFormula, NoMemory>
    ensures vars { IfOk result (λ f. f.vars ≡ length incidence.now.sets.now.variables.now) }
    ensures clauses { IfOk result
        (λ f. f.clauses ≡ torus_clauses literals (reduced_cells G.geometry incidence.now.sets.now.triple)
        (sets_of incidence.now.sets.now.variables.now)) }
    ensures few { IfOk result (λ f. length f.clauses ≤ 30000000) }
{
    let mut formula = covering_clauses(alloc, incidence)?;
    let mut marks = vec![in alloc; 0; incidence.sets.variables.len() + 1]?;
    add_pair_clauses(&mut formula, &mut marks, incidence)?;
    Ok(formula)
}

/// The torus formula of a shape and a triple, and its variables.
pub(crate) fn formula_with_variables<G: Grid>(
    alloc: Global,
    shape: &Shape<G>,
    triple: Triple,
) -> Result<(FlatFormula, Vec<Variable>), NoMemory>
    requires near { (c : Cell) → has shape.now c ≡ true → IsWithin 100000 c }
    requires domain { HasDomain G.geometry (length shape.now) triple }
    ensures form { IfOk result (λ f. IsPolyform G.geometry shape.now) }
    ensures variables { IfOk result (λ f. AreVariables G.geometry shape.now triple f.1.items) }
    ensures vars { IfOk result (λ f. f.0.vars ≡ length f.1.items) }
    ensures clauses { IfOk result
        (λ f. f.0.clauses ≡ torus_clauses literals (reduced_cells G.geometry triple) (sets_of f.1.items)) }
    ensures few { IfOk result (λ f. length f.0.clauses ≤ 30000000) }
{
    let variables = variables_of::<G>(alloc, shape.cells(), triple)?;
    let sets = TorusSets::<G> {
        triple,
        variables: variables.as_slice(),
        grid: PhantomData,
    };
    let lists = lists_of_sets(alloc, &sets)?;
    let incidence = Incidence {
        sets: &sets,
        lists: lists.as_slice(),
    };
    let formula = formula_of(alloc, &incidence)?;
    Ok((formula, variables))
}

/// The torus formula of a shape and a triple. Its variables are the residue sets: the sets of
/// reduced cells of images of the shape that have as many of them as the shape has cells, numbered
/// from 1 by their cell lists. Its clauses say, for each reduced cell in cell order, that one of
/// the variables that have it is true, and then, of each two variables that share a cell, by the
/// first and then the second, that one is false. It has a model exactly where the triple has a
/// periodic cover. Condition: the cells lie within 100,000 of 0, and
/// the triple is one of a domain of 1 to 12 tiles.
///
/// Cost: a reduction and a comparison or two for each cell of an image within the triple, of which
/// there are at most 4,608; then for each variable its cells' lists of variables, which are sought
/// by number, a pass over the later variables, and the clauses.
pub fn torus_formula<G: Grid>(
    alloc: Global,
    shape: &Shape<G>,
    triple: Triple,
) -> Result<FlatFormula, NoMemory>
    requires near { (c : Cell) → has shape.now c ≡ true → IsWithin 100000 c }
    requires domain { HasDomain G.geometry (length shape.now) triple }
    ensures is { IfOk result (λ f. IsFormulaOf G.geometry shape.now triple f.vars f.clauses) }
    ensures model { IfOk result (λ f. HasModelWhereCover G.geometry shape.now triple f.clauses) }
{
    let (formula, _) = formula_with_variables(alloc, shape, triple)?;
    Ok(formula)
}
