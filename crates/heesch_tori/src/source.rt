//! The torus formula as a source of clauses.
ghost use Rattle.std.specs.Prelude.{◌≡◌, ◌≤◌, ◌++◌, true, map, length, All, Contains, IfOk, MatchOption};
ghost use Rattle.heesch_cert.specs.Literals.{literals};
ghost use Rattle.heesch_cnf.specs.Lines.{IsNumber, numbered};
ghost use Rattle.heesch_encode.specs.Literals.{plus_all};
ghost use Rattle.heesch_grid.specs.declared.Cell.{Cell};
ghost use Rattle.heesch_grid.specs.Cells.{has, meet};
ghost use Rattle.heesch_grid.specs.CoronaFormula.{exclusion_clauses};
ghost use Rattle.heesch_grid.specs.Vectors.{IsWithin};
ghost use Rattle.heesch_torus.specs.Covering.{AreNumbers};
ghost use Rattle.heesch_torus.specs.Domain.{HasDomain};
ghost use Rattle.heesch_torus.specs.Formula.{IsFormulaOf, pair_clause};
ghost use Rattle.heesch_torus.specs.Variables.{sets_of, AreVariables};

use crate::apart::{are_apart, lists_remain};
use crate::later::{LaterVariables, later_variables, part, place_of};
use crate::table::CellTable;
use heesch_cnf::{ClauseSource, Left, Lit, NewnessSource, left_in};
use heesch_grid::Grid;
use heesch_io::{NoMemory, Seq};
use heesch_lattice::Triple;
use heesch_numbers::left_with_all;
use heesch_shape::Shape;
use heesch_torus::Variable;
use std::alloc::Global;
use std::marker::{Model, PhantomData};

/// The torus formula of a shape and a triple, by the numbers of its clauses: first one for each reduced cell, in cell
/// order, and then one for each two variables that share a cell, by the first and then the second. None stands
/// anywhere. What is kept are the variables, for each cell the numbers of those that have it, and for each variable a
/// bit for each cell and the numbers of the later ones that share a cell with it: a word for each two variables that
/// share one, at most about 42 MB.
#[derive(Drop)]
pub struct TorusSource<G: Grid> {
    table: CellTable,
    later: LaterVariables,
    grid: PhantomData<G>,
}

impl<G: Grid> Model for TorusSource<G> {
    ghost use Rattle.heesch_tori.specs.TorusView.{TorusView, ListsPairs, torus_view};

    ghost Value = { TorusView };

    ghost view = { λ s. torus_view s.table.variables s.table.lists };

    ghost invariant = { λ s. ListsPairs s.table s.later.counts s.later.numbers.items };
}

/// The negation of a variable.
fn minus(var: u32) -> Lit
    ensures { result ≡ literals.minus var }
{
    Lit {
        var,
        positive: false,
    }
}

impl<G: Grid> TorusSource<G> {
    /// The source of the torus formula of a shape and a triple.
    ///
    /// Condition: the cells lie within 100,000 of 0, and the triple is one of a domain of 1 to 12 tiles. `NoMemory`
    /// says nothing more. Cost: that of the variables, of which there are at most 4,608, and for each two of them a
    /// step for each 64 reduced cells.
    pub fn of(alloc: Global, shape: &Shape<G>, triple: Triple) -> Result<TorusSource<G>, NoMemory>
        requires near { (c : Cell) → has shape.now c ≡ true → IsWithin 100000 c }
        requires domain { HasDomain G.geometry (length shape.now) triple }
        ensures variables { IfOk result (λ s. AreVariables G.geometry shape.now triple s.variables) }
        ensures formula { IfOk result
            (λ s. IsFormulaOf G.geometry shape.now triple s.formula.vars s.formula.clauses) }
        ensures vars { IfOk result (λ s. s.formula.vars ≡ length s.variables) }
    {
        let table = CellTable::of(alloc, shape, triple)?;
        let later = later_variables(alloc, &table)?;
        Ok(TorusSource {
            table,
            later,
            grid: PhantomData,
        })
    }

    /// The variables, in number order. It takes no memory and a constant time.
    pub fn variables(&self) -> &[Variable]
        ensures { result.now ≡ self.now.variables }
    {
        self.table.variables()
    }

    /// For each reduced cell, in cell order, the numbers of the variables that have it, in rising order: the clauses
    /// are those of these lists, and then those of the pairs of variables that share a cell. It takes no memory and a
    /// constant time.
    pub fn lists(&self) -> &[Seq<u32>]
        ensures clauses { self.now.formula.clauses
            ≡ map plus_all result.now ++ exclusion_clauses literals meet (sets_of self.now.variables) }
        ensures numbers { All (AreNumbers (length self.now.variables)) result.now }
    {
        self.table.lists()
    }

    /// The number of the clause of two variables that share a cell, the lower one first; None where there is none: they
    /// share no cell, or the first isn't the lower. A binary search among the later variables that share a cell with
    /// the first; it takes no memory.
    ///
    /// Condition: the first is the number of a variable. The second may be any.
    pub fn pair_number(&self, first: u32, second: u32) -> Option<u32>
        requires { (1 ≤ first) × (first ≤ length self.now.variables) }
        ensures { let clause = pair_clause first second in
            MatchOption result (¬ Contains (exclusion_clauses literals meet (sets_of self.now.variables)) clause)
            (λ number. IsNumber self.now.formula.clauses number
            × (numbered self.now.formula.clauses number ≡ clause)) }
    {
        let start = self.later.counts.start(first as usize - 1) as usize;
        let end = self.later.counts.start(first as usize) as usize;
        let Some(rank) = place_of(part(&self.later.numbers, start, end), second) else {
            return None;
        };
        Some((self.table.lists().len() + start + rank) as u32 + 1)
    }
}

impl<G: Grid> ClauseSource for TorusSource<G> {
    ghost listed = { λ s. s.formula };

    fn vars(&self) -> u32 {
        self.table.count()
    }

    fn count(&self) -> usize {
        self.table.lists().len() + self.later.counts.total() as usize
    }

    fn left(&self, number: u32, values: &[Option<bool>]) -> Left {
        let lists = self.table.lists();
        let index = number as usize - 1;
        if index < lists.len() {
            return left_with_all(Left::Nothing, values, lists[index].as_slice());
        }
        let place = index - lists.len();
        let (at, _rest) = self.later.counts.place(place as u32);
        let first = at as u32 + 1;
        let second = self.later.numbers[place];
        left_in(values, &[minus(first), minus(second)])
    }
}

impl<G: Grid> NewnessSource for TorusSource<G> {
    fn is_new(&self, clause: &[Lit], values: &[Option<bool>]) -> bool {
        if !lists_remain(self.table.lists(), values) {
            return false;
        }
        are_apart(&self.table, clause)
    }
}
