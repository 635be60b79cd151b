//! The border of a hole of a patch.
ghost use Rattle.std.specs.Prelude.{◌≡◌, ◌<◌, ◌≤◌, true, false, All, IfOk, IfSome, IfNone, IsTrue, length};
ghost use Rattle.std.specs.List.{list_any};
ghost use Rattle.heesch_grid.specs.Geometry.{IsCell};
ghost use Rattle.heesch_grid.specs.Vectors.{IsWithin};
ghost use Rattle.heesch_cnf.specs.Clauses.{assignment_of};
ghost use Rattle.heesch_place.specs.Universes.{covering};
ghost use Rattle.heesch_cuts.specs.Marks.{is_in};
ghost use Rattle.heesch_cuts.specs.Enclosing.{is_covered};
ghost use Rattle.heesch_cuts.specs.Patches.{AreChosen, Grows, IsPatchOf, IsBordered, IsBorderOf};

use crate::marks::{marked_numbers, no_marks};
use heesch_grid::{Cell, Grid};
use heesch_io::{NoMemory, Seq};
use heesch_place::Universe;
use heesch_region::Region;
use heesch_shape::Shape;
use std::alloc::Global;

/// The patch of a level of a model: the shape with the placements of the true variables of at most this level.
#[derive(Drop)]
pub(crate) struct LevelPatch<'a, G: Grid> {
    pub shape: &'a Shape<G>,
    pub universe: &'a Universe<G>,
    pub model: &'a [bool],
    pub level: u32,
    pub cells: &'a Region<G>,
}

/// The first of the numbers whose variable is true.
fn first_chosen(model: &[bool], numbers: &[u32]) -> Option<u32>
    requires { All (λ n. (1 ≤ n) × (n ≤ length model.now)) numbers.now }
    ensures some { IfSome result (λ n. (is_in numbers.now n ≡ true) × (assignment_of model.now n ≡ true)) }
    ensures none { IfNone result (list_any (assignment_of model.now) numbers.now ≡ false) }
{
    for n in numbers {
        if model[*n as usize - 1] {
            return Some(*n);
        }
    }
    None
}

/// Marks the first true variable of level at most `level` whose placement has the cell.
fn mark_over<G: Grid>(
    marks: &mut [bool],
    universe: &Universe<G>,
    model: &[bool],
    level: u32,
    d: Cell,
)
    requires values { length universe.now.vars ≤ length model.now }
    requires room { length universe.now.vars < length marks.old }
    requires chosen { AreChosen universe.now.vars model.now level marks.old }
    ensures chosen { AreChosen universe.now.vars model.now level marks.new }
    ensures grows { Grows marks.old marks.new }
    ensures covered { list_any (assignment_of model.now) (covering universe.now.vars level d) ≡ true
        → is_covered universe.now.vars level marks.new d ≡ true }
{
    if let Some(n) = first_chosen(model, universe.covered_by(d, level)) {
        marks[n as usize] = true;
    }
}

/// Marks the first true variable over the cell, if it is in the patch and outside the shape.
fn mark_at<G: Grid>(marks: &mut [bool], patch: &LevelPatch<G>, d: Cell)
    requires patch { IsPatchOf patch.now.universe.now patch.now.shape.now patch.now.model.now patch.now.level
        patch.now.cells.now }
    requires room { length patch.now.universe.now.vars < length marks.old }
    requires chosen { AreChosen patch.now.universe.now.vars patch.now.model.now patch.now.level marks.old }
    ensures chosen { AreChosen patch.now.universe.now.vars patch.now.model.now patch.now.level marks.new }
    ensures grows { Grows marks.old marks.new }
    ensures bordered { IsBordered patch.now.shape.now patch.now.universe.now.vars patch.now.level patch.now.cells.now
        marks.new d }
{
    if patch.cells.has(d) && !patch.shape.has(d) {
        mark_over::<G>(marks, patch.universe, patch.model, patch.level, d);
    }
}

/// Marks, for each cell of the patch that is adjacent to c and outside the shape, the first true
/// variable over it.
fn mark_beside<G: Grid>(marks: &mut [bool], patch: &LevelPatch<G>, c: Cell)
    requires patch { IsPatchOf patch.now.universe.now patch.now.shape.now patch.now.model.now patch.now.level
        patch.now.cells.now }
    requires room { length patch.now.universe.now.vars < length marks.old }
    requires chosen { AreChosen patch.now.universe.now.vars patch.now.model.now patch.now.level marks.old }
    requires cell { IsCell G.geometry c }
    requires within { IsWithin 1000000 c }
    ensures chosen { AreChosen patch.now.universe.now.vars patch.now.model.now patch.now.level marks.new }
    ensures grows { Grows marks.old marks.new }
    ensures beside { All (IsBordered patch.now.shape.now patch.now.universe.now.vars patch.now.level
        patch.now.cells.now marks.new) (G.geometry.adjacent c) }
{
    for i in 0..G::ADJACENT {
        mark_at::<G>(marks, patch, G::adjacent(c, i));
    }
}

/// Marks these beside each cell of the hole.
fn mark_border<G: Grid>(marks: &mut [bool], patch: &LevelPatch<G>, hole: &[Cell])
    requires patch { IsPatchOf patch.now.universe.now patch.now.shape.now patch.now.model.now patch.now.level
        patch.now.cells.now }
    requires room { length patch.now.universe.now.vars < length marks.old }
    requires chosen { AreChosen patch.now.universe.now.vars patch.now.model.now patch.now.level marks.old }
    requires cells { All (IsCell G.geometry) hole.now }
    requires within { All (IsWithin 1000000) hole.now }
    ensures chosen { AreChosen patch.now.universe.now.vars patch.now.model.now patch.now.level marks.new }
    ensures beside { All (λ c. All
        (IsBordered patch.now.shape.now patch.now.universe.now.vars patch.now.level patch.now.cells.now marks.new)
        (G.geometry.adjacent c)) hole.now }
{
    for c in hole {
        mark_beside::<G>(marks, patch, *c);
    }
}

/// For each cell of the patch that is adjacent to the hole and outside the shape, the least true
/// variable of level at most that of the patch whose placement has it, in rising order.
pub(crate) fn border_of<G: Grid>(
    alloc: Global,
    patch: &LevelPatch<G>,
    hole: &[Cell],
) -> Result<Seq<u32>, NoMemory>
    requires patch { IsPatchOf patch.now.universe.now patch.now.shape.now patch.now.model.now patch.now.level
        patch.now.cells.now }
    requires cells { All (IsCell G.geometry) hole.now }
    requires within { All (IsWithin 1000000) hole.now }
    ensures { IfOk result (IsBorderOf G.geometry patch.now.universe.now patch.now.model.now patch.now.level hole.now) }
{
    let count = patch.universe.count();
    let mut marks = no_marks(alloc, count)?;
    mark_border::<G>(&mut marks, patch, hole);
    marked_numbers(alloc, &marks, count)
}
