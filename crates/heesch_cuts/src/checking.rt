//! Whether a cut is lawful.
ghost use Rattle.std.specs.Prelude.{◌≡◌, ◌<◌, ◌≤◌, ◌↔◌, ◌&&◌, not, IsTrue, IfOk, length, All, nat_lt};
ghost use Rattle.std.specs.List.{list_any, list_all};
ghost use Rattle.heesch_grid.specs.Cells.{cell_before, has};
ghost use Rattle.heesch_grid.specs.Geometry.{IsCell};
ghost use Rattle.heesch_grid.specs.Listing.{IsRising};
ghost use Rattle.heesch_grid.specs.Vectors.{IsWithin};
ghost use Rattle.heesch_place.specs.Universes.{IsUniverseOf};
ghost use Rattle.heesch_cert.specs.Cuts.{IsLawful, IsBorderVariable};
ghost use Rattle.heesch_cuts.specs.Marks.{is_marked, is_in};
ghost use Rattle.heesch_cuts.specs.Enclosing.{IsOutside, are_held, is_held};

use crate::cells::{are_apart, are_rising as are_rising_cells, has_cell};
use crate::marks::{are_rising, marks_of};
use heesch_cert::Cut;
use heesch_grid::{Cell, Grid};
use heesch_io::NoMemory;
use heesch_place::Universe;
use heesch_shape::Shape;
use std::alloc::Global;

/// Whether each is a cell of the grid, and none is in the shape.
fn are_outside<G: Grid>(shape: &Shape<G>, cells: &[Cell]) -> bool
    requires { All (IsWithin 100000) cells.now }
    ensures { result ≡ list_all (λ c. G.geometry.is_cell c && not (has shape.now c)) cells.now }
{
    for c in cells {
        if !G::is_cell(*c) || shape.has(*c) {
            return false;
        }
    }
    true
}

/// Whether these are a set of cells outside the shape, in cell order, and not none.
fn is_hole<G: Grid>(shape: &Shape<G>, hole: &[Cell]) -> bool
    requires { All (IsWithin 100000) hole.now }
    ensures { IsTrue result ↔ IsOutside G.geometry shape.now hole.now }
{
    !hole.is_empty() && are_rising_cells(hole) && are_outside::<G>(shape, hole)
}

/// Whether the number is that of a variable of level at most `level` whose placement is apart from the hole.
fn is_border_variable<G: Grid>(universe: &Universe<G>, level: u32, hole: &[Cell], n: u32) -> bool
    requires { IsRising cell_before hole.now }
    ensures { IsTrue result ↔ IsBorderVariable universe.now.vars level hole.now n }
{
    if n == 0 || n > universe.count() || universe.level_of(n) > level {
        return false;
    }
    are_apart(universe.placement_of(n).shape().cells(), hole)
}

/// Whether these are such numbers.
fn are_border_variables<G: Grid>(
    universe: &Universe<G>,
    level: u32,
    hole: &[Cell],
    border: &[u32],
) -> bool
    requires { IsRising cell_before hole.now }
    ensures { IsTrue result ↔ All (IsBorderVariable universe.now.vars level hole.now) border.now }
{
    for n in border {
        if !is_border_variable::<G>(universe, level, hole, *n) {
            return false;
        }
    }
    true
}

/// Whether one of the numbers is marked.
fn is_any_marked(marks: &[bool], numbers: &[u32]) -> bool
    requires { All (λ n. n < length marks.now) numbers.now }
    ensures { result ≡ list_any (is_marked marks.now) numbers.now }
{
    for n in numbers {
        if marks[*n as usize] {
            return true;
        }
    }
    false
}

/// Whether the cell is in the hole, in the shape, or in the placement of a marked variable of level at most `level`.
fn is_held<G: Grid>(
    shape: &Shape<G>,
    universe: &Universe<G>,
    level: u32,
    hole: &[Cell],
    marks: &[bool],
    d: Cell,
) -> bool
    requires rising { IsRising cell_before hole.now }
    requires room { length universe.now.vars < length marks.now }
    ensures { result ≡ is_held shape.now universe.now.vars level hole.now marks.now d }
{
    has_cell(hole, d) || shape.has(d) || is_any_marked(marks, universe.covered_by(d, level))
}

/// Whether each cell that is adjacent to c is so held.
fn are_held<G: Grid>(
    shape: &Shape<G>,
    universe: &Universe<G>,
    level: u32,
    hole: &[Cell],
    marks: &[bool],
    c: Cell,
) -> bool
    requires rising { IsRising cell_before hole.now }
    requires room { length universe.now.vars < length marks.now }
    requires cell { IsCell G.geometry c }
    requires within { IsWithin 100000 c }
    ensures { result ≡ are_held G.geometry shape.now universe.now.vars level hole.now marks.now c }
{
    for i in 0..G::ADJACENT {
        if !is_held::<G>(shape, universe, level, hole, marks, G::adjacent(c, i)) {
            return false;
        }
    }
    true
}

/// Whether each cell that is adjacent to one of the hole is so held.
fn is_enclosed<G: Grid>(
    shape: &Shape<G>,
    universe: &Universe<G>,
    level: u32,
    hole: &[Cell],
    marks: &[bool],
) -> bool
    requires outside { IsOutside G.geometry shape.now hole.now }
    requires room { length universe.now.vars < length marks.now }
    requires near { All (IsWithin 100000) hole.now }
    ensures { result ≡ list_all (are_held G.geometry shape.now universe.now.vars level hole.now marks.now) hole.now }
{
    for c in hole {
        if !are_held::<G>(shape, universe, level, hole, marks, *c) {
            return false;
        }
    }
    true
}

/// Whether the cut is lawful over the universe: its level is one of the universe's; its hole is a
/// set of cells outside the shape, in strictly rising order and not empty; its border's numbers
/// strictly rise, and are those of variables of its level or below whose placements don't meet the
/// hole; and every cell adjacent to one of the hole is in the hole, in the shape or in a placement
/// of the border.
///
/// Condition: the universe is of this shape, and the hole's cells have coordinates within 100,000
/// of 0; hole and border may be any lists. It takes a byte a variable, a binary search in the hole
/// for each cell of the border and for each cell adjacent to the hole, and for the latter a look at
/// the placements that cover it.
pub fn lawful<G: Grid>(
    alloc: Global,
    shape: &Shape<G>,
    universe: &Universe<G>,
    cut: &Cut,
) -> Result<bool, NoMemory>
    requires universe { IsUniverseOf G.geometry universe.now }
    requires shape { universe.now.shape ≡ shape.now }
    requires near { All (IsWithin 100000) cut.now.hole }
    ensures { IfOk result
        (λ answer. IsTrue answer ↔ IsLawful G.geometry shape.now universe.now.level universe.now.vars cut.now) }
{
    let hole = cut.hole.as_slice();
    let border = cut.border.as_slice();
    if cut.level == 0 || cut.level > universe.level() || !is_hole::<G>(shape, hole) {
        return Ok(false);
    }
    if !are_rising(border) || !are_border_variables::<G>(universe, cut.level, hole, border) {
        return Ok(false);
    }
    let marks = marks_of(alloc, universe.count(), border)?;
    Ok(is_enclosed::<G>(shape, universe, cut.level, hole, &marks))
}
