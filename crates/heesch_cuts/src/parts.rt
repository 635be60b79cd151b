//! Joined parts of a hole.
ghost use Rattle.std.specs.Prelude.{◌≡◌, ◌<◌, ◌++◌, ◌∷◌, [], true, if◌then◌else◌, All, IfOk, OnOk, length, vec_len};
ghost use Rattle.heesch_grid.specs.Cells.{cell_before};
ghost use Rattle.heesch_grid.specs.Geometry.{IsCell};
ghost use Rattle.heesch_grid.specs.Listing.{IsRising};
ghost use Rattle.heesch_grid.specs.Vectors.{IsWithin};
ghost use Rattle.heesch_cuts.specs.Marks.{is_marked};
ghost use Rattle.heesch_cuts.specs.Parts.{IsClosedPart, IsReached, IsClosed, IsSpread, WentOn, marked_cells};

use crate::cells::place_of;
use heesch_grid::{Cell, Grid};
use heesch_io::{NoMemory, Seq};
use std::alloc::Global;

/// A spread over the places of a hole: which are reached, and those whose neighbours are still to be looked at.
#[derive(Drop)]
struct Spread {
    reached: Vec<bool>,
    todo: Vec<usize>,
}

impl Spread {
    /// Reaches the cell, if it is one of the hole.
    fn reach(&mut self, hole: &[Cell], d: Cell) -> Result<(), NoMemory>
        requires rising { IsRising cell_before hole.now }
        requires size { vec_len self.old.reached ≡ length hole.now }
        ensures on { OnOk result
            (WentOn hole.now self.old.reached.items self.old.todo.items self.new.reached.items self.new.todo.items) }
        ensures there { OnOk result (IsReached hole.now self.new.reached.items d) }
    {
        if let Some(at) = place_of(hole, d) {
            if !self.reached[at] {
                self.todo.push(at)?;
                self.reached[at] = true;
            }
        }
        Ok(())
    }

    /// Reaches the cells of the hole that are adjacent to c.
    fn reach_around<G: Grid>(&mut self, hole: &[Cell], c: Cell) -> Result<(), NoMemory>
        requires rising { IsRising cell_before hole.now }
        requires size { vec_len self.old.reached ≡ length hole.now }
        requires cell { IsCell G.geometry c }
        requires within { IsWithin 1000000 c }
        ensures on { OnOk result
            (WentOn hole.now self.old.reached.items self.old.todo.items self.new.reached.items self.new.todo.items) }
        ensures around { OnOk result (All (IsReached hole.now self.new.reached.items) (G.geometry.adjacent c)) }
    {
        for i in 0..G::ADJACENT {
            self.reach(hole, G::adjacent(c, i))?;
        }
        Ok(())
    }

    /// Reaches all that is joined to what is reached.
    fn reach_all<G: Grid>(&mut self, hole: &[Cell]) -> Result<(), NoMemory>
        requires rising { IsRising cell_before hole.now }
        requires cells { All (IsCell G.geometry) hole.now }
        requires within { All (IsWithin 1000000) hole.now }
        requires start { IsSpread G.geometry hole.now self.old.reached.items self.old.todo.items }
        ensures size { OnOk result (vec_len self.new.reached ≡ length hole.now) }
        ensures first { OnOk result (is_marked self.new.reached.items 0 ≡ true) }
        ensures closed { OnOk result (IsClosed G.geometry hole.now self.new.reached.items) }
    {
        while let Some(at) = self.todo.pop() {
            self.reach_around::<G>(hole, hole[at])?;
        }
        Ok(())
    }

    /// The cells whose places are reached.
    fn cells(&self, alloc: Global, hole: &[Cell]) -> Result<Seq<Cell>, NoMemory>
        requires { vec_len self.now.reached ≡ length hole.now }
        ensures { IfOk result (λ part. part ≡ marked_cells self.now.reached.items hole.now) }
    {
        let mut part = Seq::new(alloc);
        for (i, c) in hole.iter().enumerate() {
            push_reached(&mut part, self.reached[i], *c)?;
        }
        Ok(part)
    }
}

/// The spread from the first place of the hole, at its end.
fn spread_over<G: Grid>(alloc: Global, hole: &[Cell]) -> Result<Spread, NoMemory>
    requires rising { IsRising cell_before hole.now }
    requires some { 0 < length hole.now }
    requires cells { All (IsCell G.geometry) hole.now }
    requires within { All (IsWithin 1000000) hole.now }
    ensures size { IfOk result (λ spread. vec_len spread.reached ≡ length hole.now) }
    ensures first { IfOk result (λ spread. is_marked spread.reached.items 0 ≡ true) }
    ensures closed { IfOk result (λ spread. IsClosed G.geometry hole.now spread.reached.items) }
{
    let mut reached = vec![in alloc; false; hole.len()]?;
    reached[0] = true;
    let mut todo = Vec::new(alloc);
    todo.push(0)?;
    let mut spread = Spread { reached, todo };
    spread.reach_all::<G>(hole)?;
    Ok(spread)
}

/// The cell stands last, if it is reached.
fn push_reached(part: &mut Seq<Cell>, reached: bool, c: Cell) -> Result<(), NoMemory>
    ensures { OnOk result (part.new ≡ part.old ++ (if reached then c ∷ [] else [])) }
{
    if reached {
        part.push(c)?;
    }
    Ok(())
}

/// The cells of the hole that paths of adjacent cells of it join to its first one, in cell order.
/// Each place is looked at once, with a binary search for each of its neighbours.
pub(crate) fn joined_part<G: Grid>(alloc: Global, hole: &[Cell]) -> Result<Seq<Cell>, NoMemory>
    requires rising { IsRising cell_before hole.now }
    requires some { 0 < length hole.now }
    requires cells { All (IsCell G.geometry) hole.now }
    requires within { All (IsWithin 1000000) hole.now }
    ensures { IfOk result (IsClosedPart G.geometry hole.now) }
{
    let spread = spread_over::<G>(alloc, hole)?;
    spread.cells(alloc, hole)
}
