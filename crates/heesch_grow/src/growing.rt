//! The shapes of one more cell.
ghost use Rattle.std.specs.Prelude.{ℕ, ◌≡◌, ◌≤◌, ◌++◌, ◌∷◌, ◌⊎◌, [], false, true, length, List, OnOk, IfOk, Contains};
ghost use Rattle.std.specs.Prelude.{All};
ghost use Rattle.heesch_grid.specs.declared.Cell.{Cell};
ghost use Rattle.heesch_grid.specs.Cells.{cells_before, has};
ghost use Rattle.heesch_grid.specs.Listing.{ListsExactly};
ghost use Rattle.heesch_grid.specs.Statements.{IsGrownFrom};
ghost use Rattle.heesch_grid.specs.Vectors.{IsWithin};
ghost use Rattle.heesch_shape.specs.Reach.{IsNextTo};
ghost use Rattle.heesch_grow.specs.Parents.{IsSmall};
ghost use Rattle.heesch_grow.specs.Adds.{Adds, IsChildAt, IsChildOfSome, IsGrownFromSome};

use heesch_grid::{Cell, Grid};
use heesch_io::NoMemory;
use heesch_shape::{Shape, is_next_to};
use std::alloc::Global;

/// The item stands last.
fn add<T: Drop>(all: &mut Vec<T>, item: T) -> Result<(), NoMemory>
    ensures { OnOk result (all.new.items ≡ all.old.items ++ item ∷ []) }
{
    match all.push(item) {
        Ok(()) => Ok(()),
        Err(_) => Err(NoMemory),
    }
}

/// Whether the cell is outside of the parent and beside none of its earlier cells.
fn is_new<G: Grid>(parent: &Shape<G>, earlier: &[Cell], added: Cell) -> bool
    requires { (c : Cell) → has earlier.now c ≡ true → has parent.now c ≡ true }
    ensures yes { result ≡ true → has parent.now added ≡ false }
    ensures no { result ≡ false → (has parent.now added ≡ true) ⊎ IsNextTo G.geometry earlier.now added }
{
    let _shape = parent.cells();
    !parent.has(added) && !is_next_to::<G>(earlier, added)
}

/// Adds the canonical shapes of the parent with one cell beside c. Those whose cell lies beside an
/// earlier cell of the parent too are there already.
fn add_beside<G: Grid>(
    all: &mut Vec<Shape<G>>,
    parent: &Shape<G>,
    earlier: &[Cell],
    c: Cell,
) -> Result<(), NoMemory>
    requires few { length parent.now ≤ 31 }
    requires inside { has parent.now c ≡ true }
    requires near { IsWithin 100000 c }
    requires before { (d : Cell) → has earlier.now d ≡ true → has parent.now d ≡ true }
    requires done { (r : List Cell) → IsChildOfSome G.geometry parent.now earlier.now r → Contains all.old.items r }
    ensures { OnOk result
        (Adds (IsGrownFrom G.geometry parent.now) (IsChildAt G.geometry parent.now c) all.old.items all.new.items) }
{
    let _shape = parent.cells();
    for i in 0..G::ADJACENT {
        let added = G::adjacent(c, i);
        if is_new(parent, earlier, added) {
            add(all, parent.with(added).canonical())?;
        }
    }
    Ok(())
}

/// Adds the canonical shapes of the parent with one cell beside one of its own.
fn add_children<G: Grid>(all: &mut Vec<Shape<G>>, parent: &Shape<G>) -> Result<(), NoMemory>
    requires few { length parent.now ≤ 31 }
    requires near { (c : Cell) → has parent.now c ≡ true → IsWithin 100000 c }
    ensures { OnOk result
        (Adds (IsGrownFrom G.geometry parent.now) (IsGrownFrom G.geometry parent.now) all.old.items all.new.items) }
{
    let cells = parent.cells();
    for (at, c) in cells.iter().enumerate() {
        add_beside(all, parent, &cells[..at], *c)?;
    }
    Ok(())
}

/// The strictly rising list of the canonical shapes of a parent with one cell beside it. The
/// parents have at most 31 cells, each within 100,000 of 0, as all canonical shapes of at most 31
/// cells do; no parents give the empty list. Want of memory alone gives another answer.
///
/// Each cell beside a parent is tried once, by one canonical form. The forms are then sorted and
/// equal ones dropped: n log n comparisons for n forms, of which the parents give at most 12 a cell.
pub fn children<G: Grid>(alloc: Global, parents: &[Shape<G>]) -> Result<Vec<Shape<G>>, NoMemory>
    requires { All IsSmall parents.now }
    ensures { IfOk result (λ made. ListsExactly cells_before (IsGrownFromSome G.geometry parents.now) made.items) }
{
    let mut all = Vec::new(alloc);
    for parent in parents {
        add_children(&mut all, parent)?;
    }
    all.sort_unstable();
    all.dedup();
    Ok(all)
}
