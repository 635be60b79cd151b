//! Lists that grow, and are then sorted and kept once.
ghost use Rattle.std.specs.Prelude.{◌≡◌, ◌≤◌, ◌++◌, ◌∷◌, [], length, Contains, OnOk};
ghost use Rattle.heesch_grid.specs.Cells.{cells_before};
ghost use Rattle.heesch_grid.specs.Listing.{ListsExactly};

use heesch_grid::Grid;
use heesch_io::NoMemory;
use heesch_shape::Shape;

/// The item stands last.
pub(crate) fn add<T: Drop>(all: &mut Vec<T>, item: T) -> Result<(), NoMemory>
    ensures { OnOk result (all.new.items ≡ all.old.items ++ item ∷ []) }
{
    match all.push(item) {
        Ok(()) => Ok(()),
        Err(_) => Err(NoMemory),
    }
}

/// The same tiles, each once, in the order of their cell lists.
pub(crate) fn listed_tiles<G: Grid>(mut all: Vec<Shape<G>>) -> Vec<Shape<G>>
    ensures listed { ListsExactly cells_before (Contains all.items) result.items }
    ensures few { length result.items ≤ length all.items }
{
    all.sort_unstable();
    all.dedup();
    all
}
