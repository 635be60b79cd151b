//! The patches of a model, level by level.
ghost use Rattle.std.specs.Prelude.{◌≡◌, ◌≤◌, ◌++◌, All, OnOk, length};
ghost use Rattle.heesch_grid.specs.CoronaFormula.{Variable, IsNumbered};
ghost use Rattle.heesch_grid.specs.Corona.{cells_of};
ghost use Rattle.heesch_grid.specs.Statements.{chosen_layer};
ghost use Rattle.heesch_grid.specs.Vectors.{IsWithin};
ghost use Rattle.heesch_cnf.specs.Clauses.{assignment_of};
ghost use Rattle.heesch_cuts.specs.Patches.{layer_cells};

use heesch_grid::{Cell, Grid};
use heesch_io::NoMemory;
use heesch_place::Universe;

/// The cells of the variable's placement stand last, if it is true and of this level.
fn add_tile<G: Grid>(
    cells: &mut Vec<Cell>,
    universe: &Universe<G>,
    model: &[bool],
    level: u32,
    n: u32,
) -> Result<(), NoMemory>
    requires number { (1 ≤ n) × (n ≤ length universe.now.vars) }
    requires values { length universe.now.vars ≤ length model.now }
    ensures cells { OnOk result
        ((x : Variable) → IsNumbered universe.now.vars n x
        → cells.new.items ≡ cells.old.items ++ layer_cells model.now level (n, x)) }
    ensures within { All (IsWithin 1000000) cells.old.items → All (IsWithin 1000000) cells.new.items }
{
    if universe.level_of(n) == level && model[n as usize - 1] {
        cells.extend_from_slice(universe.placement_of(n).shape().cells())?;
    }
    Ok(())
}

/// The cells of the placements of the true variables of this level stand last. It looks at each
/// variable.
pub(crate) fn add_layer<G: Grid>(
    cells: &mut Vec<Cell>,
    universe: &Universe<G>,
    model: &[bool],
    level: u32,
) -> Result<(), NoMemory>
    requires { length universe.now.vars ≤ length model.now }
    ensures cells { OnOk result
        (cells.new.items ≡ cells.old.items ++ cells_of
        (chosen_layer (assignment_of model.now) universe.now.vars level)) }
    ensures within { All (IsWithin 1000000) cells.old.items → All (IsWithin 1000000) cells.new.items }
{
    for i in 0..universe.count() {
        add_tile::<G>(cells, universe, model, level, i + 1)?;
    }
    Ok(())
}
