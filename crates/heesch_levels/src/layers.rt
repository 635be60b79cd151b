//! The layers of a model.
ghost use Rattle.std.specs.Prelude.{◌≤◌, IfOk, length};
ghost use Rattle.std.specs.List.{AllZip};
ghost use Rattle.heesch_cnf.specs.Clauses.{assignment_of};
ghost use Rattle.heesch_grid.specs.Placement.{IsLeastIsometry};
ghost use Rattle.heesch_grid.specs.Statements.{chosen_layer, chosen_layers};
ghost use Rattle.heesch_cert.specs.TrueEntry.{Spells};

use heesch_cert::{Isos, Layers};
use heesch_grid::Grid;
use heesch_io::{NoMemory, Seq};
use heesch_place::Universe;
use std::alloc::Global;

/// The least isometries of the tiles of the true variables of one level, in number order.
fn layer_of<G: Grid>(
    alloc: Global,
    universe: &Universe<G>,
    values: &[bool],
    level: u32,
) -> Result<Isos, NoMemory>
    requires { length universe.now.vars ≤ length values.now }
    ensures { IfOk result
        (λ layer. AllZip (λ by tile. IsLeastIsometry G.geometry universe.now.shape tile by) layer
        (chosen_layer (assignment_of values.now) universe.now.vars level)) }
{
    let mut layer = Seq::new(alloc);
    for before in 0..universe.count() {
        let var = before + 1;
        if universe.level_of(var) == level && values[before as usize] {
            layer.push(universe.placement_of(var).iso())?;
        }
    }
    Ok(layer)
}

/// The layers that an assignment of a corona formula's variables chooses, spelled as those of a true entry: for each
/// level the tiles of its true variables, in rising order of their cell lists, each by its least isometry. Where the
/// assignment makes the formula true, they are coronas.
///
/// Condition: a value for each variable of the universe, and maybe more. The cost is a look at each variable for each
/// level.
pub fn layers_of<G: Grid>(
    alloc: Global,
    universe: &Universe<G>,
    values: &[bool],
) -> Result<Layers, NoMemory>
    requires { length universe.now.vars ≤ length values.now }
    ensures { IfOk result
        (λ layers. Spells G.geometry universe.now.shape layers.layers
        (chosen_layers (assignment_of values.now) universe.now.vars universe.now.level)) }
{
    // Reading the count tells the proof that the variables rise.
    let _count = universe.count();
    let mut layers = Seq::new(alloc);
    for below in 0..universe.level() {
        layers.push(layer_of(alloc, universe, values, below + 1)?)?;
    }
    Ok(Layers { layers })
}
