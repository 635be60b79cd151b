//! The tiling of a model.
ghost use Rattle.std.specs.Prelude.{◌≡◌, length, IfOk};
ghost use Rattle.heesch_torus.specs.Chosen.{chosen_tiling};

use crate::found::Variable;
use heesch_cert::{Isos, Tiling};
use heesch_io::NoMemory;
use heesch_lattice::Triple;
use std::alloc::Global;

/// The tiling by the isometries of the variables that are true, in number order.
pub(crate) fn chosen_tiling(
    alloc: Global,
    triple: Triple,
    variables: &[Variable],
    values: &[bool],
) -> Result<Tiling, NoMemory>
    requires { length values.now ≡ length variables.now }
    ensures { IfOk result (λ tiling. tiling ≡ chosen_tiling triple values.now variables.now) }
{
    let mut places = Isos::new(alloc);
    for (at, variable) in variables.iter().enumerate() {
        if values[at] {
            places.push(variable.by)?;
        }
    }
    Ok(Tiling { triple, places })
}
