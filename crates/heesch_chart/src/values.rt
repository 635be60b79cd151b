//! The values of a model.
ghost use Rattle.std.specs.Prelude.{◌≡◌, IfOk, length};

use heesch_io::{NoMemory, Seq};
use std::alloc::Global;

/// Makes these variables true, which count from 1.
fn choose(values: &mut [bool], chosen: &[u32]) {
    for variable in chosen {
        if let Some(value) = values.get_mut((*variable as usize).wrapping_sub(1)) {
            *value = true;
        }
    }
}

/// The values that make just these of so many variables true, from variable 1 on.
pub(crate) fn values_of(alloc: Global, count: u32, chosen: &[u32]) -> Result<Seq<bool>, NoMemory>
    ensures { IfOk result (λ values. length values ≡ count) }
{
    let mut values = vec![in alloc; false; count as usize]?;
    choose(&mut values, chosen);
    Ok(Seq::from_vec(values))
}
