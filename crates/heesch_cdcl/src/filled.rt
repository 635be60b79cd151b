//! Lists of one value.
ghost use Rattle.std.specs.Prelude.{◌≡◌, IfOk, replicate};

use heesch_io::NoMemory;
use std::alloc::Global;

/// As many places, each with this value.
pub fn filled(alloc: Global, count: usize, value: bool) -> Result<Vec<bool>, NoMemory>
    ensures { IfOk result (λ v. v.items ≡ replicate count value) }
{
    let mut places = Vec::new(alloc);
    for _ in 0..count {
        if places.push(value).is_err() {
            return Err(NoMemory);
        }
    }
    Ok(places)
}
