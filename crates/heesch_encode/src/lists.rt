//! Lists that grow at their end.
ghost use Rattle.std.specs.Prelude.{◌≡◌, ◌++◌, ◌∷◌, [], OnOk};

use heesch_io::NoMemory;

/// The item stands last.
pub(crate) fn add<T: Drop>(all: &mut Vec<T>, item: T) -> Result<(), NoMemory>
    ensures { OnOk result (all.new.items ≡ all.old.items ++ item ∷ []) }
{
    match all.push(item) {
        Ok(()) => Ok(()),
        Err(_) => Err(NoMemory),
    }
}
