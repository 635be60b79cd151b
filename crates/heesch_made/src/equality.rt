//! What a test tells of two values that differ.
ghost use Rattle.std.specs.Prelude.{◌≡◌, true, false, IsErr, IsOk};

use std::fmt::Debug;
use std::test::Fail;

/// A test goes on where both values are equal, and else fails and tells them behind the row's name.
pub fn same<T: PartialEq + Debug + Drop>(row: &str, found: T, wanted: T) -> Result<(), Fail>
    ensures same { T.eq found wanted ≡ true → IsOk result }
    ensures other { T.eq found wanted ≡ false → IsErr result }
{
    if found == wanted {
        return Ok(());
    }
    Err(Fail::new(format_args!("{row}: {found:?} in place of {wanted:?}")))
}
