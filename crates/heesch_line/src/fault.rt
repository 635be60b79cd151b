//! Why bytes are no line.
ghost use Rattle.std.specs.Prelude.{◌≡◌};
ghost use Rattle.heesch_line.specs.declared.fault.LineFault.TheVariants as faults;

use heesch_io::NoMemory;
use thiserror::Error;

/// Why no line is read.
#[derive(Clone, Copy, Debug, PartialEq, Eq, Error)]
pub enum LineFault {
    /// The bytes have no form of a line.
    #[error("the bytes are no line of a catalogue")]
    NotALine,
    /// Memory was refused.
    #[error("out of memory")]
    NoMemory,
}

impl From<NoMemory> for LineFault {
    ghost from_gives = { λ _ e. e ≡ faults.NoMemory };

    fn from(_error: NoMemory) -> LineFault {
        LineFault::NoMemory
    }
}
