//! Why there is no formula.
ghost use Rattle.std.specs.Prelude.{◌≡◌};
ghost use Rattle.heesch_encode.specs.declared.stop.EncodeStop.TheVariants.{NoMemory};

use thiserror::Error;

/// Why there is no formula.
#[derive(Clone, Copy, Debug, PartialEq, Eq, Error)]
pub enum EncodeStop {
    /// It has more literals than it may have.
    #[error("the formula is too large")]
    TooLarge,
    /// Memory was refused.
    #[error("out of memory")]
    NoMemory,
}

impl From<heesch_io::NoMemory> for EncodeStop {
    ghost from_gives = { λ _ stop. stop ≡ NoMemory };

    fn from(_: heesch_io::NoMemory) -> EncodeStop {
        EncodeStop::NoMemory
    }
}
