//! Why a list of cells is no shape.
ghost use Rattle.std.specs.Prelude.{◌≡◌};

use thiserror::Error;

/// Why a list of cells is no shape, in the order in which faults are looked for. Places are
/// counted from 0.
#[derive(Clone, Copy, Debug, PartialEq, Eq, Error)]
pub enum ShapeFault {
    #[error("there is no cell")]
    Empty,
    #[error("there are more than 32 cells")]
    TooMany,
    #[error("place {at} has no cell of the grid")]
    NotACell { at: u32 },
    #[error("place {at} has an earlier cell again")]
    Repeated { at: u32 },
    #[error("place {at} is not reached from place 0")]
    Apart { at: u32 },
}

impl ShapeFault {
    ghost use Rattle.heesch_shape.specs.Faults.{number_of};

    /// The number of the fault: 1 for `Empty` to 5 for `Apart`.
    pub fn number(&self) -> u32
        ensures { result ≡ number_of self.now }
    {
        match self {
            ShapeFault::Empty => 1,
            ShapeFault::TooMany => 2,
            ShapeFault::NotACell { .. } => 3,
            ShapeFault::Repeated { .. } => 4,
            ShapeFault::Apart { .. } => 5,
        }
    }
}
