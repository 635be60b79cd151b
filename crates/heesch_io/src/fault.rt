//! How a call of this library and of those above it can fail.
ghost use Rattle.std.specs.Prelude.{◌≡◌};
ghost use Rattle.heesch_io.specs.declared.fault.IoStop.TheVariants as stops;

use std::alloc::{AllocError, AllocFailed};
use thiserror::Error;

/// Memory was refused. Every call that allocates may answer it; nothing ties it to a cause.
#[derive(Clone, Copy, Debug, PartialEq, Eq, Error)]
#[error("out of memory")]
pub struct NoMemory;

impl From<AllocError> for NoMemory {
    fn from(_: AllocError) -> NoMemory {
        NoMemory
    }
}

impl<T: Drop> From<AllocFailed<T>> for NoMemory {
    fn from(_: AllocFailed<T>) -> NoMemory {
        NoMemory
    }
}

/// A source or a sink failed, and its count of faults rose.
#[derive(Clone, Copy, Debug, PartialEq, Eq, Error)]
#[error("the input or output failed")]
pub struct Failed;

/// Why what reads from a source or writes to a sink stopped before its end.
#[derive(Clone, Copy, Debug, PartialEq, Eq, Error)]
pub enum IoStop {
    /// The source or the sink failed.
    #[error("the input or output failed")]
    Failed,
    /// Memory was refused.
    #[error("out of memory")]
    NoMemory,
}

impl From<Failed> for IoStop {
    ghost from_gives = { λ _ e. e ≡ stops.Failed };

    fn from(_error: Failed) -> IoStop {
        IoStop::Failed
    }
}

impl From<NoMemory> for IoStop {
    ghost from_gives = { λ _ e. e ≡ stops.NoMemory };

    fn from(_error: NoMemory) -> IoStop {
        IoStop::NoMemory
    }
}
