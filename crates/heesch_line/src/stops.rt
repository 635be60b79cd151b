//! Why lines are read no further.
ghost use Rattle.std.specs.Prelude.{◌≡◌};
ghost use Rattle.heesch_line.specs.Stops.{stop_of};
ghost use Rattle.heesch_line.specs.declared.stops.InputStop.TheVariants as input_stops;
ghost use Rattle.heesch_line.specs.declared.stops.LineStop.TheVariants as line_stops;

use heesch_io::{Failed, NoMemory};
use std::alloc::AllocFailed;
use std::fmt::Debug;
use thiserror::Error;

/// Why lines are read no further, or nothing is told of them.
#[derive(Clone, Copy, Debug, PartialEq, Eq, Error)]
#[error_bound(F: Debug)]
pub enum LineStop<F> {
    /// The first line at fault, from 1, and its fault.
    #[error("line {line} has fault {fault:?}")]
    Fault { line: u64, fault: F },
    /// Memory was refused.
    #[error("out of memory")]
    NoMemory,
}

impl<F> From<NoMemory> for LineStop<F> {
    ghost from_gives = { λ _ e. e ≡ line_stops.NoMemory };

    fn from(_error: NoMemory) -> LineStop<F> {
        LineStop::NoMemory
    }
}

impl<F, T: Drop> From<AllocFailed<T>> for LineStop<F> {
    ghost from_gives = { λ _ e. e ≡ line_stops.NoMemory };

    fn from(_error: AllocFailed<T>) -> LineStop<F> {
        LineStop::NoMemory
    }
}

/// Why the lines that a source gives are read no further.
#[derive(Clone, Copy, Debug, PartialEq, Eq, Error)]
#[error_bound(F: Debug)]
pub enum InputStop<F> {
    /// The first line at fault, from 1, and its fault.
    #[error("line {line} has fault {fault:?}")]
    Fault { line: u64, fault: F },
    /// The source failed.
    #[error("the input failed")]
    Failed,
    /// Memory was refused.
    #[error("out of memory")]
    NoMemory,
}

impl<F> From<LineStop<F>> for InputStop<F> {
    ghost from_gives = { λ stop e. e ≡ stop_of stop };

    fn from(stop: LineStop<F>) -> InputStop<F> {
        match stop {
            LineStop::Fault { line, fault } => InputStop::Fault { line, fault },
            LineStop::NoMemory => InputStop::NoMemory,
        }
    }
}

impl<F> From<Failed> for InputStop<F> {
    ghost from_gives = { λ _ e. e ≡ input_stops.Failed };

    fn from(_failed: Failed) -> InputStop<F> {
        InputStop::Failed
    }
}
