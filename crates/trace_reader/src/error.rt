//! Why reading stopped: of a line, and of the whole trace with the line's number.
ghost use Rattle.std.specs.Prelude.{◌≡◌};
ghost use Rattle.trace_reader.specs.declared.error.LineError.TheVariants.{OutOfMemory, Wrong};

use std::alloc::{AllocError, AllocFailed};
use thiserror::Error;
use trace_model::TraceCause;

/// Why a trace was not read.
#[derive(Clone, Copy, Debug, PartialEq, Eq, Error)]
pub enum TraceError {
    /// The first faulty line, counted from 1, and its first fault.
    #[error("line {line}: {}", .cause.word())]
    At { line: u64, cause: TraceCause },
    #[error("out of memory")]
    OutOfMemory,
}

/// Why a line was not read.
#[derive(Clone, Copy, Debug, PartialEq, Eq)]
pub enum LineError {
    OutOfMemory,
    Wrong(TraceCause),
}

impl From<TraceCause> for LineError {
    ghost from_gives = { λ c e. e ≡ Wrong c };

    fn from(cause: TraceCause) -> LineError {
        LineError::Wrong(cause)
    }
}

impl From<AllocError> for LineError {
    ghost from_gives = { λ _ e. e ≡ OutOfMemory };

    fn from(_: AllocError) -> LineError {
        LineError::OutOfMemory
    }
}

impl<T: Drop> From<AllocFailed<T>> for LineError {
    ghost from_gives = { λ _ e. e ≡ OutOfMemory };

    fn from(_: AllocFailed<T>) -> LineError {
        LineError::OutOfMemory
    }
}
