//! Why reading stopped: of a line, and of all dumps with the line's number.
ghost use Rattle.std.specs.Prelude.{◌≡◌};
ghost use Rattle.snap_file.specs.declared.error.LineError.TheVariants.{OutOfMemory, Wrong};

use dump_model::LoadCause;
use std::alloc::{AllocError, AllocFailed};
use thiserror::Error;

/// Why dumps were not read.
#[derive(Clone, Copy, Debug, PartialEq, Eq, Error)]
pub enum LoadError {
    /// The first faulty line, counted from 1, and its first fault.
    #[error("line {line}: {}", .cause.word())]
    At { line: u64, cause: LoadCause },
    #[error("out of memory")]
    OutOfMemory,
}

/// Why a line was not read.
#[derive(Clone, Copy, Debug, PartialEq, Eq)]
pub enum LineError {
    OutOfMemory,
    Wrong(LoadCause),
}

impl From<LoadCause> for LineError {
    ghost from_gives = { λ c e. e ≡ Wrong c };

    fn from(cause: LoadCause) -> LineError {
        LineError::Wrong(cause)
    }
}

impl From<AllocError> for LineError {
    ghost from_gives = { λ _ e. e ≡ OutOfMemory };

    fn from(_: AllocError) -> LineError {
        LineError::OutOfMemory
    }
}

impl<T: Drop> From<AllocFailed<T>> for LineError {
    ghost from_gives = { λ _ e. e ≡ OutOfMemory };

    fn from(_: AllocFailed<T>) -> LineError {
        LineError::OutOfMemory
    }
}
