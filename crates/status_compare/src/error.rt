//! Why a status failed: the error of a status of an index, which comparisons return too.

ghost use Rattle.std.specs.Prelude.{◌≡◌};
ghost use Rattle.status_compare.specs.Errors.{error_of, find_error_of};
ghost use Rattle.status_compare.specs.declared.error.Error.TheVariants.{Time, Memory};

use status_base::worktree::{ByteText, Fault, FindError, TimeError};
use std::alloc::{AllocError, AllocFailed};
use thiserror::Error;

/// Why the status of an index failed.
#[derive(Debug, Drop, Error)]
pub enum Error {
    /// A path isn't UTF-8, on a system whose paths have to be.
    #[error("Could not convert path to UTF8")]
    IllformedUtf8,
    /// A time of a file isn't known.
    #[error("The clock was off when reading file related metadata after updating a file on disk")]
    Time,
    /// A fault of the worktree, of reading a file, or of a filter.
    #[error("IO error while writing blob or reading file metadata or changing filetype")]
    Io(Fault),
    /// A blob was not found.
    #[error("Failed to obtain blob from object database")]
    Find(FindError),
    /// The status of a submodule could not be determined.
    #[error("Could not determine status for submodule at '{rela_path}'")]
    SubmoduleStatus {
        /// The submodule's path.
        rela_path: ByteText,
        /// The submodule's error text.
        text: ByteText,
    },
    /// The system refused a thread.
    #[error("Could not start a worker thread")]
    SpawnThread,
    /// Out of memory.
    #[error("Out of memory")]
    Memory,
}

impl From<Fault> for Error {
    ghost from_gives = { λ f e. e ≡ error_of f };

    fn from(fault: Fault) -> Error {
        match fault {
            Fault::IllformedUtf8 => Error::IllformedUtf8,
            Fault::Memory => Error::Memory,
            other => Error::Io(other),
        }
    }
}

impl From<FindError> for Error {
    ghost from_gives = { λ f e. e ≡ find_error_of f };

    fn from(error: FindError) -> Error {
        match error {
            FindError::Missing => Error::Find(FindError::Missing),
            FindError::Memory => Error::Memory,
        }
    }
}

impl From<TimeError> for Error {
    ghost from_gives = { λ _ e. e ≡ Time };

    fn from(_error: TimeError) -> Error {
        Error::Time
    }
}

impl From<AllocError> for Error {
    ghost from_gives = { λ _ e. e ≡ Memory };

    fn from(_error: AllocError) -> Error {
        Error::Memory
    }
}

impl<T: Drop> From<AllocFailed<T>> for Error {
    ghost from_gives = { λ _ e. e ≡ Memory };

    fn from(_refused: AllocFailed<T>) -> Error {
        Error::Memory
    }
}
