//! The errors of storing an index, and of reading it back.

ghost use Rattle.std.specs.Prelude.{◌≡◌};
ghost use Rattle.status_stored.specs.declared.error.StoreError.TheVariants as store_errors;
ghost use Rattle.status_stored.specs.Loading.{error_of_index, error_of_field};

use status_format::FieldError;
use status_index::IndexError;
use std::alloc::{AllocError, AllocFailed};
use thiserror::Error;

/// Why an index can't be stored.
#[derive(Clone, Copy, Debug, PartialEq, Eq, Error)]
pub enum StoreError {
    /// The path of the entry at `at` isn't UTF-8. The paths before it are.
    #[error("the path of entry {at} isn't UTF-8")]
    NotUtf8 {
        /// The entry's position.
        at: usize,
    },
    /// An allocation failed.
    #[error("Out of memory")]
    Memory,
}

impl From<AllocError> for StoreError {
    ghost from_gives = { λ _ e. e ≡ store_errors.Memory };

    fn from(_error: AllocError) -> StoreError {
        StoreError::Memory
    }
}

impl<T: Drop> From<AllocFailed<T>> for StoreError {
    ghost from_gives = { λ _ e. e ≡ store_errors.Memory };

    fn from(_refused: AllocFailed<T>) -> StoreError {
        StoreError::Memory
    }
}

/// Why a value can't be read as an index.
#[derive(Clone, Copy, Debug, PartialEq, Eq, Error)]
pub enum LoadError {
    /// A key is missing, or something has a wrong form.
    #[error("a key is missing or has a wrong form")]
    Form,
    /// The entries aren't a valid index.
    #[error("{0}")]
    Index(IndexError),
    /// An allocation failed.
    #[error("Out of memory")]
    Memory,
}

impl From<IndexError> for LoadError {
    ghost from_gives = { λ refused e. e ≡ error_of_index refused };

    fn from(refused: IndexError) -> LoadError {
        match refused {
            IndexError::Memory => LoadError::Memory,
            _ => LoadError::Index(refused),
        }
    }
}

impl From<FieldError> for LoadError {
    ghost from_gives = { λ refused e. e ≡ error_of_field refused };

    fn from(refused: FieldError) -> LoadError {
        match refused {
            FieldError::Form => LoadError::Form,
            FieldError::Memory => LoadError::Memory,
        }
    }
}

/// Why an index can't be stored and read back.
#[derive(Clone, Copy, Debug, PartialEq, Eq, Error)]
pub enum ReopenError {
    /// The path of the entry at `at` isn't UTF-8. The paths before it are.
    #[error("the path of entry {at} isn't UTF-8")]
    NotUtf8 {
        /// The entry's position.
        at: usize,
    },
    /// The stored index can't be read. It is never returned.
    #[error("the stored index can't be read")]
    Unreadable,
    /// An allocation failed.
    #[error("Out of memory")]
    Memory,
}
