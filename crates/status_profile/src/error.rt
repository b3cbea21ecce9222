//! Why a profile isn't read.

ghost use Rattle.std.specs.Prelude.{◌≡◌};
ghost use Rattle.status_profile.specs.Failures.{error_of_index, error_of_store};
ghost use Rattle.status_profile.specs.declared.error.ProfileError.TheVariants.{Memory};

use status_base::index::IndexError;
use status_stored::StoreError;
use std::alloc::AllocError;
use std::fmt;
use thiserror::Error;

/// A key of a profile. Keys are in the order in which they are read.
#[derive(Clone, Copy, Debug, PartialEq, Eq)]
pub enum Key {
    /// How ids are made. A profile that isn't an object is reported with this key.
    Hash,
    /// The first time on a world's clock.
    Clock,
    /// The timestamp of the index.
    Timestamp,
    /// How the status is computed.
    Options,
    /// The entries of the index.
    Index,
    /// The nodes of the worktree.
    Worktree,
    /// The events of a history.
    Events,
}

impl fmt::Display for Key {
    fn fmt<W: fmt::Write>(&self, f: &mut fmt::Formatter<W>) -> fmt::Result {
        f.write_str(match self {
            Key::Hash => "hash",
            Key::Clock => "clock",
            Key::Timestamp => "timestamp",
            Key::Options => "options",
            Key::Index => "index",
            Key::Worktree => "worktree",
            Key::Events => "events",
        })
    }
}

/// Why a profile isn't read.
#[derive(Clone, Copy, Debug, PartialEq, Eq, Error)]
pub enum ProfileError {
    /// The text isn't JSON, or isn't UTF-8.
    #[error("not JSON")]
    NotJson,
    /// The key is missing or has a wrong form. The keys before it are correct.
    #[error("bad profile: {0}")]
    Bad(Key),
    /// The profile's entries aren't an index.
    #[error("bad index: {0}")]
    Index(IndexError),
    /// Memory ran out.
    #[error("out of memory")]
    Memory,
}

impl From<AllocError> for ProfileError {
    ghost from_gives = { λ _ e. e ≡ Memory };

    fn from(_error: AllocError) -> ProfileError {
        ProfileError::Memory
    }
}

impl ProfileError {
    /// Returns the error for an index that can't be stored.
    pub fn of_store(error: StoreError) -> ProfileError
        ensures { result ≡ error_of_store error }
    {
        match error {
            StoreError::NotUtf8 { .. } => ProfileError::Bad(Key::Index),
            StoreError::Memory => ProfileError::Memory,
        }
    }

    /// Returns the error for entries that aren't an index.
    pub fn of_index(error: IndexError) -> ProfileError
        ensures { result ≡ error_of_index error }
    {
        match error {
            IndexError::Memory => ProfileError::Memory,
            error => ProfileError::Index(error),
        }
    }
}
