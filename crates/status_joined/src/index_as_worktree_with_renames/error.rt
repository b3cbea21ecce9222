//! Why a status with untracked files, renames and copies failed.

ghost use Rattle.std.specs.Prelude.{◌≡◌};
ghost use Rattle.status_joined.specs.declared.index_as_worktree_with_renames.error.Error.TheVariants.{Memory};
ghost use Rattle.status_joined.specs.Errors.{error_of_walk, error_of_id, error_of_refused, error_of_status, error_of_tracker};

use status_base::worktree::{Fault, FindError};
use status_call::index_as_worktree;
use status_rewrites::{Refused, TrackerError};
use status_walk::{IdError, WalkError};
use std::alloc::AllocError;
use thiserror::Error;

/// Why a status with untracked files, renames and copies failed.
#[derive(Debug, Drop, Error)]
pub enum Error {
    /// The status of the index failed.
    #[error(transparent)]
    TrackedFileModifications(index_as_worktree::Error),
    /// The walk met a fault of the worktree.
    #[error(transparent)]
    DirWalk(WalkError),
    /// Never returned. If no thread can be started for the walk, it runs in the caller's thread. If the status of the
    /// index can't start a thread, the error is in `TrackedFileModifications`.
    #[error("Could not start a worker thread")]
    SpawnThread,
    /// Never returned: no attributes are read.
    #[error("Failed to change the context for querying gitattributes to the respective path")]
    SetAttributeContext,
    /// A file that the walk found, and whose id is needed, can't be opened, or its `lstat` fails.
    #[error("Could not open worktree file for reading")]
    OpenWorktreeFile(Fault),
    /// A file that the walk found, and whose id is needed, can't be read to its end.
    #[error(transparent)]
    HashFile(Fault),
    /// A link that the walk found, and whose id is needed, can't be read.
    #[error("Could not read worktree link content")]
    ReadLink(Fault),
    /// The filter fails on a file that the walk found, and whose id is needed.
    #[error(transparent)]
    ConvertToGit(Fault),
    /// The tracker refused, or returned a pair that breaks a rule.
    #[error(transparent)]
    RewriteTracker(TrackerError),
    /// Memory ran out, in any part of the call.
    #[error("Out of memory")]
    Memory,
}

impl From<index_as_worktree::Error> for Error {
    ghost from_gives = { λ status e. e ≡ error_of_status status };

    fn from(error: index_as_worktree::Error) -> Error {
        match error {
            index_as_worktree::Error::Memory
            | index_as_worktree::Error::Io(Fault::Memory)
            | index_as_worktree::Error::Find(FindError::Memory) => Error::Memory,
            error => Error::TrackedFileModifications(error),
        }
    }
}

impl From<TrackerError> for Error {
    ghost from_gives = { λ tracker e. e ≡ error_of_tracker tracker };

    fn from(error: TrackerError) -> Error {
        match error {
            TrackerError::Memory => Error::Memory,
            error => Error::RewriteTracker(error),
        }
    }
}

impl From<AllocError> for Error {
    ghost from_gives = { λ _ e. e ≡ Memory };

    fn from(_error: AllocError) -> Error {
        Error::Memory
    }
}

/// Returns the call's error for a failed walk.
pub(crate) fn walk_error(error: WalkError) -> Error
    ensures { result ≡ error_of_walk error }
{
    match error {
        WalkError::Memory
        | WalkError::Fault {
            fault: Fault::Memory,
            ..
        } => Error::Memory,
        error => Error::DirWalk(error),
    }
}

/// Returns the call's error for an id that can't be computed.
pub(crate) fn id_error(error: IdError) -> Error
    ensures { result ≡ error_of_id error }
{
    match error {
        IdError::Open(Fault::Memory)
        | IdError::Hash(Fault::Memory)
        | IdError::ReadLink(Fault::Memory)
        | IdError::Convert(Fault::Memory) => Error::Memory,
        IdError::Open(fault) => Error::OpenWorktreeFile(fault),
        IdError::Hash(fault) => Error::HashFile(fault),
        IdError::ReadLink(fault) => Error::ReadLink(fault),
        IdError::Convert(fault) => Error::ConvertToGit(fault),
    }
}

/// Returns the call's error for a list that can't be rewritten.
pub(crate) fn refused_error(refused: Refused) -> Error
    ensures { result ≡ error_of_refused refused }
{
    match refused {
        Refused::BadPair { at } => Error::RewriteTracker(TrackerError::BadPair { at }),
        Refused::Memory => Error::Memory,
    }
}
