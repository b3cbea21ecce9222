//! Why a command fails.

ghost use Rattle.std.specs.Prelude.{◌≡◌, ◌≢◌};
ghost use Rattle.std.specs.IoError.{error_kind};
ghost use Rattle.status_cli.specs.Failures.{failure_of_event, failure_of_joined, failure_of_node, failure_of_profile, failure_of_start, failure_of_status};
ghost use Rattle.status_cli.specs.Failures.{is_memory_error, is_memory_joined, is_memory_refusal};
ghost use Rattle.status_cli.specs.declared.failure.Failure.TheVariants.{Memory, Output};

use gix_status::index::IndexError;
use gix_status::index_as_worktree::Error;
use gix_status::index_as_worktree_with_renames::Error as JoinedError;
use gix_status::tracker::TrackerError;
use gix_status::walk::WalkError;
use gix_status::worktree::{Fault, FindError, TreeError};
use gix_status::world::Refusal;
use status_profile::ProfileError;
use std::alloc::AllocError;
use std::io::{self, ErrorKind};
use text_output::OutputError;

/// Why a command fails.
#[derive(Debug, Drop)]
pub enum Failure {
    /// The profile's file can't be read.
    Unreadable,
    /// The text isn't a profile.
    Profile(ProfileError),
    /// A node of the profile can't be put into the worktree.
    Worktree {
        /// The error.
        error: TreeError,
        /// The node's place in the profile.
        at: usize,
    },
    /// The status fails.
    Status(Error),
    /// The status with untracked files, renames or sorted lines fails.
    Joined(JoinedError),
    /// The start of a world is refused.
    Start(Refusal),
    /// An event is refused.
    Event {
        /// The reason.
        refusal: Refusal,
        /// The event's place in the profile.
        at: usize,
    },
    /// The output can't be written.
    Output,
    /// The file of a refreshed profile can't be written.
    Unwritable,
    /// Memory ran out.
    Memory,
}

impl Failure {
    /// Returns the failure to open or read the profile's file.
    pub fn of_reading(error: io::Error) -> Failure
        ensures memory { error_kind error ≡ ErrorKind.OutOfMemory → result ≡ Failure.Memory }
        ensures other { error_kind error ≢ ErrorKind.OutOfMemory → result ≡ Failure.Unreadable }
    {
        match error.kind() {
            ErrorKind::OutOfMemory => Failure::Memory,
            _ => Failure::Unreadable,
        }
    }

    /// Returns the failure to write the file of a refreshed profile.
    pub fn of_writing(error: io::Error) -> Failure
        ensures memory { error_kind error ≡ ErrorKind.OutOfMemory → result ≡ Failure.Memory }
        ensures other { error_kind error ≢ ErrorKind.OutOfMemory → result ≡ Failure.Unwritable }
    {
        match error.kind() {
            ErrorKind::OutOfMemory => Failure::Memory,
            _ => Failure::Unwritable,
        }
    }

    /// Returns the failure to put the profile's node at this place into the worktree.
    pub fn of_node(error: TreeError, at: usize) -> Failure
        ensures { result ≡ failure_of_node error at }
    {
        match error {
            TreeError::Memory => Failure::Memory,
            error => Failure::Worktree { error, at },
        }
    }

    /// Returns the failure of a world's start.
    pub fn of_start(refusal: Refusal) -> Failure
        ensures { result ≡ failure_of_start refusal }
    {
        if is_refused_memory(&refusal) {
            return Failure::Memory;
        }
        Failure::Start(refusal)
    }

    /// Returns the failure of the profile's event at this place.
    pub fn of_event(refusal: Refusal, at: usize) -> Failure
        ensures { result ≡ failure_of_event refusal at }
    {
        if is_refused_memory(&refusal) {
            return Failure::Memory;
        }
        Failure::Event { refusal, at }
    }
}

/// Whether a refusal is a failed allocation, also within a run.
fn is_refused_memory(refusal: &Refusal) -> bool
    ensures { result ≡ is_memory_refusal refusal.now }
{
    match refusal {
        Refusal::Memory => true,
        Refusal::Run(error) => is_memory(error),
        _ => false,
    }
}

/// Whether a status fails because of a failed allocation anywhere.
fn is_memory(error: &Error) -> bool
    ensures { result ≡ is_memory_error error.now }
{
    matches!(
        error,
        Error::Memory | Error::Io(Fault::Memory) | Error::Find(FindError::Memory)
    )
}

/// Whether a status with untracked files, renames or sorted lines fails because of a failed allocation anywhere.
fn is_joined_memory(error: &JoinedError) -> bool
    ensures { result ≡ is_memory_joined error.now }
{
    match error {
        JoinedError::TrackedFileModifications(error) => is_memory(error),
        JoinedError::DirWalk(WalkError::Fault { fault, .. })
        | JoinedError::OpenWorktreeFile(fault)
        | JoinedError::HashFile(fault)
        | JoinedError::ReadLink(fault)
        | JoinedError::ConvertToGit(fault) => *fault == Fault::Memory,
        JoinedError::RewriteTracker(error) => *error == TrackerError::Memory,
        JoinedError::DirWalk(WalkError::Memory) | JoinedError::Memory => true,
        JoinedError::SpawnThread | JoinedError::SetAttributeContext => false,
    }
}

impl From<AllocError> for Failure {
    ghost from_gives = { λ _ f. f ≡ Memory };

    fn from(_error: AllocError) -> Failure {
        Failure::Memory
    }
}

impl From<OutputError> for Failure {
    ghost from_gives = { λ _ f. f ≡ Output };

    fn from(_error: OutputError) -> Failure {
        Failure::Output
    }
}

impl From<ProfileError> for Failure {
    ghost from_gives = { λ e f. f ≡ failure_of_profile e };

    fn from(error: ProfileError) -> Failure {
        match error {
            ProfileError::Memory | ProfileError::Index(IndexError::Memory) => Failure::Memory,
            error => Failure::Profile(error),
        }
    }
}

impl From<Error> for Failure {
    ghost from_gives = { λ e f. f ≡ failure_of_status e };

    fn from(error: Error) -> Failure {
        if is_memory(&error) {
            return Failure::Memory;
        }
        Failure::Status(error)
    }
}

impl From<JoinedError> for Failure {
    ghost from_gives = { λ e f. f ≡ failure_of_joined e };

    fn from(error: JoinedError) -> Failure {
        if is_joined_memory(&error) {
            return Failure::Memory;
        }
        Failure::Joined(error)
    }
}
