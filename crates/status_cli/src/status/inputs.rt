//! The inputs of a profile's status, and the changes to the index that it asks for.

use gix_status::index::{HashKind, State};
use gix_status::index_as_worktree::ApplyChange;
use gix_status::walk::{self, Delegate, Walk, WalkError};
use gix_status::worktree::{Pathspec, Worktree};
use status_profile::ProfileOptions;

/// The request of a profile.
#[derive(Drop)]
pub struct Request<'a> {
    /// The index.
    pub index: &'a State,
    /// How the ids of untracked files are made.
    pub hash: HashKind,
    /// How the status is computed, and what is printed.
    pub options: ProfileOptions,
    /// Whether the changes to the index are returned.
    pub wanted: WantedChanges,
}

/// The inputs of a profile's status.
#[derive(Drop)]
pub struct ProfileStatus<'a, W, K> {
    /// The profile's request.
    pub request: Request<'a>,
    /// The worktree.
    pub worktree: &'a W,
    /// Finds the untracked files, if the options have `untracked`.
    pub walk: K,
}

/// Finds nothing. It is passed over a folder, where `untracked` is refused.
#[derive(Clone, Copy)]
pub struct NoWalk;

impl<W: Worktree> Walk<W> for NoWalk {
    ghost use Rattle.std.specs.Prelude.{◌≡◌, [], None, Some, false};
    ghost use Rattle.status_walk.specs.Walks.{IsWalk};

    ghost walking = { λ _ _ _ _ _. Some (record { entries = []; fault = None }) };

    fn walk<P: Pathspec, D: Delegate>(
        &mut self,
        _worktree: &W,
        _index: &State,
        _pathspec: &P,
        delegate: &mut D,
    ) -> Result<walk::Outcome, WalkError>
        requires { (D.state delegate.old).cancelled ≡ false }
        ensures { IsWalk (record { entries = []; fault = None }) (D.state delegate.old) result (D.state delegate.new) }
    {
        Ok(walk::Outcome {
            emitted: 0,
            cancelled: false,
        })
    }
}

/// What happens with the changes to the index that a plain status asks for.
#[derive(Clone, Copy, Debug, PartialEq, Eq)]
pub enum WantedChanges {
    /// They are returned.
    Returned,
    /// They are dropped.
    Dropped,
}

/// An index, with the changes that its status asks for.
#[derive(Drop)]
pub struct IndexChanges {
    /// The index, unchanged.
    pub index: State,
    /// The changes.
    pub changes: Vec<ApplyChange>,
}
