//! Walks, the nodes that they find, their results, and the interface that gets the nodes.

ghost use Rattle.std.specs.Prelude.{◌≡◌, Bool, List, ℕ, Option, IfSome, false, ◌∷◌, [], ◌++◌, filter, IfOk, OnOk};
ghost use Rattle.status_index.specs.Entries.{IndexEntry};
ghost use Rattle.status_index.specs.States.{index_of};
ghost use Rattle.status_walk.specs.Walks.{WalkResult, IsWalk};
ghost use Rattle.status_walk.specs.declared.walk.WalkError.TheVariants.{Memory};
ghost use Rattle.status_walk.specs.WalkedNodes.{DelegateState, walked_of, is_cancel};

use bstr::BString;
use status_base::worktree::{Fault, Pathspec, Worktree};
use status_index::State;
use std::alloc::AllocError;
use thiserror::Error;

/// How a node relates to the index.
#[derive(Clone, Copy, Debug, PartialEq, Eq)]
pub enum Status {
    /// No entry has its path.
    Untracked,
    /// No entry has its path, and the repository's ignore rules exclude it.
    Ignored,
    /// An entry has its path.
    Tracked,
    /// The walk didn't go there.
    Pruned,
}

/// The type of a node.
#[derive(Clone, Copy, Debug, PartialEq, Eq)]
pub enum Kind {
    /// A node that can't be tracked: a pipe, a socket or a device.
    Untrackable,
    /// A regular file.
    File,
    /// A symbolic link.
    Symlink,
    /// A directory.
    Directory,
    /// The root of another repository.
    Repository,
}

/// A node that a walk found: a file, a link, or whatever else is at a path of the worktree.
#[derive(Clone, Debug, Drop)]
pub struct DirEntry {
    /// Its path from the worktree's root.
    pub rela_path: BString,
    /// How it relates to the index.
    pub status: Status,
    /// Its type. None if it isn't known.
    pub disk_kind: Option<Kind>,
}

/// How a walk ended.
#[derive(Clone, Copy, Debug, Default, PartialEq, Eq)]
pub struct Outcome {
    /// How many nodes were passed to the delegate.
    pub emitted: usize,
    /// Whether the delegate ended it.
    pub cancelled: bool,
}

/// Why a walk failed.
#[derive(Debug, Drop, Error)]
pub enum WalkError {
    /// The worktree has a fault.
    #[error("{fault}")]
    Fault {
        /// The path at which it was met.
        rela_path: BString,
        /// The fault.
        fault: Fault,
    },
    /// Memory ran out.
    #[error("Out of memory")]
    Memory,
}

impl From<AllocError> for WalkError {
    ghost from_gives = { λ _ e. e ≡ Memory };

    fn from(_error: AllocError) -> WalkError {
        WalkError::Memory
    }
}

/// Goes through a worktree, and passes the nodes that it finds to a delegate. A walk is modelled if a function of the
/// worktree, the index and the pathspec specifies these nodes. One over a real folder isn't.
pub trait Walk<W: Worktree> {
    /// The specification: the nodes that it finds, and its fault. It depends on the worktree, the index's entries, the
    /// pathspec's prefix and the paths that the pathspec includes. None if it isn't modelled.
    ghost walking: { Self → W → List IndexEntry → List ℕ → (List ℕ → Bool → Bool) → Option WalkResult };

    /// Goes through the worktree. If the delegate returns `Cancel`, the walk ends, and passes no more nodes.
    ///
    /// # Errors
    /// The worktree's fault; or `WalkError::Memory`, also if it was the worktree that was out of memory.
    fn walk<P: Pathspec, D: Delegate>(
        &mut self,
        worktree: &W,
        index: &State,
        pathspec: &P,
        delegate: &mut D,
    ) -> Result<Outcome, WalkError>
        requires { (D.state delegate.old).cancelled ≡ false }
        ensures { IfSome (walking self.old worktree.now (index_of index.now) (P.prefix pathspec.now) (P.included pathspec.now))
            (λ m. IsWalk m (D.state delegate.old) result (D.state delegate.new)) };
}

/// Whether a walk continues.
#[derive(Clone, Copy, Debug, PartialEq, Eq)]
pub enum Action {
    /// It continues.
    Continue,
    /// It ends here.
    Cancel,
}

/// Gets the nodes of a walk, and keeps those that it wants.
pub trait Delegate {
    /// The specification: which nodes it wants to keep, which it has kept, and whether it has ended the walk.
    ghost state: { Self → DelegateState };

    /// Takes a node that was found. `collapsed` is the status of the collapsed directory that contains the node, if
    /// there is one. Such a directory represents all nodes in it.
    ///
    /// # Errors
    /// If an allocation fails.
    fn emit(&mut self, entry: DirEntry, collapsed: Option<Status>) -> Result<Action, AllocError>
        requires { (state self.old).cancelled ≡ false }
        ensures keeps { (state self.new).keeps ≡ (state self.old).keeps }
        ensures kept { OnOk result ((state self.new).kept
            ≡ (state self.old).kept ++ filter (state self.old).keeps (walked_of entry collapsed ∷ [])) }
        ensures cancelled { IfOk result (λ action. (state self.new).cancelled ≡ is_cancel action) };
}
