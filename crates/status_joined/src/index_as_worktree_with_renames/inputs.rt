//! The interfaces that a caller passes, and their specifications.

ghost use Rattle.status_joined.specs.JoinedQuery.{JoinedQuery};

use crate::untracked::{FindUntracked, Walker};
use status_base::worktree::{
    Find, GuardedWorktree, Lister, Pathspec, SubmoduleStatus, ToGit, Worktree,
};
use status_call::index_as_worktree::inputs;
use status_compare::CompareBlobs;
use status_rewrites::Tracker;
use status_walk::Walk;
use std::sync::atomic::AtomicBool;

/// The worktree and the interfaces that a caller passes.
#[derive(Drop)]
pub struct Inputs<'w, W, C, S, O, P, T, L, K, X> {
    /// The worktree, for the nodes that the index doesn't have.
    pub worktree: &'w W,
    /// The inputs of the status of the index.
    pub status: inputs::Inputs<GuardedWorktree<'w, W>, C, S, O, P, T, L>,
    /// Finds the nodes of the worktree that the index doesn't have.
    pub walk: K,
    /// Finds renames and copies.
    pub tracker: X,
    /// The interrupt flag. If it is seen set, the status ends early. None is never set.
    pub should_interrupt: Option<&'w AtomicBool>,
}

/// The inputs of a status with untracked files, renames and copies, whoever passes them.
pub trait Ask {
    /// A comparer's report of a change.
    type Content;
    /// A submodule's report of a change.
    type Submodule;

    /// The specification of all inputs, on which such a status depends.
    ghost query: { Self → JoinedQuery Self.Content Self.Submodule };
}

impl<
    'w,
    W: Worktree,
    C: CompareBlobs,
    S: SubmoduleStatus,
    O: Find,
    P: Pathspec,
    T: ToGit,
    L: Lister,
    K: Walk<W>,
    X: Tracker,
> Ask for Inputs<'w, W, C, S, O, P, T, L, K, X> {
    ghost use Rattle.std.specs.Prelude.{false, is_some};
    ghost use Rattle.status_base.specs.Looked.{guarded};
    ghost use Rattle.status_joined.specs.NodeIds.{identifying};
    ghost use Rattle.status_joined.specs.Walkings.{walker_of};

    type Content = C::Output;

    type Submodule = S::Output;

    ghost query = { λ i. record {
      status = ⟦<inputs::Inputs<GuardedWorktree<'w, W>, C, S, O, P, T, L> as inputs::Ask>⟧.query (record i.status { worktree = guarded i.worktree false });
      walking = ⟦<Walker<'w, W, K, P> as FindUntracked>⟧.walking (walker_of i.worktree i.walk i.status.pathspec);
      identifying = λ kind. identifying W.modelled W.lstat_of W.open_of W.target_of T.conversion kind i.worktree.now i.status.filter;
      pairs = X.tracks i.tracker;
      interruptible = is_some i.should_interrupt;
    } };
}
