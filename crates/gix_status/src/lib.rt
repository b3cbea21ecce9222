//! The names for callers: the modules of the Rust crate gix-status, and no code.
//!
//! Each module has items of the crates below.
#![tactic(auto)]

pub use status_base::{board, fscache, index, stack};
pub use status_world::world;

/// The status of an index against a worktree.
pub mod index_as_worktree {
    pub use status_call::index_as_worktree::{
        ApplyChange, Capabilities, Change, Conflict, ConflictIndexEntry, Context, EntryStatus,
        Error, Options, Outcome, Record, Recorder, VisitEntry, apply_changes, index_as_worktree,
        index_as_worktree_with_defaults, index_as_worktree_without_threads, inputs, laws, traits,
    };
}

/// The status of an index against a worktree with untracked files, renames and copies.
pub mod index_as_worktree_with_renames {
    pub use status_joined::index_as_worktree_with_renames::{
        Context, DirwalkContext, Entry, Error, ExactClone, ModificationOrDirwalkEntry, Options,
        Outcome, Recorder, RewriteSource, Sorting, Summary, VisitEntry,
        index_as_worktree_with_renames, rewrites,
    };
    pub use status_rewrites::Rewrites;
}

/// Trackers of renames and copies among changes.
pub mod tracker {
    pub use status_rewrites::{
        Change, ChangeKind, IdentityTracker, Pair, Rewrites, Tracker, TrackerError,
    };
}

/// Walks over a worktree: the files and links in it that no index entry has.
pub mod walk {
    pub use status_walk::{
        Action, Delegate, DirEntry, DiskWalk, Kind, Outcome, Status, UntrackedWalk, Walk, WalkError,
    };
}

/// The worktree, the interfaces that a caller passes to a status, and walks and trackers.
pub mod worktree {
    pub use status_base::worktree::{
        AllPaths, ByteText, DiskFile, DiskWorktree, Fault, Find, FindError, Guard, GuardedWorktree,
        Lister, Listing, MemoryFile, MemoryObjects, MemoryWorktree, Metadata, NoFilter, NoLister,
        NoSubmodules, Node, NodeKind, Pathspec, Point, Prefix, ReadBytes, StatFields,
        SubmoduleFault, SubmoduleStatus, TimeError, ToGit, ToGitOutcome, TreeError, Worktree, disk,
        filter, lister, memory, objects, pathspec, planted, read_all, submodule, tree,
    };
    pub use status_rewrites::{
        Change, ChangeKind, IdentityTracker, Pair, Rewrites, Tracker, TrackerError,
    };
    pub use status_walk::{
        Action, Delegate, DirEntry, DiskWalk, Kind, Outcome, Status, UntrackedWalk, Walk, WalkError,
    };
}
