//! The status of an index against a worktree.

pub mod apply;
mod conflict;
pub mod considered;
mod content;
pub mod counts;
pub mod decider;
mod function;
pub mod inputs;
pub mod laws;
mod lookup;
pub mod piece;
mod recorder;
pub mod round;
pub mod run_rounds;
mod run_serially;
pub mod status_by;
pub mod step;
mod submodule;
mod types;
pub mod workers;

pub use apply::{ApplyChange, apply_changes};
pub use function::{
    index_as_worktree, index_as_worktree_with_defaults, index_as_worktree_without_threads,
};
pub use recorder::{Record, Recorder};
pub use types::{
    Capabilities, Change, Conflict, ConflictIndexEntry, Context, EntryStatus, Error, Finding,
    Options, Outcome, VisitEntry,
};

/// The comparison of a worktree's files with the blobs that an index names.
pub mod traits {
    pub use status_compare::{CompareBlobs, FastEq, HashEq, ReadData, Stream};
}
