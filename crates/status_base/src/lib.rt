//! The worktree, the interfaces that a caller passes to a status, and the check that no path leads through a symbolic
//! link.
//!
//! Read `worktree` first: a module for each interface, and the worktrees and blobs in memory and on the disk. Then
//! `stack`, the link check, and `fscache`, which caches listings of directories. `board` and `index` re-export what the
//! crates below have, under the names that callers use.
#![tactic(auto)]

mod components;
pub mod fscache;
pub mod stack;
pub mod worktree;

pub use status_board::board;

/// The index: its entries, their stats, modes, flags and ids.
pub mod index {
    pub use status_index::{
        Entry, EntryKind, Flags, HashKind, IndexError, Mode, Moment, NewEntry, ObjectId,
        PathStorage, Probe, Stat, State, Time, compute_hash, compute_stream_hash, mode, orders,
        search, stat,
    };
}
