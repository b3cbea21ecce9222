//! Walks: the nodes of a worktree that no index entry has.
//!
//! Read `walk` first: the interfaces of a walk and of what gets its nodes, and the nodes. `untracked` walks a worktree
//! in memory, and `disk` a folder of the disk. `id` computes the ids of the nodes.
#![tactic(auto)]

pub mod disk;
pub mod id;
pub mod untracked;
pub mod walk;

pub use disk::DiskWalk;
pub use id::{IdError, worktree_id};
pub use untracked::UntrackedWalk;
pub use walk::{Action, Delegate, DirEntry, Kind, Outcome, Status, Walk, WalkError};
