//! The joined call: a status with untracked files, renames and copies in one list.
//!
//! Read `index_as_worktree_with_renames` first, the call. Then read its parts in their order. `halves` in it runs the
//! status, and at the same time the walk of `untracked`. `list` makes one list of their `item`s, with the ids of the
//! nodes for a tracker. Callers use the names of the crate `gix_status`.
#![tactic(auto)]

pub mod index_as_worktree_with_renames;
pub mod item;
pub mod list;
pub mod untracked;

pub use item::{Identifier, Identify, ModificationOrDirwalkEntry};
pub use list::{identify, list_of};
pub use untracked::{FindUntracked, Kept, Walker};
