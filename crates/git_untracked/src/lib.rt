//! Untracked files: the nodes of a worktree that an index doesn't have, with the rules of its ignore files.
//!
//! Read `folders` first: the questions that a walk asks of a worktree. `untracked` has the call that finds a worktree's lines.
//! `walk` goes through the folders: `ask` is the interface of its steps, and `request` has them. `lines` is its result, and
//! `selection` the interface of the paths that are walked.
#![tactic(auto)]

mod ask;
pub mod folders;
pub mod lines;
mod request;
pub mod selection;
pub mod untracked;
mod walk;

pub use folders::{FolderFault, Folders};
pub use lines::Lines;
pub use selection::Selection;
pub use untracked::{FindUntracked, Untracked};
