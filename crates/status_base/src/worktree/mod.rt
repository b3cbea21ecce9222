//! The worktree, and the interfaces that a caller passes to a status.
//!
//! Each trait's ghost members are its specification. A modelled implementation returns the specified results whatever
//! its state is, or that it is out of memory.

pub mod disk;
pub mod filter;
pub mod folder;
pub mod guard;
pub mod guarded;
pub mod lister;
pub mod memory;
mod memory_calls;
pub mod memory_file;
pub mod node;
pub mod objects;
pub mod pathspec;
pub mod planted;
pub mod stat_fields;
pub mod submodule;
pub mod tree;

pub use disk::{DiskFile, DiskWorktree};
pub use filter::{NoFilter, ToGit, ToGitOutcome};
pub use folder::{Folder, PathBuffer};
pub use guard::Guard;
pub use guarded::GuardedWorktree;
pub use lister::{Lister, Listing, NoLister};
pub use memory::MemoryWorktree;
pub use memory_file::MemoryFile;
pub use node::{Node, TreeError};
pub use objects::{Find, FindError, MemoryObjects};
pub use pathspec::{AllPaths, Pathspec, Prefix};
pub use planted::Point;
pub use stat_fields::StatFields;
pub use status_index::{ByteText, Fault, Metadata, NodeKind, ReadBytes, TimeError, read_all};
pub use submodule::{NoSubmodules, SubmoduleFault, SubmoduleStatus};
pub use tree::Worktree;
