//! The names that most tests use.

pub use crate::support::folders::{FolderNode, fill, own_folder};
pub use crate::support::inputs::{
    EntryRow, LATER, NodeRow, STAGED, counted, foo_entry, foos, index, later_file, worktree,
};
pub use bstr::{BStr, BString};
pub use gix_status::index::{IndexError, Mode, Moment, ObjectId, State};
pub use gix_status::worktree::{
    AllPaths, DiskWorktree, Fault, MemoryFile, MemoryObjects, MemoryWorktree, Metadata, NoFilter,
    NoLister, NoSubmodules, NodeKind, ReadBytes, Worktree,
};
pub use status_callers::worktrees::Calls;
pub use std::alloc::{AllocError, Global};
pub use std::path::Path;
pub use std::process::Abort;
pub use std::rt::Files;
pub use std::sync::Wait;
pub use std::sync::atomic::{AtomicBool, AtomicUsize, Ordering};
pub use std::test::Fail;
pub use std::thread::Threads;
