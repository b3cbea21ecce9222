//! Other repositories within a worktree.

use crate::error::RepositoryError;
use crate::git_dir::{Refusal, git_dir_in};
use std::alloc::AllocError;
use std::rt::Files;

/// Returns whether a folder is the top of a repository's worktree. As in git, a `.git` that leads to no repository makes none, and
/// a file `.git` that can't be read makes one.
///
/// # Errors
/// Out of memory.
pub fn is_repository<R: AllocGlobal + Files>(rt: &R, folder: &str) -> Result<bool, AllocError> {
    match git_dir_in(rt, folder, Refusal::IsMissing) {
        Ok(found) => Ok(found.is_some()),
        Err(RepositoryError::Memory(error)) => Err(error),
        Err(error) => Ok(error.is_unreadable()),
    }
}
