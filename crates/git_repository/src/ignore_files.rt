//! The ignore files of a repository besides those within its worktree.

use crate::error::RepositoryError;
use crate::files::joined;
use crate::location::Repository;
use crate::regular::{Unread, read_regular};
use crate::user_files::{UserFile, user_file};
use std::alloc::AllocError;
use std::io;
use std::rt::{Env, Files};

/// The most bytes of an ignore file, as in git.
pub const IGNORE_LIMIT: usize = 100 << 20;

/// The ignore file of the user.
const USER_FILE: UserFile = UserFile {
    name: "core.excludesfile",
    key: b"excludesfile",
    usual: "git/ignore",
};

/// Returns the bytes of the ignore files whose rules are for the whole worktree, the weakest one first: that of the user, and the
/// repository's own `info/exclude`. As in git, a file that can't be read counts as none.
///
/// # Errors
/// `core.excludesFile` names no file, an environment variable can't be read, or out of memory.
pub fn outer_ignore_files<R: AllocGlobal + Env + Files>(
    rt: &R,
    repository: &Repository,
) -> Result<Vec<Vec<u8>>, RepositoryError> {
    let mut files = Vec::new(rt.alloc());
    if let Some(path) = user_file(rt, repository, USER_FILE)? {
        add_file(rt, path.as_str(), &mut files)?;
    }
    let own = joined(rt.alloc(), repository.common_dir.as_str(), "info/exclude")?;
    add_file(rt, own.as_str(), &mut files)?;
    Ok(files)
}

// Adds the bytes of a file, if it can be read.
fn add_file<R: AllocGlobal + Files>(
    rt: &R,
    path: &str,
    files: &mut Vec<Vec<u8>>,
) -> Result<(), RepositoryError> {
    match read_regular(rt, path, IGNORE_LIMIT - 1) {
        Ok(found) => Ok(files.push(found.bytes)?),
        Err(Unread::System(io::ErrorKind::OutOfMemory)) => Err(RepositoryError::from(AllocError)),
        Err(_) => Ok(()),
    }
}
