//! The attribute files outside of a worktree: those of the system and of the user.

use crate::error::RepositoryError;
use crate::location::Repository;
use crate::sources::is_set;
use crate::user_files::{UserFile, user_file};
use std::rt::{Env, Files};

/// The attribute file of the user.
const USER_FILE: UserFile = UserFile {
    name: "core.attributesfile",
    key: b"attributesfile",
    usual: "git/attributes",
};

/// Returns the attribute files of the system and of the user.
///
/// # Errors
/// A value that names a file names none, an environment variable can't be read, or out of memory.
pub fn outer_files<R: Files + Env + AllocGlobal>(
    rt: &R,
    repository: &Repository,
) -> Result<Vec<String>, RepositoryError> {
    let mut files = system_files(rt)?;
    if let Some(path) = user_file(rt, repository, USER_FILE)? {
        files.push(path)?;
    }
    Ok(files)
}

// Returns the attribute file of the system, if the environment doesn't leave it out.
fn system_files<R: Env + AllocGlobal>(rt: &R) -> Result<Vec<String>, RepositoryError> {
    let mut files = Vec::new(rt.alloc());
    if !is_set(rt, "GIT_ATTR_NOSYSTEM")? {
        files.push(String::from_str(rt.alloc(), "/etc/gitattributes")?)?;
    }
    Ok(files)
}
