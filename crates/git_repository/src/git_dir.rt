//! The folder of a repository, such as `.git`.

use crate::error::RepositoryError;
use crate::files::{canonical, is_folder, is_missing, joined, path_of, read_if_there, unreadable};
use crate::heads::has_head;
use crate::regular::{GIT_FILE_LIMIT, SMALL_LIMIT, Unread};
use std::alloc::Global;
use std::fs::{self, Metadata};
use std::io;
use std::rt::Files;

// The beginning of a file `.git`, before the path of a repository.
const GIT_FILE_START: &[u8] = b"gitdir: ";

/// What counts if the system refuses to read a node on the way to a repository.
#[derive(Clone, Copy, PartialEq, Eq)]
pub enum Refusal {
    /// It is an error.
    IsError,
    /// There is no repository, as in git's search for one.
    IsMissing,
}

/// Returns the folder of the repository whose worktree a folder is: `.git` there, or what the file `.git` names. None if
/// neither is there.
///
/// # Errors
/// A file `.git` can't be read or names no repository, the file `commondir` can't be read, or out of memory; and as `refusal`
/// says, if the system refuses to read the folder or its `HEAD`.
pub fn git_dir_in<R: Files + AllocGlobal>(
    rt: &R,
    folder: &str,
    refusal: Refusal,
) -> Result<Option<String>, RepositoryError> {
    let path = joined(rt.alloc(), folder, ".git")?;
    match fs::metadata(rt, path.as_str()) {
        Ok(found) => git_dir_at(rt, path, &found, refusal),
        Err(error) if refusal == Refusal::IsError && !is_missing(error.kind()) => {
            Err(unreadable(rt.alloc(), path.as_str(), Unread::System(error.kind())))
        }
        Err(_) => Ok(None),
    }
}

// Returns the folder of the repository that the node at a path is, or that the file there names.
fn git_dir_at<R: Files + AllocGlobal>(
    rt: &R,
    path: String,
    found: &Metadata,
    refusal: Refusal,
) -> Result<Option<String>, RepositoryError> {
    if found.is_dir() {
        Ok(is_git_dir(rt, path.as_str(), refusal)?.then_some(path))
    } else if found.is_file() {
        Ok(Some(named_git_dir(rt, path)?))
    } else {
        Ok(None)
    }
}

/// Returns the repository's folder that a path is, or that the file there names.
///
/// # Errors
/// The path is none and the file names none, or out of memory.
pub fn named_git_dir<R: Files + AllocGlobal>(
    rt: &R,
    path: String,
) -> Result<String, RepositoryError> {
    let git_dir = if is_folder(rt, path.as_str())? {
        path
    } else {
        read_git_file(rt, path)?
    };
    if is_git_dir(rt, git_dir.as_str(), Refusal::IsError)? {
        canonical(rt, git_dir.as_str())
    } else {
        Err(RepositoryError::NotARepository { path: git_dir })
    }
}

// Returns the folder that the file `.git` at a path names.
fn read_git_file<R: Files + AllocGlobal>(rt: &R, path: String) -> Result<String, RepositoryError> {
    match read_if_there(rt, path.as_str(), GIT_FILE_LIMIT)? {
        Some(bytes) => match bytes.as_slice().strip_prefix(GIT_FILE_START) {
            Some(named) => beside(rt.alloc(), path.as_str(), named),
            None => Err(RepositoryError::BadGitFile { path }),
        },
        None => Err(RepositoryError::NotARepository { path }),
    }
}

// Returns a path that a file names. It starts in the folder in which the file, or a link to it, is.
fn beside(alloc: Global, file: &str, named: &[u8]) -> Result<String, RepositoryError> {
    let folder = parent_of(file).unwrap_or("/");
    let path = path_of(alloc, named)?;
    Ok(joined(alloc, folder, path.as_str())?)
}

/// Returns whether a folder is that of a repository: `HEAD` is one that git accepts, and folders `objects` and `refs` are
/// there.
///
/// # Errors
/// The file `commondir` can't be read, or out of memory; and as `refusal` says, if `HEAD` can't be read.
pub fn is_git_dir<R: Files + AllocGlobal>(
    rt: &R,
    folder: &str,
    refusal: Refusal,
) -> Result<bool, RepositoryError> {
    match has_head(rt, folder) {
        Ok(true) => has_folders(rt, common_dir_of(rt, folder)?.as_str()),
        Ok(false) => Ok(false),
        Err(error) if refusal == Refusal::IsMissing && error.is_unreadable() => Ok(false),
        Err(error) => Err(error),
    }
}

// Returns whether the folders `objects` and `refs` are in a repository's common folder.
fn has_folders<R: Files + AllocGlobal>(rt: &R, common_dir: &str) -> Result<bool, RepositoryError> {
    let objects = joined(rt.alloc(), common_dir, "objects")?;
    let refs = joined(rt.alloc(), common_dir, "refs")?;
    if !is_folder(rt, objects.as_str())? {
        return Ok(false);
    }
    is_folder(rt, refs.as_str())
}

/// Returns the folder of the repository whose linked worktree has this folder. That of any other is its own.
///
/// # Errors
/// The file `commondir` can't be read, or out of memory.
pub fn common_dir_of<R: Files + AllocGlobal>(
    rt: &R,
    git_dir: &str,
) -> Result<String, RepositoryError> {
    let place = joined(rt.alloc(), git_dir, "commondir")?;
    match read_if_there(rt, place.as_str(), SMALL_LIMIT)? {
        Some(bytes) => named_common_dir(rt.alloc(), git_dir, place.as_str(), &bytes),
        None => Ok(String::from_str(rt.alloc(), git_dir)?),
    }
}

// Returns the folder that the bytes of a file `commondir` name. `place` is the file's path.
fn named_common_dir(
    alloc: Global,
    git_dir: &str,
    place: &str,
    bytes: &[u8],
) -> Result<String, RepositoryError> {
    if bytes.is_empty() {
        let why = Unread::System(io::ErrorKind::UnexpectedEof);
        return Err(unreadable(alloc, place, why));
    }
    let path = path_of(alloc, bytes)?;
    Ok(joined(alloc, git_dir, path.as_str())?)
}

/// Returns the folder above an absolute path. None above the root.
pub fn parent_of(path: &str) -> Option<&str> {
    let (parent, name) = path.rsplit_once('/')?;
    if name.is_empty() {
        None
    } else if parent.is_empty() {
        Some("/")
    } else {
        Some(parent)
    }
}
