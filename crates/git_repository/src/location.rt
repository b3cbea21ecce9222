//! The folders of a repository: its own, and that of its worktree.

use crate::error::RepositoryError;
use crate::files::{bad_environment, canonical, is_folder, joined, variable};
use crate::folders::Folders;
use crate::git_dir::{Refusal, common_dir_of, git_dir_in, is_git_dir, named_git_dir, parent_of};
use crate::regular::Unread;
use crate::settings::{OwnSettings, Settings, read_own, read_settings};
use git_config::Config;
use std::alloc::{AllocError, Global};
use std::io;
use std::rt::{Env, Files};

/// A repository with a worktree. All paths are absolute.
#[derive(Debug, Drop)]
pub struct Repository {
    /// The repository's folder, usually `.git`. That of a linked worktree is its own.
    pub git_dir: String,
    /// The folder of the repository whose linked worktree this is, otherwise `git_dir`.
    pub common_dir: String,
    /// The worktree's folder.
    pub top: String,
    /// The working folder relative to `top`, and a slash. Empty if that is `top` or outside of it.
    pub prefix: String,
    /// The index file. The empty path names none.
    pub index: String,
    /// The settings.
    pub settings: Settings,
    /// The configuration of system, user, repository and environment.
    pub config: Config,
}

// The name of a repository's folder in that of its worktree.
const GIT_DIR: &str = ".git";

// A repository that was found.
#[derive(Drop)]
struct Found {
    git_dir: String,
    // The worktree, if neither the settings nor the environment name one. None within a repository's own folder.
    top: Option<String>,
    // The path by which git names the repository's folder, if no file does.
    name: Option<String>,
    // Whether `GIT_DIR` names it, or the working folder has it.
    is_near: bool,
}

impl Repository {
    /// Finds the repository of a working folder: the one that `GIT_DIR` names, otherwise the first that the folder or one
    /// above it has. `GIT_WORK_TREE`, `GIT_INDEX_FILE` and `GIT_CEILING_DIRECTORIES` count as in git: a relative index
    /// file is one of the worktree's folder. Unlike git it goes on above a mount point, and reads a repository that
    /// another user owns.
    ///
    /// # Errors
    /// The working folder isn't a folder, there is no repository, it has no worktree, its configuration can't be read, or out of memory.
    pub fn discover<R: Files + Env + AllocGlobal>(
        rt: &R,
        folder: &str,
    ) -> Result<Repository, RepositoryError> {
        let folder = working_folder(rt, folder)?;
        let found = find(rt, folder.as_str())?;
        let (folders, own) = folders_of(rt, folder, found)?;
        let (settings, config) = read_settings(rt, &folders, own)?;
        let index = index_of(rt, &folders)?;
        let Folders {
            working,
            top,
            git_dir,
            common_dir,
            ..
        } = folders;
        let prefix = prefix_of(rt.alloc(), top.as_str(), working.as_str())?;
        Ok(Repository {
            git_dir,
            common_dir,
            top,
            prefix,
            index,
            settings,
            config,
        })
    }
}

// Returns the folders of a repository that was found from a working folder, and its own settings.
fn folders_of<R: Files + Env + AllocGlobal>(
    rt: &R,
    working: String,
    found: Found,
) -> Result<(Folders, OwnSettings), RepositoryError> {
    let Found {
        git_dir,
        top,
        name,
        is_near,
    } = found;
    let common_dir = common_dir_of(rt, git_dir.as_str())?;
    let own = read_own(rt, git_dir.as_str(), common_dir.as_str())?;
    let top = top_of(rt, working.as_str(), git_dir.as_str(), &own, top)?;
    let name = if has_named(rt, &own)? {
        known_name(rt.alloc(), top.as_str(), working.as_str(), name, is_near)?
    } else {
        name
    };
    let folders = Folders {
        working,
        top,
        git_dir,
        common_dir,
        name,
    };
    Ok((folders, own))
}

// Returns whether the environment names the repository or its worktree, or the settings name the worktree.
fn has_named<R: Env + AllocGlobal>(rt: &R, own: &OwnSettings) -> Result<bool, RepositoryError> {
    Ok(
        own.worktree.is_some()
            || variable(rt, "GIT_DIR")?.is_some()
            || variable(rt, "GIT_WORK_TREE")?.is_some(),
    )
}

// Returns the path by which git knows a repository's folder, if something names that or the worktree. Git changes to the worktree's
// top: from a folder below it uses the path without links, and from a folder outside the whole path, or the rest of it after that
// of the top.
fn known_name(
    alloc: Global,
    top: &str,
    working: &str,
    name: Option<String>,
    is_near: bool,
) -> Result<Option<String>, AllocError> {
    let Some(name) = name else {
        return Ok(None);
    };
    if !is_near {
        return Ok(None);
    }
    if working == top || name.starts_with('/') && below(top, working).is_none() {
        return Ok(Some(name));
    }
    if below(top, working).is_some() {
        return Ok(None);
    }
    let path = joined(alloc, working, name.as_str())?;
    match below(top, path.as_str()) {
        Some(rest) => Ok(Some(String::from_str(alloc, rest)?)),
        None => Ok(Some(path)),
    }
}

// Returns the index file: the one that the environment names, otherwise the repository's own.
fn index_of<R: Env + AllocGlobal>(rt: &R, folders: &Folders) -> Result<String, RepositoryError> {
    match variable(rt, "GIT_INDEX_FILE")? {
        Some(path) if path.is_empty() => Ok(path),
        Some(path) => Ok(joined(rt.alloc(), folders.top.as_str(), path.as_str())?),
        None => Ok(joined(rt.alloc(), folders.git_dir.as_str(), "index")?),
    }
}

// Returns the path of a working folder without links, `.` and `..`.
fn working_folder<R: Files + AllocGlobal>(rt: &R, path: &str) -> Result<String, RepositoryError> {
    let folder = match canonical(rt, path) {
        Ok(folder) => folder,
        Err(RepositoryError::Unreadable { why, .. }) => {
            return Err(not_a_folder(rt.alloc(), path, why));
        }
        Err(error) => return Err(error),
    };
    if is_folder(rt, folder.as_str())? {
        return Ok(folder);
    }
    Err(not_a_folder(
        rt.alloc(),
        path,
        Unread::System(io::ErrorKind::NotADirectory),
    ))
}

// Returns the error of a path that is no working folder.
fn not_a_folder(alloc: Global, path: &str, why: Unread) -> RepositoryError {
    match String::from_str(alloc, path) {
        Ok(path) => RepositoryError::NotAFolder { path, why },
        Err(_) => RepositoryError::Memory(AllocError),
    }
}

fn find<R: Files + Env + AllocGlobal>(rt: &R, folder: &str) -> Result<Found, RepositoryError> {
    let alloc = rt.alloc();
    match variable(rt, "GIT_DIR")? {
        Some(name) if name.is_empty() => Err(RepositoryError::NotARepository { path: name }),
        Some(name) => {
            let path = joined(alloc, folder, name.as_str())?;
            let is_named = is_folder(rt, path.as_str())?;
            Ok(Found {
                git_dir: named_git_dir(rt, path)?,
                top: Some(String::from_str(alloc, folder)?),
                name: is_named.then_some(name),
                is_near: true,
            })
        }
        None => match variable(rt, "GIT_CEILING_DIRECTORIES")? {
            Some(ceilings) => search(rt, folder, ceilings.as_str()),
            None => search(rt, folder, ""),
        },
    }
}

// Searches a folder and those above it, below any of the ceilings. A colon is between two ceilings.
fn search<R: Files + AllocGlobal>(
    rt: &R,
    folder: &str,
    ceilings: &str,
) -> Result<Found, RepositoryError> {
    let mut here = folder;
    for _ in 0..usize::MAX {
        if let Some(found) = found_in(rt, here, here == folder)? {
            return Ok(found);
        }
        match parent_of(here) {
            Some(parent) if !is_ceiling(parent, ceilings) => here = parent,
            _ => return Err(RepositoryError::NotFound),
        }
    }
    Err(RepositoryError::NotFound)
}

// Returns the repository of a folder: the one that has its worktree there, or the one whose own folder it is.
fn found_in<R: Files + AllocGlobal>(
    rt: &R,
    folder: &str,
    is_near: bool,
) -> Result<Option<Found>, RepositoryError> {
    let alloc = rt.alloc();
    if let Some(git_dir) = git_dir_in(rt, folder, Refusal::IsMissing)? {
        let is_named = git_dir == joined(alloc, folder, GIT_DIR)?;
        let name = String::from_str(alloc, GIT_DIR)?;
        return Ok(Some(Found {
            git_dir,
            top: Some(String::from_str(alloc, folder)?),
            name: is_named.then_some(name),
            is_near,
        }));
    }
    if is_git_dir(rt, folder, Refusal::IsMissing)? {
        let git_dir = String::from_str(alloc, folder)?;
        return Ok(Some(Found {
            name: Some(git_dir.clone()?),
            git_dir,
            top: None,
            is_near,
        }));
    }
    Ok(None)
}

fn is_ceiling(folder: &str, ceilings: &str) -> bool {
    for ceiling in ceilings.split(':') {
        if !ceiling.is_empty() && ceiling.trim_end_matches('/') == folder.trim_end_matches('/') {
            return true;
        }
    }
    false
}

// Returns the worktree's folder: what the environment says, otherwise the settings, otherwise the one that was found.
fn top_of<R: Files + Env + AllocGlobal>(
    rt: &R,
    folder: &str,
    git_dir: &str,
    own: &OwnSettings,
    found: Option<String>,
) -> Result<String, RepositoryError> {
    match variable(rt, "GIT_WORK_TREE")? {
        Some(path) if path.is_empty() => Err(bad_environment(rt.alloc(), "GIT_WORK_TREE")),
        Some(path) => named_top(rt, folder, path.as_str()),
        None if own.bare == Some(true) => Err(RepositoryError::NoWorktree),
        None => own_top(rt, git_dir, &own.worktree, found),
    }
}

// Returns the worktree's folder: what the settings say, otherwise the one that was found.
fn own_top<R: Files + AllocGlobal>(
    rt: &R,
    git_dir: &str,
    worktree: &Option<String>,
    found: Option<String>,
) -> Result<String, RepositoryError> {
    match (worktree, found) {
        (Some(path), _) => named_top(rt, git_dir, path.as_str()),
        (None, Some(top)) => Ok(top),
        (None, None) => Err(RepositoryError::NoWorktree),
    }
}

// Returns the folder of a worktree that the environment or the settings name, below this folder or absolute. As in git,
// there is none without a folder.
fn named_top<R: Files + AllocGlobal>(
    rt: &R,
    folder: &str,
    path: &str,
) -> Result<String, RepositoryError> {
    let path = joined(rt.alloc(), folder, path)?;
    match canonical(rt, path.as_str()) {
        Ok(top) => checked_top(rt, top),
        Err(error) if error.is_unreadable() => Err(RepositoryError::NoWorktree),
        Err(error) => Err(error),
    }
}

// Checks that a folder is at the path of a worktree.
fn checked_top<R: Files>(rt: &R, top: String) -> Result<String, RepositoryError> {
    if is_folder(rt, top.as_str())? {
        Ok(top)
    } else {
        Err(RepositoryError::NoWorktree)
    }
}

// Returns a folder relative to the worktree's, and a slash. Nothing if it is the same, or outside.
fn prefix_of(alloc: Global, top: &str, folder: &str) -> Result<String, AllocError> {
    match below(top, folder) {
        Some(rest) if !rest.is_empty() => format!(in alloc; "{rest}/"),
        _ => Ok(String::new(alloc)),
    }
}

// Returns the rest of a folder's path after that of a folder above it, or nothing if they are the same. None if it isn't below.
fn below<'a>(top: &str, folder: &'a str) -> Option<&'a str> {
    match folder.strip_prefix(top.trim_end_matches('/'))? {
        "" => Some(""),
        rest => rest.strip_prefix('/'),
    }
}
