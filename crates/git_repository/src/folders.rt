//! The folders of a repository, as the conditions of includes ask for them.

use crate::error::RepositoryError;
use crate::files::{canonical, joined, variable};
use crate::heads::branch_of;
use crate::homes::{OWN_FOLDER, pattern_with_home};
use git_config::{FolderPattern, conditions};
use std::fs;
use std::os::unix::fs::MetadataExt as _;
use std::rt::{Env, Files};

/// The folders of a repository with a worktree, by absolute paths.
#[derive(Debug, Drop)]
pub struct Folders {
    /// The working folder, from which the repository was found.
    pub working: String,
    /// The worktree's folder.
    pub top: String,
    /// The repository's folder, usually `.git`. That of a linked worktree is its own.
    pub git_dir: String,
    /// The folder of the repository whose linked worktree this is, otherwise `git_dir`.
    pub common_dir: String,
    /// The path by which git knows the repository's folder, absolute or from the worktree's top on. None if that is the one without
    /// links.
    pub name: Option<String>,
}

impl Folders {
    /// Returns whether the repository's folder matches the pattern of a condition that the configuration file at a path has: by its
    /// path without links, or by the one by which git knows it. None if the pattern isn't compared.
    ///
    /// # Errors
    /// A folder's path or an environment variable can't be read, or out of memory.
    pub fn is_in_folder<R: Files + Env + AllocGlobal>(
        &self,
        rt: &R,
        pattern: &[u8],
        folds_case: bool,
        file: Option<&str>,
    ) -> Result<Option<bool>, RepositoryError> {
        let alloc = rt.alloc();
        let folder = match file {
            Some(file) => Some(folder_of(rt, file)?),
            None => None,
        };
        let folder = match &folder {
            Some(folder) => Some(folder.as_bytes()),
            None => None,
        };
        if pattern.starts_with(OWN_FOLDER) {
            return Ok(None);
        }
        let pattern = pattern_with_home(rt, self.top.as_str(), pattern)?;
        let Some(pattern) = FolderPattern::of(alloc, &pattern, folds_case, folder)? else {
            return Ok(Some(false));
        };
        let real = canonical(rt, self.git_dir.as_str())?;
        match (pattern.is_match(alloc, real.as_bytes())?, &self.name) {
            (Some(false), Some(name)) => {
                let named = self.named_git_dir(rt, name.as_str())?;
                Ok(pattern.is_match(alloc, named.as_bytes())?)
            }
            (matches, _) => Ok(matches),
        }
    }

    /// Returns whether the name of the branch that `HEAD` names matches a pattern. None if the pattern isn't compared.
    ///
    /// # Errors
    /// A reference can't be read, or out of memory.
    pub fn is_on_branch<R: Files + AllocGlobal>(
        &self,
        rt: &R,
        pattern: &[u8],
    ) -> Result<Option<bool>, RepositoryError> {
        match branch_of(rt, self.git_dir.as_str(), self.common_dir.as_str())? {
            Some(branch) => {
                Ok(conditions::is_on_branch(rt.alloc(), pattern, branch.as_bytes())?)
            }
            None => Ok(Some(false)),
        }
    }

    // Returns the path of the repository's folder as it is named. If that is relative, it begins with the path that the user's shell
    // has for the worktree's top, through links.
    fn named_git_dir<R: Files + Env + AllocGlobal>(
        &self,
        rt: &R,
        name: &str,
    ) -> Result<String, RepositoryError> {
        let top = self.top.as_str();
        match shown_folder(rt)? {
            Some(shown) if is_same_folder(rt, shown.as_str(), top) => {
                Ok(joined(rt.alloc(), shown.as_str(), name)?)
            }
            _ => Ok(joined(rt.alloc(), top, name)?),
        }
    }
}

// Returns the path that the user's shell has for the working folder. None if it isn't UTF-8 or not set.
fn shown_folder<R: Env + AllocGlobal>(rt: &R) -> Result<Option<String>, RepositoryError> {
    match variable(rt, "PWD") {
        Err(RepositoryError::BadEnvironment { .. }) => Ok(None),
        shown => shown,
    }
}

// Returns the folder of the file at a path, without links and without a slash at its end.
fn folder_of<R: Files + AllocGlobal>(rt: &R, file: &str) -> Result<String, RepositoryError> {
    let real = canonical(rt, file)?;
    match real.rsplit_once('/') {
        Some((folder, _)) => Ok(String::from_str(rt.alloc(), folder)?),
        None => Ok(real),
    }
}

// Returns whether two paths are those of one folder.
fn is_same_folder<R: Files>(rt: &R, a: &str, b: &str) -> bool {
    match (fs::metadata(rt, a), fs::metadata(rt, b)) {
        (Ok(a), Ok(b)) => a.dev() == b.dev() && a.ino() == b.ino(),
        _ => false,
    }
}
