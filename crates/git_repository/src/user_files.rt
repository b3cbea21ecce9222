//! The files of the user that the configuration names, such as that of `core.attributesFile`.

use crate::error::RepositoryError;
use crate::files::{configuration_folder, joined, text_of, variable};
use crate::homes::expanded;
use crate::location::Repository;
use git_config::Config;
use std::rt::{Env, Files};

/// A file of the user.
#[derive(Clone, Copy)]
pub struct UserFile {
    /// The variable that names it.
    pub name: &'static str,
    /// The variable's name in the section `core`.
    pub key: &'static [u8],
    /// Its usual path in the folder of configuration files.
    pub usual: &'static str,
}

/// Returns the path of a file of the user: that of its variable, otherwise the usual one in the folder of configuration files.
/// None without such a folder. A relative path starts at the worktree's top.
///
/// # Errors
/// The variable's value names no file, an environment variable can't be read, or out of memory.
pub fn user_file<R: Files + Env + AllocGlobal>(
    rt: &R,
    repository: &Repository,
    file: UserFile,
) -> Result<Option<String>, RepositoryError> {
    let home = variable(rt, "HOME")?;
    let found = match set_file(rt, &repository.config, file)? {
        Some(path) => Some(path),
        None => usual_file(rt, file, &home)?,
    };
    match found {
        Some(path) => Ok(Some(joined(rt.alloc(), repository.top.as_str(), path.as_str())?)),
        None => Ok(None),
    }
}

// Returns the file of a variable. As in git, a value that names no file is an error even if a later one overrides it.
fn set_file<R: Files + Env + AllocGlobal>(
    rt: &R,
    config: &Config,
    file: UserFile,
) -> Result<Option<String>, RepositoryError> {
    let mut set = None;
    for found in config.variables() {
        if found.is_named(b"core", None, file.key) {
            set = Some(named_file(rt, file, found.value())?);
        }
    }
    Ok(set)
}

// Returns the usual path of a file. None without a folder of configuration files.
fn usual_file<R: Env + AllocGlobal>(
    rt: &R,
    file: UserFile,
    home: &Option<String>,
) -> Result<Option<String>, RepositoryError> {
    match configuration_folder(rt, home)? {
        Some(folder) => Ok(Some(joined(rt.alloc(), folder.as_str(), file.usual)?)),
        None => Ok(None),
    }
}

// Returns the file of a path that is set, and may begin with `~`.
fn named_file<R: Files + Env + AllocGlobal>(
    rt: &R,
    file: UserFile,
    value: Option<&[u8]>,
) -> Result<String, RepositoryError> {
    let Some(value) = value else {
        return Err(bad_file(file, String::new(rt.alloc())));
    };
    let path = text_of(rt.alloc(), value)?;
    match expanded(rt, path)? {
        Some(path) => Ok(path),
        None => Err(bad_file(file, String::from_str(rt.alloc(), path)?)),
    }
}

// Returns the error of a value that names no file.
fn bad_file(file: UserFile, value: String) -> RepositoryError {
    RepositoryError::BadValue {
        name: file.name,
        value,
    }
}
