//! The files and environment variables that have git's configuration.

use crate::error::RepositoryError;
use crate::files::{bad_environment, configuration_folder, joined, read_if_there, variable};
use crate::paths::folded;
use crate::regular::{SMALL_LIMIT, Unread};
use git_config::{Config, ConfigError, append_parameters, bool_of, number_of, read_config};
use std::alloc::{AllocError, Global};
use std::io;
use std::rt::{Env, Files};

// The most variables that the environment may state.
const ENVIRONMENT_LIMIT: i32 = 1 << 16;

/// The variables of one file, or those of the environment.
#[derive(Debug, Drop)]
pub struct Source {
    /// The path of their file, in whose folder relative paths of includes start. None if they are the environment's.
    pub path: Option<String>,
    /// The variables, without those of included files.
    pub config: Config,
}

/// Reads a configuration file. One that isn't there has no variables.
///
/// # Errors
/// The file or a line of it can't be read, or out of memory.
pub fn read_file<R: Files + AllocGlobal>(rt: &R, path: String) -> Result<Source, RepositoryError> {
    let config = match read_if_there(rt, path.as_str(), SMALL_LIMIT)? {
        Some(bytes) => config_of(rt.alloc(), &bytes, path.as_str())?,
        None => Config::new(rt.alloc()),
    };
    Ok(Source {
        path: Some(path),
        config,
    })
}

/// Returns the configuration of these bytes, which are those of the file at a path.
///
/// # Errors
/// A line can't be read, or out of memory.
pub fn config_of(alloc: Global, bytes: &[u8], path: &str) -> Result<Config, RepositoryError> {
    match read_config(alloc, bytes) {
        Ok(config) => Ok(config),
        Err(ConfigError::Line { line }) => Err(RepositoryError::BadConfig {
            line,
            path: String::from_str(alloc, path)?,
        }),
        Err(ConfigError::Memory(error)) => Err(RepositoryError::Memory(error)),
    }
}

/// Reads the configuration of the system and of the user, the system's first. As in git, a relative path of the environment starts
/// at the worktree's top.
///
/// # Errors
/// A file or a value can't be read, or out of memory.
pub fn read_outer<R: Files + Env + AllocGlobal>(
    rt: &R,
    top: &str,
) -> Result<Vec<Source>, RepositoryError> {
    let alloc = rt.alloc();
    let mut sources = Vec::new(alloc);
    if let Some(path) = system_file(rt, top)? {
        sources.push(read_file(rt, path)?)?;
    }
    match variable(rt, "GIT_CONFIG_GLOBAL")? {
        Some(path) => append_user_file(rt, from_top(alloc, top, path)?, &mut sources)?,
        None => append_user(rt, top, &mut sources)?,
    }
    Ok(sources)
}

// Returns the path of the system's configuration file. None if the environment leaves it out. As in git, `..` in the variable takes
// the name before it away, also that of a link.
fn system_file<R: Env + AllocGlobal>(rt: &R, top: &str) -> Result<Option<String>, RepositoryError> {
    if is_set(rt, "GIT_CONFIG_NOSYSTEM")? {
        return Ok(None);
    }
    let alloc = rt.alloc();
    match variable(rt, "GIT_CONFIG_SYSTEM")? {
        Some(path) => {
            let path = folded(alloc, path.as_str())?.unwrap_or(path);
            Ok(Some(from_top(alloc, top, path)?))
        }
        None => Ok(Some(String::from_str(alloc, "/etc/gitconfig")?)),
    }
}

// Returns the path of a file that the environment names. The empty path stays, and names none.
fn from_top(alloc: Global, top: &str, path: String) -> Result<String, AllocError> {
    if path.is_empty() {
        return Ok(path);
    }
    joined(alloc, top, path.as_str())
}

// Appends a configuration file of the user. As in git, one that may not be read has no variables.
fn append_user_file<R: Files + AllocGlobal>(
    rt: &R,
    path: String,
    sources: &mut Vec<Source>,
) -> Result<(), RepositoryError> {
    match read_file(rt, path) {
        Ok(source) => Ok(sources.push(source)?),
        Err(error) if is_denied(&error) => Ok(()),
        Err(error) => Err(error),
    }
}

// Returns whether the user may not read a file.
fn is_denied(error: &RepositoryError) -> bool {
    match error {
        RepositoryError::Unreadable { why, .. } => {
            *why == Unread::System(io::ErrorKind::PermissionDenied)
        }
        _ => false,
    }
}

/// Returns whether an environment variable is set to true.
///
/// # Errors
/// Its value isn't a boolean, or not UTF-8, or out of memory.
pub fn is_set<R: Env + AllocGlobal>(rt: &R, name: &'static str) -> Result<bool, RepositoryError> {
    let Some(value) = variable(rt, name)? else {
        return Ok(false);
    };
    match bool_of(Some(value.as_bytes())) {
        Some(is_set) => Ok(is_set),
        None => Err(RepositoryError::BadBoolean { name, value }),
    }
}

// Appends the configuration files of the user.
fn append_user<R: Files + Env + AllocGlobal>(
    rt: &R,
    top: &str,
    sources: &mut Vec<Source>,
) -> Result<(), RepositoryError> {
    let home = variable(rt, "HOME")?;
    if let Some(folder) = configuration_folder(rt, &home)? {
        append_below(rt, top, folder.as_str(), "git/config", sources)?;
    }
    if let Some(home) = home {
        append_below(rt, top, home.as_str(), ".gitconfig", sources)?;
    }
    Ok(())
}

// Appends the configuration file in a folder of the user. As in git, an empty name of a folder is that of the root.
fn append_below<R: Files + AllocGlobal>(
    rt: &R,
    top: &str,
    folder: &str,
    name: &str,
    sources: &mut Vec<Source>,
) -> Result<(), RepositoryError> {
    let path = format!(in rt.alloc(); "{folder}/{name}")?;
    append_user_file(rt, joined(rt.alloc(), top, path.as_str())?, sources)
}

/// Returns the variables that `GIT_CONFIG_COUNT`, `GIT_CONFIG_KEY_0`, `GIT_CONFIG_VALUE_0` and so on state, and then those
/// of `GIT_CONFIG_PARAMETERS`.
///
/// # Errors
/// They state none, or out of memory.
pub fn read_environment<R: Env + AllocGlobal>(rt: &R) -> Result<Source, RepositoryError> {
    let mut config = Config::new(rt.alloc());
    append_counted(rt, &mut config)?;
    let name = "GIT_CONFIG_PARAMETERS";
    if let Some(text) = variable(rt, name)?
        && !append_parameters(rt.alloc(), text.as_str(), &mut config)?
    {
        return Err(bad_environment(rt.alloc(), name));
    }
    Ok(Source { path: None, config })
}

// Appends the variables that `GIT_CONFIG_COUNT` counts.
fn append_counted<R: Env + AllocGlobal>(
    rt: &R,
    config: &mut Config,
) -> Result<(), RepositoryError> {
    for number in 0..counted(rt)? {
        append_numbered(rt, config, number)?;
    }
    Ok(())
}

// Returns how many variables `GIT_CONFIG_COUNT` counts.
fn counted<R: Env + AllocGlobal>(rt: &R) -> Result<i32, RepositoryError> {
    let name = "GIT_CONFIG_COUNT";
    let Some(text) = variable(rt, name)? else {
        return Ok(0);
    };
    if text.is_empty() {
        return Ok(0);
    }
    match number_of(text.as_bytes()) {
        Some(count) if count >= 0 && count <= ENVIRONMENT_LIMIT => Ok(count),
        _ => Err(bad_environment(rt.alloc(), name)),
    }
}

// Appends the variable of a number.
fn append_numbered<R: Env + AllocGlobal>(
    rt: &R,
    config: &mut Config,
    number: i32,
) -> Result<(), RepositoryError> {
    let alloc = rt.alloc();
    let key = needed(rt, format!(in alloc; "GIT_CONFIG_KEY_{number}")?)?;
    let value = needed(rt, format!(in alloc; "GIT_CONFIG_VALUE_{number}")?)?;
    Ok(config.push(alloc, key.as_str(), Some(value.as_bytes()))?)
}

// Returns the value of an environment variable that has to be set.
fn needed<R: Env + AllocGlobal>(rt: &R, name: String) -> Result<String, RepositoryError> {
    match variable(rt, name.as_str())? {
        Some(value) => Ok(value),
        None => Err(RepositoryError::BadEnvironment { name }),
    }
}
