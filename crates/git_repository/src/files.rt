//! Small files, paths and environment variables.

use crate::error::RepositoryError;
use crate::regular::{Unread, read_regular};
use std::alloc::{AllocError, Global};
use std::env::VarError;
use std::rt::{Env, Files};
use std::{env, fs, io};

/// Returns a path below a folder, or the path itself if it is absolute.
///
/// # Errors
/// Out of memory.
pub fn joined(alloc: Global, folder: &str, path: &str) -> Result<String, AllocError> {
    if path.starts_with('/') {
        String::from_str(alloc, path)
    } else if folder.ends_with('/') {
        format!(in alloc; "{folder}{path}")
    } else {
        format!(in alloc; "{folder}/{path}")
    }
}

/// Returns the path without links, `.` and `..`.
///
/// # Errors
/// Nothing is there, the system refuses, or out of memory.
pub fn canonical<R: Files + AllocGlobal>(rt: &R, path: &str) -> Result<String, RepositoryError> {
    match fs::canonicalize(rt, path) {
        Ok(found) => Ok(found.into_string()),
        Err(error) => Err(unreadable(rt.alloc(), path, Unread::System(error.kind()))),
    }
}

/// Returns the error of a path that isn't read.
pub fn unreadable(alloc: Global, path: &str, why: Unread) -> RepositoryError {
    match String::from_str(alloc, path) {
        Ok(_) if why == Unread::System(io::ErrorKind::OutOfMemory) => RepositoryError::Memory(
            AllocError,
        ),
        Ok(path) => RepositoryError::Unreadable { path, why },
        Err(_) => RepositoryError::Memory(AllocError),
    }
}

/// Returns the error of an environment variable that states no configuration.
pub fn bad_environment(alloc: Global, name: &str) -> RepositoryError {
    match String::from_str(alloc, name) {
        Ok(name) => RepositoryError::BadEnvironment { name },
        Err(_) => RepositoryError::Memory(AllocError),
    }
}

/// Returns the bytes of a regular file that has at most `limit`. None if nothing is at the path.
///
/// # Errors
/// Something else is there, the file can't be read, or out of memory.
pub fn read_if_there<R: Files + AllocGlobal>(
    rt: &R,
    path: &str,
    limit: usize,
) -> Result<Option<Vec<u8>>, RepositoryError> {
    match read_regular(rt, path, limit) {
        Ok(found) => Ok(Some(found.bytes)),
        Err(Unread::System(kind)) if is_missing(kind) => Ok(None),
        Err(why) => Err(unreadable(rt.alloc(), path, why)),
    }
}

/// Returns whether an error says that nothing is at a path.
pub fn is_missing(kind: io::ErrorKind) -> bool {
    matches!(kind, io::ErrorKind::NotFound | io::ErrorKind::NotADirectory)
}

/// Returns whether a folder is at a path, or at the end of links there.
///
/// # Errors
/// Out of memory.
pub fn is_folder<R: Files>(rt: &R, path: &str) -> Result<bool, RepositoryError> {
    match fs::metadata(rt, path) {
        Ok(found) => Ok(found.is_dir()),
        Err(error) if error.kind() == io::ErrorKind::OutOfMemory => Err(RepositoryError::Memory(
            AllocError,
        )),
        Err(_) => Ok(false),
    }
}

/// Returns the text of a path that a file has. Line ends after it are left out.
///
/// # Errors
/// The path isn't UTF-8, or out of memory.
pub fn path_of(alloc: Global, bytes: &[u8]) -> Result<String, RepositoryError> {
    let text = text_of(alloc, bytes)?;
    let path = text.trim_end_matches(|found| found == '\n' || found == '\r');
    Ok(String::from_str(alloc, path)?)
}

/// Returns the text of a path.
///
/// # Errors
/// The path isn't UTF-8, or out of memory.
pub fn text_of(alloc: Global, bytes: &[u8]) -> Result<&str, RepositoryError> {
    match str::from_utf8(bytes) {
        Ok(text) => Ok(text),
        Err(_) => Err(RepositoryError::IllformedPath {
            path: String::from_utf8_lossy(alloc, bytes)?,
        }),
    }
}

/// Returns the value of an environment variable. None if it isn't set.
///
/// # Errors
/// The value isn't UTF-8, or out of memory.
pub fn variable<R: Env + AllocGlobal>(
    rt: &R,
    name: &str,
) -> Result<Option<String>, RepositoryError> {
    match env::var(rt, name) {
        Ok(value) => Ok(Some(value)),
        Err(VarError::NotPresent) => Ok(None),
        Err(VarError::NotUnicode) => Err(bad_environment(rt.alloc(), name)),
        Err(VarError::OutOfMemory) => Err(RepositoryError::Memory(AllocError)),
    }
}

/// Returns the user's folder of configuration files: that of `XDG_CONFIG_HOME`, otherwise `.config` in the home folder. None
/// if there is neither.
///
/// # Errors
/// The variable isn't UTF-8, or out of memory.
pub fn configuration_folder<R: Env + AllocGlobal>(
    rt: &R,
    home: &Option<String>,
) -> Result<Option<String>, RepositoryError> {
    match (variable(rt, "XDG_CONFIG_HOME")?, home) {
        (Some(folder), _) if !folder.is_empty() => Ok(Some(folder)),
        (_, Some(home)) => Ok(Some(joined(rt.alloc(), home.as_str(), ".config")?)),
        (_, None) => Ok(None),
    }
}
