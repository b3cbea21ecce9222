//! The home folders of users, and `~` in paths.

use crate::error::RepositoryError;
use crate::files::{canonical, joined, read_if_there, text_of, variable};
use crate::regular::SMALL_LIMIT;
use git_patterns::text::first_at;
use std::alloc::Global;
use std::rt::{Env, Files};

// The file that has the home folders of the system's users.
const USERS: &str = "/etc/passwd";

/// The beginning of paths in git's own folder.
pub const OWN_FOLDER: &[u8] = b"%(prefix)/";

// The number of the field that is the home folder, counted from 0.
const HOME_FIELD: usize = 5;

/// Returns a path in which `~` is replaced by the user's home folder, and `~` with a name by that of another user of
/// `/etc/passwd`. None if there is no such folder, or if the path begins with git's own folder, `%(prefix)/`.
///
/// # Errors
/// The file of users or an environment variable can't be read, or out of memory.
pub fn expanded<R: Files + Env + AllocGlobal>(
    rt: &R,
    path: &str,
) -> Result<Option<String>, RepositoryError> {
    if path.as_bytes().starts_with(OWN_FOLDER) {
        return Ok(None);
    }
    let Some((user, below)) = split_home(path) else {
        return Ok(Some(String::from_str(rt.alloc(), path)?));
    };
    match home_of(rt, user)? {
        Some(home) => Ok(Some(format!(in rt.alloc(); "{home}{below}")?)),
        None => Ok(None),
    }
}

/// Returns the pattern of a condition in which `~` is replaced as in a path, but by the path of the user's home folder without
/// links. A relative home folder is one of the worktree's top. A `~` without a known folder stays.
///
/// # Errors
/// No folder is there in which the user's home folder may be; and as for `expanded`.
pub fn pattern_with_home<R: Files + Env + AllocGlobal>(
    rt: &R,
    top: &str,
    pattern: &[u8],
) -> Result<Vec<u8>, RepositoryError> {
    let alloc = rt.alloc();
    let mut whole = Vec::new(alloc);
    let mut below = pattern;
    if let Some(rest) = pattern.strip_prefix(b"~") {
        let len = first_at(b'/', rest).unwrap_or(rest.len());
        if let Some(home) = real_home_of(rt, top, rest.get(..len).unwrap_or(rest))? {
            whole.extend_from_slice(home.as_bytes())?;
            below = rest.get(len..).unwrap_or(b"");
        }
    }
    whole.extend_from_slice(below)?;
    Ok(whole)
}

// Returns the home folder of a user, or with an empty name that of the environment without links. None if it isn't known.
fn real_home_of<R: Files + Env + AllocGlobal>(
    rt: &R,
    top: &str,
    user: &[u8],
) -> Result<Option<String>, RepositoryError> {
    let Ok(user) = str::from_utf8(user) else {
        return Ok(None);
    };
    match home_of(rt, user)? {
        Some(home) if user.is_empty() => {
            let home = if home.is_empty() {
                home
            } else {
                joined(rt.alloc(), top, home.as_str())?
            };
            Ok(Some(canonical_or_new(rt, home.as_str())?))
        }
        home => Ok(home),
    }
}

// Returns the path of a folder without links. It needn't be there, but a folder above it has to.
fn canonical_or_new<R: Files + AllocGlobal>(rt: &R, path: &str) -> Result<String, RepositoryError> {
    match canonical(rt, path) {
        Ok(real) => Ok(real),
        Err(error) if error.is_not_found() => new_in_canonical(rt, path, error),
        Err(error) => Err(error),
    }
}

// Returns the path of a folder that isn't there, in the folder above it without links. This is the error if there is none.
fn new_in_canonical<R: Files + AllocGlobal>(
    rt: &R,
    path: &str,
    error: RepositoryError,
) -> Result<String, RepositoryError> {
    match path.rsplit_once('/') {
        Some((above, name)) if !name.is_empty() => {
            let above = if above.is_empty() { "/" } else { above };
            let real = canonical(rt, above)?;
            Ok(joined(rt.alloc(), real.as_str(), name)?)
        }
        _ => Err(error),
    }
}

// Returns the name of the user whose home folder a path begins with, and the rest of the path. None if it begins otherwise.
fn split_home(path: &str) -> Option<(&str, &str)> {
    let rest = path.strip_prefix('~')?;
    match rest.find('/') {
        Some(at) => Some(rest.split_at(at)),
        None => Some((rest, "")),
    }
}

// Returns the home folder of a user, or with an empty name that of the environment.
fn home_of<R: Files + Env + AllocGlobal>(
    rt: &R,
    user: &str,
) -> Result<Option<String>, RepositoryError> {
    if user.is_empty() {
        return variable(rt, "HOME");
    }
    match read_if_there(rt, USERS, SMALL_LIMIT)? {
        Some(bytes) => home_in(rt.alloc(), &bytes, user),
        None => Ok(None),
    }
}

// Returns the home folder of a user by the bytes of the file of users: lines of fields with colons between.
fn home_in(alloc: Global, bytes: &[u8], user: &str) -> Result<Option<String>, RepositoryError> {
    for line in bytes.split(|byte| *byte == b'\n') {
        let mut fields = line.split(|byte| *byte == b':');
        if fields.next() == Some(user.as_bytes()) {
            return match fields.nth(HOME_FIELD - 1) {
                Some(home) => Ok(Some(String::from_str(alloc, text_of(alloc, home)?)?)),
                None => Ok(None),
            };
        }
    }
    Ok(None)
}
