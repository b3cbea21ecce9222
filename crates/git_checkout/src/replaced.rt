//! Whether git reads other objects than those of a repository's own folder.

use crate::refused::Refused;
use git_repository::regular::PACKED_LIMIT;
use git_repository::{Repository, RepositoryError, Unread, read_regular};
use std::alloc::{AllocError, Global};
use std::env::{self, VarError};
use std::fs;
use std::io::{self, Read as _};
use std::rt::{Env, Files};

/// The variables that name other folders of objects.
const OTHER_FOLDERS: [&str; 3] = [
    "GIT_OBJECT_DIRECTORY",
    "GIT_ALTERNATE_OBJECT_DIRECTORIES",
    "GIT_COMMON_DIR",
];

/// How many bytes of names are read at once, and how often at most.
const NAMES_PART: usize = 4096;

const NAMES_PARTS: u32 = 1 << 16;

/// Checks that git reads the objects of the repository's own folder, and none in place of another.
///
/// # Errors
/// The environment names another folder, the repository has a replaced object, a reference can't be read, or out of memory.
pub(crate) fn check_objects<R: AllocGlobal + Env + Files>(
    rt: &R,
    repository: &Repository,
) -> Result<(), Refused> {
    for name in OTHER_FOLDERS {
        if is_named(rt, name)? {
            return Err(Refused::Objects {
                reason: "the environment names another folder of objects",
            });
        }
    }
    let is_packed = has_packed_replaced(rt, repository)?;
    if is_named(rt, "GIT_NO_REPLACE_OBJECTS")? {
        return Ok(());
    }
    if is_named(rt, "GIT_REPLACE_REF_BASE")? {
        return Err(Refused::Objects {
            reason: "the environment names other references of replaced objects",
        });
    }
    if is_packed || has_loose_replaced(rt, repository)? {
        return Err(Refused::Objects {
            reason: "the repository replaces objects (git replace)",
        });
    }
    Ok(())
}

/// Returns whether the environment has a variable of this name.
fn is_named<R: AllocGlobal + Env>(rt: &R, name: &str) -> Result<bool, AllocError> {
    match env::var(rt, name) {
        Ok(_) | Err(VarError::NotUnicode) => Ok(true),
        Err(VarError::NotPresent) => Ok(false),
        Err(VarError::OutOfMemory) => Err(AllocError),
    }
}

/// Returns whether a repository has a loose reference `refs/replace/ID`.
fn has_loose_replaced<R: AllocGlobal + Files>(
    rt: &R,
    repository: &Repository,
) -> Result<bool, Refused> {
    let common_dir = repository.common_dir.as_str();
    let folder = format!(in rt.alloc(); "{common_dir}/refs/replace/").map_err(|_| AllocError)?;
    match has_id(rt, folder.as_str()) {
        Ok(found) => Ok(found),
        Err(error) => Err(unreadable(folder, Unread::System(error.kind()))),
    }
}

/// Returns whether a repository has a packed one.
fn has_packed_replaced<R: AllocGlobal + Files>(
    rt: &R,
    repository: &Repository,
) -> Result<bool, Refused> {
    let common_dir = repository.common_dir.as_str();
    let path = format!(in rt.alloc(); "{common_dir}/packed-refs").map_err(|_| AllocError)?;
    match read_regular(rt, path.as_str(), PACKED_LIMIT) {
        Ok(file) => has_replaced_line(&file.bytes),
        Err(Unread::System(io::ErrorKind::NotFound)) => Ok(false),
        Err(why) => Err(unreadable(path, why)),
    }
}

/// Returns whether packed references have one of a replaced object.
///
/// # Errors
/// A line isn't one of packed references, as for git.
fn has_replaced_line(bytes: &[u8]) -> Result<bool, Refused> {
    let lines = match bytes {
        [] => return Ok(false),
        [lines @ .., b'\n'] => lines,
        _ => return Err(no_line()),
    };
    let mut found = false;
    for line in lines.split(|byte| *byte == b'\n') {
        if !is_packed_line(line) {
            return Err(no_line());
        }
        found = found || names_replaced(line);
    }
    Ok(found)
}

/// Returns the refusal of packed references with a line that isn't one.
fn no_line() -> Refused {
    Refused::Objects {
        reason: "packed-refs has a line that isn't one of a reference",
    }
}

/// Returns whether a line is a header, of a reference, or of what its tag leads to.
fn is_packed_line(line: &[u8]) -> bool {
    match line {
        [b'#', ..] => true,
        [b'^', id @ ..] => is_id(id),
        _ => line.split(|byte| *byte == b' ').next().is_some_and(is_id),
    }
}

/// Returns the refusal of a path that can't be read.
fn unreadable(path: String, why: Unread) -> Refused {
    match why {
        Unread::System(io::ErrorKind::OutOfMemory) => Refused::Memory,
        why => Refused::Repository(RepositoryError::Unreadable { path, why }),
    }
}

/// Returns whether a folder, whose path a slash ends, has a reference by an id, or a folder that may have one. It has none if
/// it isn't there.
fn has_id<R: AllocGlobal + Files>(rt: &R, path: &str) -> io::Result<bool> {
    let mut folder = match rt.open_dir(path) {
        Ok(folder) => folder,
        Err(error) if error.kind() == io::ErrorKind::NotFound => return Ok(false),
        Err(error) => return Err(error),
    };
    let mut part = [0u8; NAMES_PART];
    for _ in 0..NAMES_PARTS {
        let len = folder.read(&mut part)?;
        if len == 0 {
            return Ok(false);
        }
        // Each part has whole names, with a zero byte after each.
        for name in part[..len].split(|byte| *byte == 0) {
            if is_id(name) || (!matches!(name, b"" | b"." | b"..") && is_folder(rt, path, name)?) {
                return Ok(true);
            }
        }
    }
    Ok(true)
}

/// Returns whether a name within a folder is that of another folder, or may be.
fn is_folder<R: AllocGlobal + Files>(rt: &R, path: &str, name: &[u8]) -> io::Result<bool> {
    let Ok(name) = str::from_utf8(name) else {
        return Ok(true);
    };
    let path = format!(in rt.alloc(); "{path}{name}").map_err(|_| AllocError)?;
    Ok(fs::metadata(rt, path.as_str())?.is_dir())
}

/// Returns whether a name has the digits of an id.
fn is_id(name: &[u8]) -> bool {
    matches!(name.len(), 40 | 64) && name.iter().all(|byte| byte.is_ascii_hexdigit())
}

/// Returns whether a line of packed references is of a replaced object.
fn names_replaced(line: &[u8]) -> bool {
    match line.split(|byte| *byte == b' ').nth(1) {
        Some(name) => name.starts_with(b"refs/replace/"),
        None => false,
    }
}
