//! Writing a file whole or not at all.

use crate::failure::Failure;
use file_lock::{PERMISSION_BITS, Replacement, create_lock, replace_file};
use std::fs::{self, Metadata};
use std::io;
use std::os::unix::fs::MetadataExt as _;
use std::rt::Files;

/// The mode that is asked for a file that replaces none. The process's umask narrows it.
const NEW_MODE: u32 = 0o666;

/// The file that is to be written.
#[derive(Drop)]
struct Target {
    /// Its path. No symbolic link is there.
    path: String,
    /// The permission bits of the file that is there. None if there is none.
    mode: Option<u32>,
}

/// Writes a file whole, or leaves it unchanged: the bytes go to a new file next to it, with its name and `.lock`, which then
/// replaces it.
///
/// The new file has the permissions of the one that it replaces. If `name` is a symbolic link, the file that it leads to
/// is replaced. A node that is no regular file is refused, and so is a link that leads nowhere. If the file with `.lock`
/// is there already, nothing is written either.
///
/// # Errors
/// `Failure::Memory` if memory runs out, and `Failure::Unwritable` for everything else.
pub fn write_whole<R: AllocGlobal + Files>(
    rt: &R,
    name: &str,
    bytes: &[u8],
) -> Result<(), Failure> {
    let Target { path, mode } = target_of(rt, name)?;
    let lock = format!(in rt.alloc(); "{path}.lock")?;
    // Nobody who may not open the file that is replaced may open the lock.
    let file = create_lock(rt, lock.as_str(), mode.unwrap_or(NEW_MODE)).map_err(
        Failure::of_writing,
    )?;
    let new = Replacement {
        bytes,
        permissions: mode,
        owner: None,
        modified: None,
    };
    replace_file(rt, path.as_str(), lock.as_str(), file, new).map_err(Failure::of_writing)
}

/// Returns the file that is to be written under this name.
fn target_of<R: AllocGlobal + Files>(rt: &R, name: &str) -> Result<Target, Failure> {
    match fs::symlink_metadata(rt, name) {
        Ok(found) if found.is_symlink() => target_of_link(rt, name),
        Ok(found) => Ok(Target {
            mode: Some(mode_of_file(&found)?),
            path: String::from_str(rt.alloc(), name)?,
        }),
        Err(error) if error.kind() == io::ErrorKind::NotFound => Ok(Target {
            mode: None,
            path: String::from_str(rt.alloc(), name)?,
        }),
        Err(error) => Err(Failure::of_writing(error)),
    }
}

/// Returns the file that a symbolic link leads to.
fn target_of_link<R: AllocGlobal + Files>(rt: &R, name: &str) -> Result<Target, Failure> {
    let found = fs::metadata(rt, name).map_err(Failure::of_writing)?;
    let path = fs::canonicalize(rt, name).map_err(Failure::of_writing)?;
    Ok(Target {
        mode: Some(mode_of_file(&found)?),
        path: path.into_string(),
    })
}

/// Returns the permission bits of a regular file.
fn mode_of_file(found: &Metadata) -> Result<u32, Failure> {
    if !found.is_file() {
        return Err(Failure::Unwritable);
    }
    Ok(found.mode() & PERMISSION_BITS)
}
