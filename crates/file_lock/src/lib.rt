//! A file that is replaced whole or not at all, under a lock as git has it.
//!
//! The lock is a new file next to the file, with its name and `.lock`. It gets the new content, and then replaces the file.
#![tactic(auto)]

use std::fs::{self, FileTimes, OpenFile, OpenOptions, Permissions};
use std::io::{self, Write};
use std::os::unix::fs::{OpenOptionsExt as _, PermissionsExt as _, chown};
use std::rt::Files;
use std::time::SystemTime;

/// The bits of a mode that say who may read, write and run a file.
pub const PERMISSION_BITS: u32 = 0o777;

/// The new content of a file, and how it is stored.
#[derive(Clone, Copy)]
pub struct Replacement<'b> {
    /// The content.
    pub bytes: &'b [u8],
    /// The permission bits, whatever the umask. If there are none, those with which the lock was created stay.
    pub permissions: Option<u32>,
    /// The user and the group that own the file, if the system allows that. Only root may give a file away.
    pub owner: Option<(u32, u32)>,
    /// The time at which the content counts as changed.
    pub modified: Option<SystemTime>,
}

/// Creates the lock at a path, with this mode narrowed by the umask.
///
/// # Errors
/// `AlreadyExists` if something is there already, or the error of the system.
pub fn create_lock<R: Files>(rt: &R, lock: &str, mode: u32) -> io::Result<R::File> {
    let mut options = OpenOptions::new();
    options.write(true).create_new(true).mode(mode);
    options.open(rt, lock)
}

/// Writes the lock, and renames it over the file at `path`. After an error the file is unchanged, and the lock is gone, unless
/// the system refuses to remove it.
///
/// # Errors
/// The error of the system, or `Unsupported` if it keeps a later time than the one that was set.
pub fn replace_file<R: Files>(
    rt: &R,
    path: &str,
    lock: &str,
    file: R::File,
    new: Replacement<'_>,
) -> io::Result<()>
where
    R::File: Drop,
{
    match fill(rt, lock, file, new).and_then(|()| fs::rename(rt, lock, path)) {
        Ok(()) => Ok(()),
        Err(error) => {
            // If the lock can't be removed it stays, and the error that is returned says more.
            let _ = fs::remove_file(rt, lock);
            Err(error)
        }
    }
}

/// Writes all of a lock, with its permissions, its time and its owner.
fn fill<R: Files>(rt: &R, lock: &str, mut file: R::File, new: Replacement<'_>) -> io::Result<()>
where
    R::File: Drop,
{
    if let Some(mode) = new.permissions {
        file.set_permissions(Permissions::from_mode(mode & PERMISSION_BITS))?;
    }
    file.write_all(new.bytes)?;
    if let Some(time) = new.modified {
        file.set_times(FileTimes::new().set_modified(time))?;
        // A later time would hide changes of files.
        if file.metadata()?.modified()? > time {
            return Err(io::ErrorKind::Unsupported.into());
        }
    }
    file.sync_all()?;
    if let Some((user, group)) = new.owner {
        // Mostly they are the same already. As with git, the file is the process's own otherwise.
        let _ = chown(rt, lock, Some(user), Some(group));
    }
    Ok(())
}
