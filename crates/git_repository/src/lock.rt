//! Git's lock of the index file: the time at which it is taken, and the file that is replaced under it.

use crate::error::RepositoryError;
use crate::files::{canonical, is_missing, unreadable};
use crate::regular::{INDEX_LIMIT, Unread, read_regular};
use file_lock::{Replacement, create_lock, replace_file};
use std::alloc::{AllocError, Global};
use std::fs::{self, Metadata};
use std::io;
use std::os::unix::fs::MetadataExt as _;
use std::rt::Files;
use std::time::SystemTime;

// The mode of a new lock: only this user, who may read the index, opens it. It gets the permissions of the index later.
const LOCK_MODE: u32 = 0o600;

/// Returns the time of a lock that is created now and removed again, by the clock of the file system that has the index. So
/// no lock is left if the command is ended while it compares.
///
/// # Errors
/// The lock is there already, or can't be created or removed; its time isn't known; the index isn't there any more; or out of
/// memory.
pub fn time_of_lock<R: Files + AllocGlobal>(
    rt: &R,
    index: &str,
) -> Result<SystemTime, RepositoryError> {
    let path = target_of(rt, index)?;
    let lock = lock_of(rt.alloc(), path.as_str())?;
    drop(new_lock(rt, lock.as_str())?);
    let time = time_of(rt, lock.as_str());
    let ended = fs::remove_file(rt, lock.as_str());
    match time.and_then(|time| ended.map(|_| time)) {
        Ok(time) => Ok(time),
        Err(error) => Err(unwritable(rt.alloc(), lock.as_str(), error.kind())),
    }
}

// Returns the path of the lock of a file.
fn lock_of(alloc: Global, path: &str) -> Result<String, AllocError> {
    format!(in alloc; "{path}.lock")
}

// Returns the time of the last change of a file.
fn time_of<R: Files>(rt: &R, path: &str) -> io::Result<SystemTime> {
    fs::symlink_metadata(rt, path)?.modified()
}

/// Replaces an index file whole if it still has the bytes `old`, or leaves it unchanged.
///
/// The bytes `new` go to git's lock, a new file next to the index with its name and `.lock`, which then replaces the
/// index. It has the permissions of the index, and its owner and group if the system allows that. No other process that takes
/// the lock writes the index meanwhile. If a symbolic link is at the index, the file that it leads to is replaced, and the
/// lock is next to that file.
///
/// The new file counts as written at `time`. An entry is racy if its file isn't older. So the time has to be before the
/// moment at which any entry was compared.
///
/// After an error the lock is gone, unless another process made it or the system refuses to remove it.
///
/// # Errors
/// The lock is there already, or can't be created or written; the index isn't there any more or has other bytes than
/// `old`; or out of memory.
pub fn replace_index<R: Files + AllocGlobal>(
    rt: &R,
    index: &str,
    old: &[u8],
    new: &[u8],
    time: SystemTime,
) -> Result<(), RepositoryError> {
    let path = target_of(rt, index)?;
    let lock = lock_of(rt.alloc(), path.as_str())?;
    let file = new_lock(rt, lock.as_str())?;
    match metadata_of_unchanged(rt, path.as_str(), old) {
        Ok(found) => {
            let replacement = replacement_of(new, &found, time);
            replace_locked(rt, path.as_str(), lock.as_str(), file, replacement)
        }
        Err(error) => {
            give_up(rt, lock.as_str());
            Err(error)
        }
    }
}

// Removes a lock. If the system refuses it stays, and the error of the command says more than that of the removal.
fn give_up<R: Files>(rt: &R, lock: &str) {
    let _ = fs::remove_file(rt, lock);
}

// Returns what a file with this metadata is replaced by.
fn replacement_of<'a>(bytes: &'a [u8], found: &Metadata, time: SystemTime) -> Replacement<'a> {
    Replacement {
        bytes,
        permissions: Some(found.mode()),
        owner: Some((found.uid(), found.gid())),
        modified: Some(time),
    }
}

// Replaces a file under its lock.
fn replace_locked<R: Files + AllocGlobal>(
    rt: &R,
    path: &str,
    lock: &str,
    file: R::File,
    replacement: Replacement<'_>,
) -> Result<(), RepositoryError> {
    match replace_file(rt, path, lock, file, replacement) {
        Ok(()) => Ok(()),
        Err(error) => Err(unwritable(rt.alloc(), lock, error.kind())),
    }
}

// Returns the path of the file that is to be replaced: that of the index, or of the file to which a link there leads.
fn target_of<R: Files + AllocGlobal>(rt: &R, index: &str) -> Result<String, RepositoryError> {
    match fs::symlink_metadata(rt, index) {
        Ok(found) if found.is_symlink() => canonical(rt, index),
        Ok(_) => Ok(String::from_str(rt.alloc(), index)?),
        Err(error) if is_missing(error.kind()) => Err(RepositoryError::IndexChanged),
        Err(error) => Err(unreadable(rt.alloc(), index, Unread::System(error.kind()))),
    }
}

// Creates a lock that isn't there.
fn new_lock<R: Files + AllocGlobal>(rt: &R, lock: &str) -> Result<R::File, RepositoryError> {
    match create_lock(rt, lock, LOCK_MODE) {
        Ok(file) => Ok(file),
        Err(error) => Err(not_created(rt.alloc(), lock, error.kind())),
    }
}

// Returns the error of a lock that can't be created.
fn not_created(alloc: Global, lock: &str, kind: io::ErrorKind) -> RepositoryError {
    match String::from_str(alloc, lock) {
        Ok(_) if kind == io::ErrorKind::OutOfMemory => RepositoryError::Memory(AllocError),
        Ok(path) if kind == io::ErrorKind::AlreadyExists => RepositoryError::Locked { path },
        Ok(path) => RepositoryError::NotLocked { path, error: kind },
        Err(_) => RepositoryError::Memory(AllocError),
    }
}

// Returns the metadata of the index if it still has the old bytes.
fn metadata_of_unchanged<R: Files + AllocGlobal>(
    rt: &R,
    path: &str,
    old: &[u8],
) -> Result<Metadata, RepositoryError> {
    match read_regular(rt, path, INDEX_LIMIT) {
        Ok(found) if found.bytes.as_slice() == old => Ok(found.metadata),
        Err(why @ Unread::System(kind)) if !is_missing(kind) => {
            Err(unreadable(rt.alloc(), path, why))
        }
        _ => Err(RepositoryError::IndexChanged),
    }
}

// Returns the error of a lock that can't be written.
fn unwritable(alloc: Global, lock: &str, kind: io::ErrorKind) -> RepositoryError {
    match String::from_str(alloc, lock) {
        Ok(_) if kind == io::ErrorKind::OutOfMemory => RepositoryError::Memory(AllocError),
        Ok(path) => RepositoryError::Unwritable { path, error: kind },
        Err(_) => RepositoryError::Memory(AllocError),
    }
}
