//! The directories of a folder of the disk, and the faults of listing them.

use crate::WalkError;
use bstr::{BStr, BString};
use status_base::worktree::disk::fault_of;
use status_base::worktree::{Fault, Folder, PathBuffer};
use std::alloc::Global;
use std::fs::{DirEntry, ReadDir};
use std::rt::Files;
use std::{fs, io};

/// Lists a directory, by its path from the folder. The folder's own path is empty.
///
/// # Errors
/// The system's fault, or that memory ran out.
pub(crate) fn list<R: Files + AllocGlobal + Clone + Drop>(
    folder: &Folder<R>,
    directory: &str,
) -> Result<ReadDir<R>, Fault> {
    let mut buffer = PathBuffer::new(folder.rt.alloc());
    let path = match folder.path_of(BStr::new(directory.as_bytes()), &mut buffer)? {
        "" => ".",
        path => path,
    };
    fs::read_dir(&folder.rt, path).map_err(|error| fault_of(error.kind()))
}

/// Returns the entry of a listing, or its fault. A name that isn't UTF-8 is the fault `IllformedUtf8`: the system can't
/// return it.
pub(crate) fn found<R: Files>(listed: io::Result<DirEntry<R>>) -> Result<DirEntry<R>, Fault> {
    match listed {
        Ok(entry) => Ok(entry),
        Err(error) if error.kind() == io::ErrorKind::InvalidFilename => Err(Fault::IllformedUtf8),
        Err(error) => Err(fault_of(error.kind())),
    }
}

/// Returns the error for a fault at a path. Out of memory is `WalkError::Memory`, also if the path can't be copied.
pub(crate) fn fault_at(alloc: Global, path: &str, fault: Fault) -> WalkError {
    match BString::from_slice(alloc, path) {
        Ok(rela_path) if fault != Fault::Memory => WalkError::Fault { rela_path, fault },
        _ => WalkError::Memory,
    }
}
