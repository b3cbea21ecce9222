//! A worktree in a folder of the disk.

use crate::worktree::Worktree;
use crate::worktree::folder::{Folder, PathBuffer};
use crate::worktree::stat_fields::StatFields;
use bstr::BStr;
use status_index::{Fault, Metadata, ReadBytes};
use std::alloc::AllocError;
use std::path::Path;
use std::rt::Files;
use std::{fs, io};

/// A folder of the disk. It isn't modelled: its nodes may change between any two calls.
///
/// Paths have to be UTF-8.
#[derive(Drop)]
pub struct DiskWorktree<R> {
    folder: Folder<R>,
    fields: StatFields,
}

impl<R: Files + AllocGlobal + Drop> DiskWorktree<R> {
    /// Returns the folder at a path. An empty path is the working folder. The folder needn't be there. Of a node's stat the
    /// portable fields are reported.
    ///
    /// # Errors
    /// Out of memory.
    pub fn new(rt: R, root: Path<'_>) -> Result<DiskWorktree<R>, AllocError> {
        DiskWorktree::with_fields(rt, root, StatFields::Portable)
    }

    /// Returns the folder at a path, which reports these fields of a node's stat. Otherwise it is as that of `new`.
    ///
    /// # Errors
    /// Out of memory.
    pub fn with_fields(
        rt: R,
        root: Path<'_>,
        fields: StatFields,
    ) -> Result<DiskWorktree<R>, AllocError> {
        Ok(DiskWorktree {
            folder: Folder::new(rt, root)?,
            fields,
        })
    }

    /// Returns a buffer for the path of one call.
    fn buffer(&self) -> PathBuffer {
        PathBuffer::new(self.folder.rt.alloc())
    }
}

/// A file of a folder. Each read is one system call, for at most as many bytes as the caller's buffer has.
#[derive(Drop)]
pub struct DiskFile<F> {
    file: F,
}

impl<F: io::Read + Drop> ReadBytes for DiskFile<F> {
    ghost give_may_fail = { λ _. tt };

    fn read_bytes(&mut self, buffer: &mut [u8]) -> Result<usize, Fault> {
        match self.file.read(buffer) {
            Ok(count) => Ok(count),
            Err(error) => Err(fault_of(error.kind())),
        }
    }
}

impl<R: Files + AllocGlobal + Drop> Worktree for DiskWorktree<R> {
    type File = DiskFile<R::File>;

    ghost stat_may_fail = { λ _ _. tt };

    ghost open_may_fail = { λ _ _. tt };

    ghost link_may_fail = { λ _ _. tt };

    fn lstat(&self, path: BStr<'_>) -> Result<Metadata, Fault> {
        let mut buffer = self.buffer();
        let path = self.folder.path_of(path, &mut buffer)?;
        match self.folder.rt.symlink_metadata(path) {
            Ok(found) => Ok(self.fields.metadata_of(&found)),
            Err(error) => Err(fault_of(error.kind())),
        }
    }

    fn open(&self, path: BStr<'_>) -> Result<DiskFile<R::File>, Fault> {
        let mut buffer = self.buffer();
        let path = self.folder.path_of(path, &mut buffer)?;
        match fs::open(&self.folder.rt, path) {
            Ok(file) => Ok(DiskFile { file }),
            Err(error) => Err(fault_of(error.kind())),
        }
    }

    fn read_link(&self, path: BStr<'_>, target: &mut Vec<u8>) -> Result<(), Fault> {
        target.clear();
        let mut buffer = self.buffer();
        let path = self.folder.path_of(path, &mut buffer)?;
        match fs::read_link(&self.folder.rt, path) {
            Ok(found) => Ok(target.extend_from_slice(found.as_path().as_str().as_bytes())?),
            Err(error) => Err(fault_of(error.kind())),
        }
    }
}

/// Returns the fault that represents an error of the system.
pub fn fault_of(error: io::ErrorKind) -> Fault {
    match error {
        io::ErrorKind::NotFound => Fault::NotFound,
        io::ErrorKind::NotADirectory => Fault::NotADirectory,
        io::ErrorKind::PermissionDenied => Fault::PermissionDenied,
        io::ErrorKind::Interrupted => Fault::Interrupted,
        io::ErrorKind::UnexpectedEof => Fault::UnexpectedEnd,
        io::ErrorKind::OutOfMemory => Fault::Memory,
        _ => Fault::Other(0),
    }
}
