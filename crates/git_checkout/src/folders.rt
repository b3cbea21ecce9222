//! The folders of a worktree on disk, as a walk for untracked files asks for them.

ghost use Rattle.git_checkout.specs.Folders.{MayBe};

use crate::objects::LazyObjects;
use bitflags::Flags as _;
use bstr::BStr;
use git_objects::{ObjectFault, ObjectKind, ReadObject};
use git_repository::{IGNORE_LIMIT, Repository, is_repository};
use git_untracked::Folders;
use status_base::worktree::disk::fault_of;
use status_base::worktree::{Fault, NodeKind, Worktree};
use status_index::{Flags, State, read_all};
use std::alloc::{AllocError, Global};
use std::io::{self, Read as _};
use std::os::unix::fs::FileExt;
use std::rt::{Env, Files};

/// The name of ignore files.
const NAME: &[u8] = b".gitignore";

/// How many bytes of names are read at once.
const PART: usize = 4096;

/// The folders of a worktree.
#[derive(Drop)]
pub(crate) struct DiskFolders<'x, R, W> {
    pub(crate) rt: &'x R,
    pub(crate) repository: &'x Repository,
    pub(crate) worktree: &'x W,
    /// The worktree's folder. Empty for the working folder.
    pub(crate) top: &'x str,
}

impl<R: AllocGlobal + Env + Files, W: Worktree> Folders for DiskFolders<'_, R, W>
where
    R::File: FileExt,
{
    ghost may_be = { λ f path. MayBe (W.may_stat f.worktree.now path) };

    fn list(&self, folder: BStr<'_>) -> Result<Option<Vec<Vec<u8>>>, Fault> {
        let path = self.path_of(folder)?;
        let mut listing = match self.rt.open_dir(path.as_str()) {
            Ok(listing) => listing,
            Err(error) => return none_if_missing(fault_of(error.kind())),
        };
        let mut names = Vec::new(self.rt.alloc());
        // Each part has whole names, for which there has to be room.
        let mut part = Vec::new(self.rt.alloc());
        part.resize(PART, 0)?;
        for _ in 0..u64::MAX {
            match listing.read(&mut part) {
                Ok(0) => return Ok(Some(names)),
                Ok(len) => push_names(self.rt.alloc(), &part[..len], &mut names)?,
                Err(error) if error.kind() == io::ErrorKind::Interrupted => {}
                Err(error) => return none_if_missing(fault_of(error.kind())),
            }
        }
        Err(Fault::Memory)
    }

    fn kind(&self, path: BStr<'_>) -> Result<Option<NodeKind>, Fault> {
        match self.worktree.lstat(path) {
            Ok(node) => Ok(Some(node.kind)),
            Err(Fault::NotFound | Fault::NotADirectory) => Ok(None),
            // The system can't be asked: the kit's paths are text. Most such nodes are files.
            Err(Fault::IllformedUtf8) => Ok(Some(NodeKind::File)),
            Err(fault) => Err(fault),
        }
    }

    fn ignore_file(
        &self,
        index: &State,
        folder: BStr<'_>,
        is_there: bool,
    ) -> Result<Option<Vec<u8>>, ObjectFault> {
        let mut path = Vec::from_slice(self.rt.alloc(), folder.as_bytes())?;
        path.extend_from_slice(NAME)?;
        let path = BStr::new(path.as_slice());
        if is_there {
            match self.file_at(path)? {
                Found::Bytes(bytes) => return Ok(Some(bytes)),
                Found::Folder => return Ok(None),
                Found::Unread => {}
            }
        }
        match index.entries_at(path) {
            [entry, ..] if entry.flags.contains(Flags::SKIP_WORKTREE) => {
                let objects = LazyObjects {
                    rt: self.rt,
                    repository: self.repository,
                };
                match objects.read(entry.id) {
                    Ok(blob) if blob.kind == ObjectKind::Blob => Ok(Some(blob.bytes)),
                    Ok(_) | Err(ObjectFault::Missing { .. }) => Ok(None),
                    Err(fault) => Err(fault),
                }
            }
            _ => Ok(None),
        }
    }

    fn is_repository(&self, folder: BStr<'_>) -> Result<bool, Fault> {
        let path = self.path_of(folder)?;
        Ok(is_repository(self.rt, path.as_str())?)
    }
}

impl<R: AllocGlobal, W> DiskFolders<'_, R, W> {
    /// Returns the path of a folder as the system takes it. That of the working folder is `.`.
    fn path_of(&self, folder: BStr<'_>) -> Result<String, Fault> {
        let Ok(folder) = str::from_utf8(folder.as_bytes()) else {
            return Err(Fault::IllformedUtf8);
        };
        let mut path = String::from_str(self.rt.alloc(), self.top)?;
        if !path.is_empty() && !path.ends_with('/') {
            path.push('/')?;
        }
        path.push_str(folder)?;
        if path.is_empty() {
            path.push('.')?;
        }
        Ok(path)
    }
}

/// Returns that no folder is there, if a fault says so.
fn none_if_missing(fault: Fault) -> Result<Option<Vec<Vec<u8>>>, Fault> {
    match fault {
        Fault::NotFound | Fault::NotADirectory => Ok(None),
        fault => Err(fault),
    }
}

/// Adds names, each of which a zero byte ends.
fn push_names(alloc: Global, part: &[u8], names: &mut Vec<Vec<u8>>) -> Result<(), Fault> {
    for name in part.split(|byte| *byte == 0) {
        if !name.is_empty() {
            names.push(Vec::from_slice(alloc, name)?)?;
        }
    }
    Ok(())
}

/// The node at the path of an ignore file.
#[derive(Drop)]
enum Found {
    /// A file with these bytes.
    Bytes(Vec<u8>),
    /// A folder.
    Folder,
    /// A link, which isn't followed, or a file that can't be read.
    Unread,
}

impl<R: AllocGlobal, W: Worktree> DiskFolders<'_, R, W> {
    /// Returns the node at the path of an ignore file.
    ///
    /// # Errors
    /// Out of memory.
    fn file_at(&self, path: BStr<'_>) -> Result<Found, AllocError> {
        match self.worktree.lstat(path) {
            Ok(node) if node.kind == NodeKind::Directory => return Ok(Found::Folder),
            Ok(node) if node.kind == NodeKind::File && node.len < IGNORE_LIMIT as u64 => {}
            Err(Fault::Memory) => return Err(AllocError),
            _ => return Ok(Found::Unread),
        }
        let mut bytes = Vec::new(self.rt.alloc());
        let mut file = match self.worktree.open(path) {
            Ok(file) => file,
            Err(fault) => return unread(fault),
        };
        match read_all(&mut file, &mut bytes) {
            Ok(()) => Ok(Found::Bytes(bytes)),
            Err(fault) => unread(fault),
        }
    }
}

/// Returns that a file can't be read, unless memory ran out.
fn unread(fault: Fault) -> Result<Found, AllocError> {
    match fault {
        Fault::Memory => Err(AllocError),
        _ => Ok(Found::Unread),
    }
}
