//! The walk over a folder of the disk.

ghost use Rattle.std.specs.Prelude.{None};

mod listing;
mod pending;

use crate::disk::listing::{fault_at, found, list};
use crate::disk::pending::Pending;
use crate::untracked::{is_submodule, is_tracked};
use crate::{Action, Delegate, DirEntry, Kind, Outcome, Status, Walk, WalkError};
use bstr::{BStr, BString};
use status_base::worktree::{Fault, Folder, Pathspec, Worktree};
use status_index::State;
use std::alloc::AllocError;
use std::path::Path;
use std::rt::Files;

// Git keeps its own files under this name.
const GIT_NAME: &str = ".git";

/// Finds the nodes in a folder of the disk that aren't tracked: the files, links and other nodes that a pathspec
/// includes, whose paths no entry has, and which are below no submodule's entry, in ascending order of their paths.
///
/// A node named `.git` is skipped with all below it, wherever it is: git keeps its own files there, and takes no such
/// path into an index. Another repository in the folder is walked like any directory, unless it is a submodule. A
/// symbolic link is passed to the delegate, and isn't followed.
///
/// A node that is gone before its `lstat` is skipped, and so is a directory that is gone before it is listed, or a
/// folder that doesn't exist. The walk ends with a fault if a directory can't be listed, or if the `lstat` of a node
/// fails. The system can't return a name that isn't UTF-8: such a name ends the walk with `IllformedUtf8` at its
/// directory.
///
/// The folder may change during the walk, so the walk isn't modelled.
#[derive(Drop)]
pub struct DiskWalk<R> {
    folder: Folder<R>,
}

impl<R: Files + AllocGlobal + Clone + Drop> DiskWalk<R> {
    /// Returns a walk over the folder at a path. An empty path is the working folder. It has to be the folder of the
    /// worktree that is walked: directories are listed here, and that worktree's `lstat` is called for each name.
    ///
    /// # Errors
    /// If an allocation fails.
    pub fn new(rt: R, root: Path<'_>) -> Result<DiskWalk<R>, AllocError> {
        Ok(DiskWalk {
            folder: Folder::new(rt, root)?,
        })
    }

    /// Adds the nodes in a directory to those that are still to be visited.
    fn enter<W: Worktree>(
        &self,
        worktree: &W,
        directory: &str,
        pending: &mut Pending,
    ) -> Result<(), WalkError> {
        let alloc = self.folder.rt.alloc();
        let listing = match list(&self.folder, directory) {
            Ok(listing) => listing,
            Err(Fault::NotFound) => return Ok(()),
            Err(fault) => return Err(fault_at(alloc, name_of(directory), fault)),
        };
        for listed in listing {
            let entry = match found(listed) {
                Ok(entry) => entry,
                Err(fault) => return Err(fault_at(alloc, name_of(directory), fault)),
            };
            if entry.file_name() != GIT_NAME {
                pending.add(worktree, directory, entry.file_name())?;
            }
        }
        Ok(())
    }
}

impl<W: Worktree, R: Files + AllocGlobal + Clone + Drop> Walk<W> for DiskWalk<R> {
    ghost walking = { λ _ _ _ _ _. None };

    fn walk<P: Pathspec, D: Delegate>(
        &mut self,
        worktree: &W,
        index: &State,
        pathspec: &P,
        delegate: &mut D,
    ) -> Result<Outcome, WalkError> {
        let mut pending = Pending::root(self.folder.rt.alloc())?;
        let mut emitted = 0;
        for turn in 0..u64::MAX {
            let Some((path, kind)) = pending.pop() else {
                return Ok(Outcome {
                    emitted,
                    cancelled: false,
                });
            };
            if kind == Kind::Directory {
                if !is_submodule(index, BStr::new(name_of(path.as_str()).as_bytes())) {
                    self.enter(worktree, path.as_str(), &mut pending)?;
                }
            } else if is_included(index, pathspec, path.as_str()) {
                match delegate.emit(untracked(path, kind), None)? {
                    Action::Continue => emitted += 1,
                    Action::Cancel => {
                        return Ok(Outcome {
                            emitted: emitted + 1,
                            cancelled: true,
                        });
                    }
                }
            }
        }
        // There are more nodes than memory has room for.
        Err(WalkError::Memory)
    }
}

/// Returns the path of a directory as in an index: without the slash at its end.
fn name_of(directory: &str) -> &str {
    directory.strip_suffix('/').unwrap_or(directory)
}

/// Returns whether a pathspec includes a path that no entry has. Unlike `untracked::is_untracked` it searches for no
/// submodule above the path: the walk enters none.
fn is_included<P: Pathspec>(index: &State, pathspec: &P, path: &str) -> bool {
    let path = BStr::new(path.as_bytes());
    pathspec.includes(path, false) && !is_tracked(index, path)
}

/// Returns the entry of an untracked node.
fn untracked(path: String, kind: Kind) -> DirEntry {
    DirEntry {
        rela_path: BString::from(path),
        status: Status::Untracked,
        disk_kind: Some(kind),
    }
}
