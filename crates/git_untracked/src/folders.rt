//! The questions that a walk asks of a worktree.

use bstr::BStr;
use git_objects::ObjectFault;
use status_base::worktree::NodeKind;
use status_index::{Fault, State};
use std::alloc::{AllocError, Global};
use thiserror::Error;

/// The name of ignore files.
pub(crate) const IGNORE_FILE: &[u8] = b".gitignore";

/// The folders of a worktree, and what git asks of them to find untracked files. Paths are from the worktree's top, with `/`
/// between components. The path of the top is empty.
pub trait Folders {
    ghost use Rattle.std.specs.Prelude.{IfOk, List, Bool, Option, map, option_map, ℕ, ⊤};
    ghost use Rattle.bstr.specs.BStr.{bstr_bytes};
    ghost use Rattle.status_index.specs.declared.stat.NodeKind.{NodeKind as NodeType};

    /// Which names may be returned of a folder. None if there is no folder.
    ghost may_list: { Self → List ℕ → Option (List (List ℕ)) → Type 0 } = { λ _ _ _. ⊤ };

    /// Which type may be returned of the node at a path. None if nothing is there.
    ghost may_be: { Self → List ℕ → Option NodeType → Type 0 } = { λ _ _ _. ⊤ };

    /// Which bytes may be returned of the ignore file of a folder. None if it has none.
    ghost may_ignore: { Self → List ℕ → Option (List ℕ) → Type 0 } = { λ _ _ _. ⊤ };

    /// Whether it may be returned that a folder is the top of another repository.
    ghost may_nest: { Self → List ℕ → Bool → Type 0 } = { λ _ _ _. ⊤ };

    /// Returns the names of the nodes in a folder, in any order. None if there is no folder.
    ///
    /// # Errors
    /// It can't be listed, or out of memory.
    fn list(&self, folder: BStr<'_>) -> Result<Option<Vec<Vec<u8>>>, Fault>
        ensures { IfOk result (λ names. may_list self.now (bstr_bytes folder.entry) (option_map (λ v. map (λ name. name.items) v.items) names)) };

    /// Returns the type of the node at a path. A link isn't followed. None if nothing is there.
    ///
    /// # Errors
    /// The system refuses to say, or out of memory.
    fn kind(&self, path: BStr<'_>) -> Result<Option<NodeKind>, Fault>
        ensures { IfOk result (λ kind. may_be self.now (bstr_bytes path.entry) kind) };

    /// Returns the bytes of a folder's ignore file. None if it has none. `is_there` is whether a node of that name is in the folder,
    /// and the index may have a file in place of one that isn't.
    ///
    /// # Errors
    /// The object of the index's file can't be read, or out of memory.
    fn ignore_file(
        &self,
        index: &State,
        folder: BStr<'_>,
        is_there: bool,
    ) -> Result<Option<Vec<u8>>, ObjectFault>
        ensures { IfOk result (λ bytes. may_ignore self.now (bstr_bytes folder.entry) (option_map (λ v. v.items) bytes)) };

    /// Returns whether a folder is the top of another repository.
    ///
    /// # Errors
    /// The system refuses to say, or out of memory.
    fn is_repository(&self, folder: BStr<'_>) -> Result<bool, Fault>
        ensures { IfOk result (may_nest self.now (bstr_bytes folder.entry)) };
}

/// Why untracked files can't be found.
#[derive(Debug, Drop, Error)]
pub enum FolderFault {
    /// The system refuses a question about a path.
    #[error("{fault}")]
    At {
        /// The path.
        path: Vec<u8>,
        /// The fault.
        fault: Fault,
    },
    /// The object of an ignore file that is only in the index can't be read.
    #[error("{fault}")]
    IgnoreFile {
        /// The file's path.
        path: Vec<u8>,
        /// Why it isn't read.
        fault: ObjectFault,
    },
    /// More than 1,024 folders are within each other.
    #[error("more than 1,024 folders are within each other")]
    TooDeep,
    /// An allocation failed.
    #[error("Out of memory")]
    Memory,
}

impl From<AllocError> for FolderFault {
    fn from(_error: AllocError) -> FolderFault {
        FolderFault::Memory
    }
}

impl FolderFault {
    /// Returns the fault of a question about a path.
    pub(crate) fn at(alloc: Global, path: &[u8], fault: Fault) -> FolderFault {
        match (fault, Vec::from_slice(alloc, path)) {
            (Fault::Memory, _) | (_, Err(_)) => FolderFault::Memory,
            (fault, Ok(path)) => FolderFault::At { path, fault },
        }
    }

    /// Returns the fault of a folder's ignore file.
    pub(crate) fn of_ignore_file(alloc: Global, folder: &[u8], fault: ObjectFault) -> FolderFault {
        match (fault, ignore_path(alloc, folder)) {
            (ObjectFault::Memory, _) | (_, Err(_)) => FolderFault::Memory,
            (fault, Ok(path)) => FolderFault::IgnoreFile { path, fault },
        }
    }
}

/// Returns the path of a folder's ignore file.
///
/// # Errors
/// Out of memory.
fn ignore_path(alloc: Global, folder: &[u8]) -> Result<Vec<u8>, AllocError> {
    let mut path = Vec::from_slice(alloc, folder)?;
    path.extend_from_slice(IGNORE_FILE)?;
    Ok(path)
}
