//! Why an index makes no tree, and why a tree isn't read.

use git_objects::ObjectFault;
use status_index::ObjectId;
use std::alloc::AllocError;
use thiserror::Error;

/// Why an index makes no tree.
#[derive(Clone, Copy, Debug, PartialEq, Eq, Error)]
pub enum TreeError {
    /// An entry is a side of a conflict.
    #[error("the index has a conflict")]
    Conflict,
    /// An allocation failed.
    #[error("Out of memory")]
    Memory,
}

impl From<AllocError> for TreeError {
    ghost use Rattle.std.specs.Prelude.{◌≡◌};
    ghost use Rattle.git_staged.specs.declared.error.TreeError.TheVariants.{Memory};

    ghost from_gives = { λ _ e. e ≡ Memory };

    fn from(_error: AllocError) -> TreeError {
        TreeError::Memory
    }
}

/// Why a tree isn't read.
#[derive(Clone, Copy, Debug, PartialEq, Eq, Error)]
pub enum TreeFault {
    /// An object isn't read, or a tree's bytes are damaged.
    #[error("{fault}")]
    Object {
        /// The id of the object.
        id: ObjectId,
        /// Why it isn't read.
        fault: ObjectFault,
    },
    /// The object of a folder isn't a tree.
    #[error("the object of a folder isn't a tree")]
    NoTree {
        /// The id of the object.
        id: ObjectId,
    },
    /// The items of a tree aren't in order.
    #[error("the items of a tree aren't in order")]
    NotAscending,
    /// Files of the index were taken for those of a folder, and their ids are of another kind than those of the tree.
    #[error("the ids of the index are of another kind than those of the tree")]
    MixedHash,
    /// The tree has more than 8,388,608 files and folders.
    #[error("the tree has more than 8,388,608 files and folders")]
    ManyItems,
    /// More than 2,048 folders are within each other.
    #[error("more than 2,048 folders are within each other")]
    TooDeep,
    /// An allocation failed.
    #[error("Out of memory")]
    Memory,
}

impl From<AllocError> for TreeFault {
    fn from(_error: AllocError) -> TreeFault {
        TreeFault::Memory
    }
}
