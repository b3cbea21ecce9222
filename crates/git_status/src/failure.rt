//! Why the command fails.

ghost use Rattle.std.specs.Prelude.{◌≡◌};
ghost use Rattle.git_status.specs.Failures.{failure_of_attributes, failure_of_folders, failure_of_head, failure_of_index, failure_of_status};
ghost use Rattle.git_status.specs.declared.failure.Failure.TheVariants.{Memory};

use crate::lines::Quoted;
use bstr::BStr;
use git_attributes::AttributeFault;
use git_index::IndexFileError;
use git_objects::ObjectFault;
use git_staged::TreeFault;
use git_untracked::FolderFault;
use status_call::index_as_worktree::Error;
use std::alloc::AllocError;
use std::fmt;
use text_output::OutputError;

/// Why the command fails over an index file and a worktree.
#[derive(Debug, Drop)]
pub enum Failure {
    /// The bytes aren't an index file.
    Index(IndexFileError),
    /// The status fails.
    Status(Error),
    /// The status ended early, before any entry that differs.
    Interrupted,
    /// The files of HEAD's commit can't be read.
    Head(TreeFault),
    /// The object of an attribute file that is only in the index can't be read.
    Attributes {
        /// The file's path.
        path: Vec<u8>,
        /// Why it isn't read.
        fault: ObjectFault,
    },
    /// A folder in which untracked files are searched for, or an ignore file of the index, can't be read.
    Untracked(FolderFault),
    /// The output takes no more.
    Output(OutputError),
    /// Memory ran out.
    Memory,
}

impl Failure {
    /// Returns the failure for bytes that aren't an index file.
    pub fn of_index(error: IndexFileError) -> Failure
        ensures { result ≡ failure_of_index error }
    {
        match error {
            IndexFileError::Memory => Failure::Memory,
            error => Failure::Index(error),
        }
    }

    /// Returns the failure for the files of HEAD's commit.
    pub fn of_head(fault: TreeFault) -> Failure
        ensures { result ≡ failure_of_head fault }
    {
        match fault {
            TreeFault::Memory => Failure::Memory,
            fault => Failure::Head(fault),
        }
    }

    /// Returns the failure for the search for untracked files.
    pub fn of_folders(fault: FolderFault) -> Failure
        ensures { result ≡ failure_of_folders fault }
    {
        match fault {
            FolderFault::Memory => Failure::Memory,
            fault => Failure::Untracked(fault),
        }
    }

    /// Returns the failure for an error of the status.
    pub fn of_status(error: Error) -> Failure
        ensures { result ≡ failure_of_status error }
    {
        match error {
            Error::Memory => Failure::Memory,
            error => Failure::Status(error),
        }
    }
}

impl fmt::Display for Failure {
    fn fmt<W: fmt::Write>(&self, f: &mut fmt::Formatter<W>) -> fmt::Result {
        match self {
            Failure::Index(
                IndexFileError::Required {
                    name: [b'l', b'i', b'n', b'k'],
                },
            ) => f.write_str("the index is split: run git update-index --no-split-index"),
            Failure::Index(IndexFileError::Required { name }) => {
                let name = BStr::new(name);
                write!(f, "the index has an extension that isn't known: {name:?}")
            }
            Failure::Index(error) => write!(f, "the index can't be read: {error}"),
            Failure::Status(Error::Io(fault)) => write!(f, "the worktree can't be read: {fault}"),
            Failure::Status(Error::SubmoduleStatus { rela_path, text }) => {
                let path = Quoted {
                    path: rela_path.as_bytes(),
                };
                write!(f, "can't read the submodule {path}: {text}")
            }
            Failure::Status(error) => write!(f, "{error}"),
            Failure::Interrupted => f.write_str("interrupted"),
            Failure::Head(fault) => write!(f, "can't read the files of HEAD: {fault}"),
            Failure::Attributes { path, fault }
            | Failure::Untracked(FolderFault::IgnoreFile { path, fault }) => {
                let path = Quoted { path };
                write!(f, "can't read {path} of the index: {fault}")
            }
            Failure::Untracked(FolderFault::At { path, fault }) => {
                let path = Quoted { path };
                write!(f, "can't list {path}: {fault}")
            }
            Failure::Untracked(fault) => write!(f, "can't list the worktree: {fault}"),
            Failure::Output(error) => write!(f, "{error}"),
            Failure::Memory => f.write_str("out of memory"),
        }
    }
}

impl From<AllocError> for Failure {
    ghost from_gives = { λ _ f. f ≡ Memory };

    fn from(_error: AllocError) -> Failure {
        Failure::Memory
    }
}

impl From<AttributeFault> for Failure {
    ghost from_gives = { λ fault f. f ≡ failure_of_attributes fault };

    fn from(fault: AttributeFault) -> Failure {
        match fault {
            AttributeFault::Object { path, fault } => Failure::Attributes { path, fault },
            AttributeFault::Memory => Failure::Memory,
        }
    }
}
