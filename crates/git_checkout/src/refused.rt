//! Why a checkout isn't compared, or its index isn't refreshed.

use git_objects::ObjectFault;
use git_repository::{RepositoryError, Unread};
use git_staged::TreeFault;
use git_status::Failure;
use git_status::lines::Quoted;
use std::alloc::{AllocError, AllocFailed, Global};
use std::{fmt, io};

/// Why no index is compared with HEAD or with a worktree.
#[derive(Debug, Drop)]
pub enum Refused {
    /// The repository can't be used.
    Repository(RepositoryError),
    /// The index file can't be read.
    Unreadable {
        /// Its path.
        path: String,
        /// Why it isn't read.
        why: Unread,
    },
    /// The index file has no index, HEAD's files can't be read, or the output takes no more.
    Index(Failure),
    /// A path selects nothing that is compared.
    Path {
        /// The path that was passed.
        path: String,
        /// Why it selects nothing.
        why: PathRefusal,
    },
    /// A path is empty.
    EmptyPath,
    /// The environment asks for pathspecs that aren't read.
    Pathspecs {
        /// Why they aren't.
        reason: &'static str,
    },
    /// The index isn't refreshed, because the new one might hide a change from git.
    Unrefreshed {
        /// Why it might.
        reason: &'static str,
    },
    /// Objects aren't read as git reads them.
    Objects {
        /// Why they aren't.
        reason: &'static str,
    },
    /// The object of HEAD isn't a commit.
    NoCommit,
    /// HEAD's commit can't be read.
    Object(ObjectFault),
    /// The `.gitmodules` of the index or of HEAD can't be read, and the worktree has none.
    Modules {
        /// Why it isn't read.
        fault: ObjectFault,
    },
    /// The tree of a folder of a sparse index can't be read.
    Sparse {
        /// Why it isn't read.
        fault: TreeFault,
    },
    /// The settings say that git compares paths without regard to case.
    IgnoresCase,
    /// The time of the index file isn't known.
    Clock,
    /// Memory ran out.
    Memory,
}

/// Why a path selects nothing.
#[derive(Clone, Copy, Debug)]
pub enum PathRefusal {
    /// It isn't in the worktree.
    Outside,
    /// It has magic words or signs that aren't supported.
    Magic,
    /// Its list of magic words has no end.
    Unclosed,
    /// Its magic words exclude each other.
    Incompatible,
    /// It begins at the top, and has slashes without a name between them.
    Slashes,
    /// Its case doesn't count, and it has a set or a backslash.
    Icase,
    /// It is a pattern with too many bytes.
    Long,
    /// Nothing is there, and neither the index nor HEAD has a file at it or below it.
    Unmatched,
}

impl Refused {
    /// Returns the refusal of a path.
    pub fn path(alloc: Global, path: &str, why: PathRefusal) -> Refused {
        match String::from_str(alloc, path) {
            Ok(path) => Refused::Path { path, why },
            Err(_) => Refused::Memory,
        }
    }

    /// Returns the refusal of an index file that can't be read.
    pub fn unreadable(alloc: Global, path: &str, why: Unread) -> Refused {
        if why == Unread::System(io::ErrorKind::OutOfMemory) {
            return Refused::Memory;
        }
        match String::from_str(alloc, path) {
            Ok(path) => Refused::Unreadable { path, why },
            Err(_) => Refused::Memory,
        }
    }
}

impl fmt::Display for Refused {
    fn fmt<W: fmt::Write>(&self, f: &mut fmt::Formatter<W>) -> fmt::Result {
        match self {
            Refused::Repository(error) => write!(f, "{error}"),
            Refused::Unreadable { path, why } => write!(f, "can't read the index {path}: {why}"),
            Refused::Index(failure) => write!(f, "{failure}"),
            Refused::Path { path, why } => match why {
                PathRefusal::Outside => write!(f, "'{path}' is outside of the worktree"),
                PathRefusal::Magic => write!(
                    f,
                    "'{path}' has magic that isn't supported: only top, exclude, glob, literal and icase are"
                ),
                PathRefusal::Unclosed => write!(f, "'{path}' has no ) after its magic"),
                PathRefusal::Incompatible => {
                    write!(f, "'{path}' can't be both a literal path and a pattern")
                }
                PathRefusal::Slashes => {
                    write!(f, "'{path}' has a slash without a name before it")
                }
                PathRefusal::Icase => write!(
                    f,
                    "a pattern with [ or \\ whose case doesn't count isn't supported: '{path}'"
                ),
                PathRefusal::Long => write!(f, "the pattern is too long: '{path}'"),
                PathRefusal::Unmatched => write!(f, "no tracked file matches '{path}'"),
            },
            Refused::EmptyPath => f.write_str("an empty path: use . for the working folder"),
            Refused::Pathspecs { reason } => f.write_str(reason),
            Refused::Unrefreshed { reason } => write!(
                f,
                "the index isn't refreshed, since {reason}: use git update-index --refresh"
            ),
            Refused::Objects { reason } => write!(
                f,
                "the index isn't compared with HEAD, since {reason}: --worktree compares the files alone"
            ),
            Refused::IgnoresCase => f.write_str(
                "untracked files aren't listed, since core.ignoreCase is true: without -u only tracked files are compared",
            ),
            Refused::NoCommit => f.write_str("HEAD isn't a commit"),
            Refused::Object(fault) => write!(f, "can't read HEAD's commit: {fault}"),
            Refused::Modules { fault } => {
                write!(
                    f,
                    "can't read .gitmodules, which isn't in the worktree: {fault}"
                )
            }
            Refused::Sparse { fault } => {
                write!(
                    f,
                    "can't read the files of a folder of the sparse index: {fault}"
                )
            }
            Refused::Clock => f.write_str("the time of the index file isn't known"),
            Refused::Memory => f.write_str("out of memory"),
        }
    }
}

impl From<AllocError> for Refused {
    fn from(_error: AllocError) -> Refused {
        Refused::Memory
    }
}

impl<T: Drop> From<AllocFailed<T>> for Refused {
    fn from(_refused: AllocFailed<T>) -> Refused {
        Refused::Memory
    }
}

impl From<RepositoryError> for Refused {
    fn from(error: RepositoryError) -> Refused {
        Refused::Repository(error)
    }
}

impl From<ObjectFault> for Refused {
    fn from(fault: ObjectFault) -> Refused {
        match fault {
            ObjectFault::Memory => Refused::Memory,
            fault => Refused::Object(fault),
        }
    }
}

impl From<Failure> for Refused {
    fn from(failure: Failure) -> Refused {
        match failure {
            Failure::Memory => Refused::Memory,
            failure => Refused::Index(failure),
        }
    }
}

/// A path that isn't UTF-8, so that the file there can't be compared.
#[derive(Drop)]
pub struct Illformed<'a> {
    /// The path.
    pub path: &'a [u8],
}

impl fmt::Display for Illformed<'_> {
    fn fmt<W: fmt::Write>(&self, f: &mut fmt::Formatter<W>) -> fmt::Result {
        let path = Quoted { path: self.path };
        write!(f, "can't read {path}: the path isn't UTF-8")
    }
}
