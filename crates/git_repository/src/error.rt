//! Why a repository isn't read, or its index isn't written.

use crate::regular::Unread;
use std::alloc::AllocError;
use std::io;
use thiserror::Error;

/// Why a repository or its settings aren't read, or its index isn't written. The words are git's, if git has the same error.
#[derive(Debug, Drop, Error)]
pub enum RepositoryError {
    /// Neither the folder nor one above it has a repository.
    #[error("not a git repository (or any of the parent directories): .git")]
    NotFound,
    /// A path that has to be that of a repository isn't.
    #[error("not a git repository: '{path}'")]
    NotARepository {
        /// The path.
        path: String,
    },
    /// A file `.git` doesn't name a repository.
    #[error("invalid gitfile format: {path}")]
    BadGitFile {
        /// The file's path.
        path: String,
    },
    /// The working folder isn't there, or isn't a folder.
    #[error("cannot change to '{path}': {why}")]
    NotAFolder {
        /// The path.
        path: String,
        /// Why it is none.
        why: Unread,
    },
    /// The repository is bare, or the folder is in the repository's own folder.
    #[error("this operation must be run in a work tree")]
    NoWorktree,
    /// Git can't read a line of a configuration file.
    #[error("bad config line {line} in file {path}")]
    BadConfig {
        /// The line's number, counted from 1.
        line: usize,
        /// The file's path.
        path: String,
    },
    /// An include has no path.
    #[error("missing value for 'include.path'")]
    NoIncludePath,
    /// The path of an include or of a file of the user begins with a home folder that isn't known.
    #[error("could not expand include path '{path}'")]
    UnknownHome {
        /// The path.
        path: String,
    },
    /// The environment includes a file by a relative path.
    #[error("relative config includes must come from files: '{path}'")]
    RelativeInclude {
        /// The path.
        path: String,
    },
    /// More files include each other than git reads.
    #[error("exceeded maximum include depth (10) while including '{path}'")]
    IncludesTooDeep {
        /// The path of the last one.
        path: String,
    },
    /// A file that a condition on the URLs of remotes may need has such a URL itself.
    #[error("remote URLs cannot be configured in file directly or indirectly included by includeIf.hasconfig:remote.*.url")]
    ConditionalRemote,
    /// The pattern of a condition isn't compared: it is longer than 255 bytes, or without regard to case and with `[` or a backslash.
    #[error("the condition of an include isn't supported: '{condition}'")]
    UnsupportedCondition {
        /// The condition.
        condition: String,
    },
    /// A variable has to be a boolean and isn't.
    #[error("bad boolean config value '{value}' for '{name}'")]
    BadBoolean {
        /// The variable's name.
        name: &'static str,
        /// The value.
        value: String,
    },
    /// A variable has to be a number and isn't.
    #[error("bad numeric config value '{value}' for '{name}'")]
    BadNumber {
        /// The variable's name.
        name: &'static str,
        /// The value.
        value: String,
    },
    /// A variable has none of its known values.
    #[error("invalid value for '{name}': '{value}'")]
    BadValue {
        /// The variable's name.
        name: &'static str,
        /// The value.
        value: String,
    },
    /// The repository's format is newer than the known ones.
    #[error("Expected git repo version <= 1, found {found}")]
    UnknownVersion {
        /// The format's version.
        found: i32,
    },
    /// The repository has an extension that isn't known.
    #[error("unknown repository extension found: {name}")]
    UnknownExtension {
        /// The extension's name.
        name: String,
    },
    /// The repository has an extension that its format's version doesn't have.
    #[error("repo version is 0, but v1-only extension found: {name}")]
    NewExtension {
        /// The extension's name.
        name: String,
    },
    /// An environment variable states no configuration.
    #[error("bogus configuration in the environment variable {name}")]
    BadEnvironment {
        /// The environment variable's name.
        name: String,
    },
    /// A file or a folder can't be read.
    #[error("unable to access '{path}': {why}")]
    Unreadable {
        /// Its path.
        path: String,
        /// Why it isn't read.
        why: Unread,
    },
    /// The last line of a file of packed references has no end, so the file was cut off.
    #[error("unterminated line in {path}")]
    CutOff {
        /// The file's path.
        path: String,
    },
    /// A lock is there that another process made.
    #[error("Unable to create '{path}': File exists. If no git process is running, remove it")]
    Locked {
        /// The lock's path.
        path: String,
    },
    /// A lock can't be created.
    #[error("Unable to create '{path}': {error}")]
    NotLocked {
        /// The lock's path.
        path: String,
        /// The system's error.
        error: io::ErrorKind,
    },
    /// The index isn't the one that was read any more.
    #[error("the index changed meanwhile, so nothing was written")]
    IndexChanged,
    /// A lock can't be written, or can't replace the index.
    #[error("Unable to write '{path}': {error}")]
    Unwritable {
        /// The lock's path.
        path: String,
        /// The system's error.
        error: io::ErrorKind,
    },
    /// A path isn't UTF-8, and the system's paths have to be.
    #[error("the path '{path}' isn't UTF-8")]
    IllformedPath {
        /// The path, with a replacement character for each ill-formed part.
        path: String,
    },
    /// An allocation failed.
    #[error("Out of memory")]
    Memory(#[from(alloc)] AllocError),
}

impl RepositoryError {
    /// Returns whether a file or a folder can't be read.
    pub(crate) fn is_unreadable(&self) -> bool {
        matches!(self, RepositoryError::Unreadable { .. })
    }

    /// Returns whether nothing is at a path.
    pub(crate) fn is_not_found(&self) -> bool {
        match self {
            RepositoryError::Unreadable { why, .. } => {
                *why == Unread::System(io::ErrorKind::NotFound)
            }
            _ => false,
        }
    }

    /// Returns whether a line of a configuration file can't be read.
    pub(crate) fn is_bad_config(&self) -> bool {
        matches!(self, RepositoryError::BadConfig { .. })
    }
}
