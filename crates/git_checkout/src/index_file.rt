//! The index file before the call.

use crate::refused::Refused;
use git_index::write_index;
use git_repository::regular::INDEX_LIMIT;
use git_repository::{RegularFile, Repository, Unread, read_regular};
use status_base::worktree::StatFields;
use status_index::{HashKind, Moment, State};
use std::alloc::{AllocError, Global};
use std::fs::Metadata;
use std::io;
use std::rt::Files;
use std::time::SystemTime;

/// An index file that was read.
#[derive(Drop)]
pub struct FoundIndex {
    /// Its bytes.
    pub bytes: Vec<u8>,
    /// When it was last changed, as the status counts it.
    pub timestamp: Moment,
    /// When it was last changed, as the system counts it. None if that isn't known.
    pub modified: Option<SystemTime>,
}

impl FoundIndex {
    /// Returns the index file of a repository that has none: one without entries.
    ///
    /// # Errors
    /// Out of memory.
    pub fn without_entries(alloc: Global, kind: HashKind) -> Result<FoundIndex, AllocError> {
        let timestamp = Moment::default();
        Ok(FoundIndex {
            bytes: write_index(alloc, kind, 2, &State::new(alloc, timestamp), b"", false)?,
            timestamp,
            modified: None,
        })
    }
}

/// Reads a repository's index file. None if there is none, as before the first `git add`. The time is read before the bytes:
/// if the file is written in between, it is too early, and then more entries count as racy, and never fewer.
pub fn read_index_file<R: AllocGlobal + Files>(
    rt: &R,
    repository: &Repository,
) -> Result<Option<FoundIndex>, Refused> {
    let path = repository.index.as_str();
    match read_regular(rt, path, INDEX_LIMIT) {
        Ok(RegularFile { bytes, metadata }) => Ok(Some(FoundIndex {
            bytes,
            timestamp: changed_at(&metadata),
            modified: metadata.modified().ok(),
        })),
        Err(Unread::System(io::ErrorKind::NotFound)) => Ok(None),
        Err(why) => Err(Refused::unreadable(rt.alloc(), path, why)),
    }
}

/// Returns when a file was last changed, or 1970 if that isn't known: then every entry counts as racy.
fn changed_at(found: &Metadata) -> Moment {
    let (secs, nsecs) = match StatFields::Git.metadata_of(found).mtime {
        Some(time) => (time.secs, time.nsecs),
        None => (0, 0),
    };
    Moment { secs, nsecs }
}
