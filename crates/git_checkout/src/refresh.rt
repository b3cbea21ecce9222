//! The refresh of an index file: it gets the stats that the status found.

use crate::index_file::FoundIndex;
use crate::refused::Refused;
use git_repository::{Repository, RepositoryError, replace_index};
use git_status::Refreshed;
use std::rt::Files;
use std::time::SystemTime;

/// The name of the extension with what git knows of untracked files. Git takes a folder's part for current if the folder is
/// older than the index.
const UNTRACKED_CACHE: [u8; 4] = *b"UNTR";

/// A refresh of an index file.
#[derive(Drop)]
pub struct Refresh<'a> {
    /// The repository.
    pub repository: &'a Repository,
    /// The file that was compared.
    pub old: &'a FoundIndex,
    /// Whether another index was compared, since the worktree has files that a sparse checkout leaves out.
    pub is_remade: bool,
    /// When the refresh began: the time of a lock. That there was none counts once there is a new file.
    pub begun: Result<SystemTime, RepositoryError>,
}

impl Refresh<'_> {
    /// Writes the new index file, if there is one, and returns the exit status.
    ///
    /// # Errors
    /// The new file might hide a change from git, or it can't be written.
    pub fn end<R: AllocGlobal + Files>(
        self,
        rt: &R,
        refreshed: Refreshed<'_>,
    ) -> Result<u8, Refused> {
        let Refreshed {
            status,
            bytes,
            is_whole,
            extensions,
        } = refreshed;
        let Some(bytes) = bytes else {
            return Ok(status);
        };
        let is_whole = is_whole && !has_extension(extensions, UNTRACKED_CACHE);
        if !is_whole && bytes.as_slice() == self.old.bytes.as_slice() {
            return Ok(status);
        }
        if let Some(reason) = self.obstacle(is_whole) {
            return Err(Refused::Unrefreshed { reason });
        }
        let Refresh {
            repository,
            old,
            begun,
            ..
        } = self;
        // An entry is racy if it isn't older than the index. So the new time is before each comparison; and it isn't later than
        // the old one if there are entries or folders that weren't compared.
        let begun = begun?;
        let time = if is_whole {
            begun
        } else {
            begun.min(old.modified.ok_or(Refused::Clock)?)
        };
        replace_index(rt, repository.index.as_str(), &old.bytes, &bytes, time)?;
        Ok(status)
    }

    /// Returns why the index isn't written. None if it is.
    fn obstacle(&self, is_whole: bool) -> Option<&'static str> {
        let settings = &self.repository.settings;
        if settings.ignore_case {
            Some("core.ignoreCase is set, and attributes of paths are found by their exact case")
        } else if settings.has_other_attributes {
            Some("git may read other attributes (attr.tree, GIT_ATTR_SOURCE, GIT_COMMON_DIR)")
        } else if self.is_remade {
            Some("the worktree has files that the sparse checkout leaves out")
        } else if !is_whole && self.old.timestamp.secs == 0 {
            Some("its time is in the first second of 1970, when no entry is racy to git")
        } else {
            None
        }
    }
}

/// Returns whether there is an extension of this name. Each has four bytes of name, the length of its content in four bytes,
/// and the content.
pub(crate) fn has_extension(extensions: &[u8], name: [u8; 4]) -> bool {
    let mut rest = extensions;
    'extensions: while let [a, b, c, d, e, f, g, h, after @ ..] = rest {
        if [*a, *b, *c, *d] == name {
            return true;
        }
        let len = u32::from_be_bytes([*e, *f, *g, *h]) as usize;
        let Some(next) = after.get(len..) else {
            return false;
        };
        rest = next;
    }
    false
}
