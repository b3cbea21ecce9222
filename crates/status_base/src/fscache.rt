//! Listings of directories, cached so that `lstat` needn't be called for each file. The listings of Windows are read
//! with its attributes and times.

ghost use Rattle.std.specs.Prelude.{◌≡◌, Some};
ghost use Rattle.status_base.specs.ListedNodes.{listed_kind, listed_node};
ghost use Rattle.status_index.specs.NodeStat.{stat_of};
ghost use Rattle.status_base.specs.Windows.{is_directory, is_link, unix_seconds, unix_nanoseconds};

mod listings;
mod names;

use crate::worktree::{Metadata, NodeKind};
pub use listings::{FsCache, Listings};
use status_index::{Stat as IndexStat, Time};

/// The metadata that a listing has for one file.
#[derive(Clone, Copy, Debug, Default)]
pub struct Stat {
    /// Whether it is a directory.
    pub is_dir: bool,
    /// Whether it is a symbolic link.
    pub is_symlink: bool,
    /// The length in bytes.
    pub size: u64,
    /// When the content was last changed, in seconds since 1970.
    pub mtime_secs: u32,
    /// The nanoseconds within that second.
    pub mtime_nsecs: u32,
    /// When the metadata was last changed, in seconds since 1970. A listing of Windows has the time of creation here.
    pub ctime_secs: u32,
    /// The nanoseconds within that second.
    pub ctime_nsecs: u32,
}

impl Stat {
    /// Returns the stat that an index stores for this file. Its size is the low 32 bits of the length. Device, inode
    /// and owners are 0, since a listing doesn't have them.
    pub fn to_stat(&self) -> IndexStat
        ensures { stat_of (listed_node self.now) ≡ Some result }
    {
        IndexStat {
            mtime: self.mtime(),
            ctime: self.ctime(),
            dev: 0,
            ino: 0,
            uid: 0,
            gid: 0,
            size: (self.size % (1 << 32)) as u32,
        }
    }

    /// Returns the node that the listing reports. It is a directory if `is_dir`, otherwise a link if `is_symlink`,
    /// otherwise a file. It is never executable. Device, inode and owners are 0.
    pub fn to_metadata(&self) -> Metadata
        ensures { result ≡ listed_node self.now }
    {
        Metadata {
            kind: self.kind(),
            len: self.size,
            executable: false,
            mtime: Some(self.mtime()),
            ctime: Some(self.ctime()),
            dev: 0,
            ino: 0,
            uid: 0,
            gid: 0,
        }
    }

    fn kind(&self) -> NodeKind
        ensures { result ≡ listed_kind self.now.is_dir self.now.is_symlink }
    {
        match (self.is_dir, self.is_symlink) {
            (true, _) => NodeKind::Directory,
            (false, true) => NodeKind::Link,
            (false, false) => NodeKind::File,
        }
    }

    fn mtime(&self) -> Time
        ensures { result ≡ record { secs = self.now.mtime_secs; nsecs = self.now.mtime_nsecs } }
    {
        Time {
            secs: self.mtime_secs,
            nsecs: self.mtime_nsecs,
        }
    }

    fn ctime(&self) -> Time
        ensures { result ≡ record { secs = self.now.ctime_secs; nsecs = self.now.ctime_nsecs } }
    {
        Time {
            secs: self.ctime_secs,
            nsecs: self.ctime_nsecs,
        }
    }
}

/// The attribute of a directory (FILE_ATTRIBUTE_DIRECTORY).
const DIRECTORY: u32 = 0x10;

/// The attribute of a reparse point (FILE_ATTRIBUTE_REPARSE_POINT).
const REPARSE_POINT: u32 = 0x400;

/// The bit that a reparse point's tag has if the point names another place (IsReparseTagNameSurrogate).
const NAME_SURROGATE: u32 = 0x2000_0000;

/// 1970 as a FILETIME.
const UNIX_START: u64 = 116_444_736_000_000_000;

/// The steps of a FILETIME in a second.
const STEPS: u64 = 10_000_000;

/// Returns whether a file is a directory, and whether it is a symbolic link, from its attributes and its reparse tag.
/// A reparse point is a link only if it names another place, and then it isn't a directory.
pub fn type_flags_from_attributes(attributes: u32, reparse_tag: u32) -> (bool, bool)
    ensures { result ≡ (is_directory attributes reparse_tag, is_link attributes reparse_tag) }
{
    let is_symlink = attributes & REPARSE_POINT != 0 && reparse_tag & NAME_SURROGATE != 0;
    let is_dir = !is_symlink && attributes & DIRECTORY != 0;
    (is_dir, is_symlink)
}

/// Converts a FILETIME, which counts steps of 100 nanoseconds since 1601, to seconds since 1970 and nanoseconds. Only
/// the low 32 bits of the seconds are kept. A time before 1970 becomes 1970.
pub fn filetime_to_unix(filetime: u64) -> (u32, u32)
    ensures { result ≡ (unix_seconds filetime, unix_nanoseconds filetime) }
{
    let steps = filetime.saturating_sub(UNIX_START);
    let seconds = (steps / STEPS) % (1 << 32);
    let nanoseconds = steps % STEPS * 100;
    (seconds as u32, nanoseconds as u32)
}
