//! Which fields of a stat a folder of the disk reports.

use status_index::{Metadata, NodeKind, Time};
use std::fs;
use std::os::unix::fs::MetadataExt as _;
use std::time::UNIX_EPOCH;

// The bit of a mode that lets the file's owner execute it.
const OWNER_EXECUTES: u32 = 0o100;

/// Which fields of a node's stat are reported, besides its kind and its length.
#[derive(Clone, Copy, Debug, PartialEq, Eq)]
pub enum StatFields {
    /// The time at which the content was last changed. The metadata are assumed to have been changed at the same time. No
    /// file is assumed to be executable, and the other numbers are 0.
    Portable,
    /// All that git records of a file. Of seconds, devices and inodes the low 32 bits are reported, as git records them.
    Git,
}

impl StatFields {
    /// Returns a node's metadata, from the metadata that the system reports.
    pub fn metadata_of(self, found: &fs::Metadata) -> Metadata {
        match self {
            StatFields::Portable => portable_metadata_of(found),
            StatFields::Git => git_metadata_of(found),
        }
    }
}

fn portable_metadata_of(found: &fs::Metadata) -> Metadata {
    let changed = portable_time_of(found);
    Metadata {
        kind: kind_of(found),
        len: found.len(),
        executable: false,
        mtime: changed,
        ctime: changed,
        dev: 0,
        ino: 0,
        uid: 0,
        gid: 0,
    }
}

fn git_metadata_of(found: &fs::Metadata) -> Metadata {
    Metadata {
        kind: kind_of(found),
        len: found.len(),
        executable: found.mode() & OWNER_EXECUTES != 0,
        mtime: Some(git_time_of(found.mtime(), found.mtime_nsec())),
        ctime: Some(git_time_of(found.ctime(), found.ctime_nsec())),
        dev: low_bits(found.dev()),
        ino: low_bits(found.ino()),
        uid: found.uid(),
        gid: found.gid(),
    }
}

fn kind_of(found: &fs::Metadata) -> NodeKind {
    if found.is_file() {
        NodeKind::File
    } else if found.is_symlink() {
        NodeKind::Link
    } else if found.is_dir() {
        NodeKind::Directory
    } else {
        NodeKind::Other
    }
}

/// Returns when the content was last changed. None if the system doesn't report it, if it is before 1970, or if the
/// seconds don't fit into 32 bits.
fn portable_time_of(found: &fs::Metadata) -> Option<Time> {
    let changed = found.modified().ok()?;
    let since_1970 = changed.duration_since(UNIX_EPOCH).ok()?;
    Some(Time {
        secs: u32::try_from(since_1970.as_secs()).ok()?,
        nsecs: since_1970.subsec_nanos(),
    })
}

/// Returns the time that git records: the low 32 bits of the seconds since 1970, and the nanoseconds.
fn git_time_of(secs: i64, nsecs: i64) -> Time {
    Time {
        secs: low_bits(secs.cast_unsigned()),
        nsecs: low_bits(nsecs.cast_unsigned()),
    }
}

fn low_bits(number: u64) -> u32 {
    (number % (1 << 32)) as u32
}
