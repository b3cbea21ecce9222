//! The function that opens the files of a repository's own folder and of git's configuration, which a repository may
//! control. A file of the worktree is opened by the worktree, after `lstat` and the link check.

use std::alloc::Global;
use std::fs::{self, Metadata, OpenFile as _};
use std::io::Read as _;
use std::os::unix::fs::{FileTypeExt as _, MetadataExt as _};
use std::rt::Files;
use std::{fmt, io};

/// The most bytes of an index file.
pub const INDEX_LIMIT: usize = 1 << 30;

/// The most bytes of a file of packed references.
pub const PACKED_LIMIT: usize = 128 << 20;

/// The most bytes of a file `.git`, as in git.
pub const GIT_FILE_LIMIT: usize = 1 << 20;

/// The most bytes of any other file of a repository, or of git's configuration.
pub const SMALL_LIMIT: usize = 16 << 20;

// The number of the device `/dev/null` on Linux.
const NULL_DEVICE: u64 = 1 << 8 | 3;

/// Why a file isn't read.
#[derive(Clone, Copy, Debug, PartialEq, Eq)]
pub enum Unread {
    /// The system's error.
    System(io::ErrorKind),
    /// It is a named pipe, a device or a socket. None of these is opened: it may never end, or wait for another process.
    NotRegular,
    /// It has more bytes than are read.
    TooLarge,
}

impl fmt::Display for Unread {
    fn fmt<W: fmt::Write>(&self, f: &mut fmt::Formatter<W>) -> fmt::Result {
        match self {
            Unread::System(io::ErrorKind::NotFound) => f.write_str("not found"),
            Unread::System(kind) => write!(f, "{kind}"),
            Unread::NotRegular => f.write_str("not a regular file"),
            Unread::TooLarge => f.write_str("too large"),
        }
    }
}

/// A regular file that was read.
#[derive(Drop)]
pub struct RegularFile {
    /// Its bytes.
    pub bytes: Vec<u8>,
    /// Its metadata, from before the bytes were read.
    pub metadata: Metadata,
}

/// Reads the regular file at a path, or at the end of links there, if it has at most `limit` bytes. The device `/dev/null` is
/// an empty file, since settings name it for none.
///
/// # Errors
/// Anything else is at the path, it has more bytes, or the system refuses.
pub fn read_regular<R: Files + AllocGlobal>(
    rt: &R,
    path: &str,
    limit: usize,
) -> Result<RegularFile, Unread> {
    let metadata = found(fs::metadata(rt, path))?;
    if metadata.file_type().is_char_device() && metadata.rdev() == NULL_DEVICE {
        return Ok(RegularFile {
            bytes: Vec::new(rt.alloc()),
            metadata,
        });
    }
    check(&metadata, limit)?;
    let file = found(fs::open(rt, path))?;
    // Another file may be at the path by now. (A pipe that came meanwhile is waited for.)
    let metadata = found(file.metadata())?;
    check(&metadata, limit)?;
    let bytes = read_to(rt.alloc(), file, metadata.len(), limit)?;
    Ok(RegularFile { bytes, metadata })
}

// Reads a file to its end, at most one byte more than the limit. It probably has `len` bytes: with room for one more, its end is
// found without a larger vector.
fn read_to<F: io::Read + Drop>(
    alloc: Global,
    file: F,
    len: u64,
    limit: usize,
) -> Result<Vec<u8>, Unread> {
    let room = (len as usize).min(limit).saturating_add(1);
    let Ok(mut bytes) = Vec::with_capacity(alloc, room) else {
        return Err(Unread::System(io::ErrorKind::OutOfMemory));
    };
    found(
        file.take((limit as u64).saturating_add(1))
            .read_to_end(&mut bytes),
    )?;
    if bytes.len() > limit {
        return Err(Unread::TooLarge);
    }
    Ok(bytes)
}

// Returns a result of the system with the kind of its error.
fn found<T: Drop>(answer: io::Result<T>) -> Result<T, Unread> {
    match answer {
        Ok(value) => Ok(value),
        Err(error) => Err(Unread::System(error.kind())),
    }
}

// Checks that a node is a regular file of at most so many bytes.
fn check(metadata: &Metadata, limit: usize) -> Result<(), Unread> {
    if metadata.is_dir() {
        return Err(Unread::System(io::ErrorKind::IsADirectory));
    }
    if !metadata.is_file() {
        return Err(Unread::NotRegular);
    }
    if metadata.len() > limit as u64 {
        return Err(Unread::TooLarge);
    }
    Ok(())
}
