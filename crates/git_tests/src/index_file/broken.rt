//! Broken files, and why they are refused.

use git_index::{IndexFileError, read_index};
use status_index::{HashKind, Moment};
use std::alloc::{AllocError, Global};

/// Returns why a file isn't read. None if it is.
pub(super) fn refused(alloc: Global, kind: HashKind, bytes: &[u8]) -> Option<IndexFileError> {
    read_index(alloc, kind, bytes, Moment::default()).err()
}

/// Returns the bytes before the SHA-1 checksum.
pub(super) fn content(bytes: &[u8]) -> &[u8] {
    &bytes[..bytes.len().saturating_sub(20)]
}

/// Returns this content with zeros in the place of a checksum.
pub(super) fn unchecked(alloc: Global, content: &[u8]) -> Result<Vec<u8>, AllocError> {
    let mut bytes = Vec::from_slice(alloc, content)?;
    bytes.extend_from_slice(&[0u8; 20])?;
    Ok(bytes)
}

/// Returns the bytes with these in the place of those at an offset.
pub(super) fn changed(
    alloc: Global,
    bytes: &[u8],
    at: usize,
    by: &[u8],
) -> Result<Vec<u8>, AllocError> {
    let mut into = Vec::with_capacity(alloc, bytes.len())?;
    for (i, byte) in bytes.iter().enumerate() {
        let byte = by.get(i.wrapping_sub(at)).unwrap_or(byte);
        into.push(*byte)?;
    }
    Ok(into)
}
