//! Reads bytes of a file by their position.

use crate::fault::ObjectFault;
use std::alloc::Global;
use std::io;
use std::os::unix::fs::FileExt;

/// Fills a buffer with the bytes of a file from a position on.
///
/// # Errors
/// Returns `short` if the file ends before, and otherwise the system's error.
pub(crate) fn read_exact<F: FileExt>(
    file: &F,
    buffer: &mut [u8],
    at: u64,
    short: ObjectFault,
) -> Result<(), ObjectFault> {
    match file.read_exact_at(buffer, at) {
        Ok(()) => Ok(()),
        Err(error) if error.kind() == io::ErrorKind::UnexpectedEof => Err(short),
        Err(error) => Err(ObjectFault::of_system(error.kind())),
    }
}

/// Returns the bytes of a file between two positions, of which there are at most `limit`.
///
/// # Errors
/// Returns `short` if the file ends before, the system's error, or out of memory.
pub(crate) fn read_between<F: FileExt>(
    alloc: Global,
    file: &F,
    at: u64,
    end: u64,
    limit: usize,
    short: ObjectFault,
) -> Result<Vec<u8>, ObjectFault> {
    let len = (end.saturating_sub(at) as usize).min(limit);
    let mut bytes = Vec::from_elem(alloc, 0u8, len)?;
    read_exact(file, bytes.as_mut_slice(), at, short)?;
    Ok(bytes)
}

/// Returns the big-endian number of four bytes at a position of a slice, and zero beyond its end.
pub(crate) fn u32_at(bytes: &[u8], at: usize) -> u64 {
    match bytes.get(at..).unwrap_or(b"").first_chunk::<4>() {
        Some(number) => u64::from(u32::from_be_bytes(*number)),
        None => 0,
    }
}
