//! Files of a folder of objects.

use crate::fault::ObjectFault;
use crate::packs::open_file;
use status_index::ObjectId;
use std::alloc::{AllocError, Global};
use std::io::{self, Read as _};
use std::rt::Files;

/// Returns whether an error says that nothing is at a path.
pub(crate) fn is_missing(kind: io::ErrorKind) -> bool {
    matches!(kind, io::ErrorKind::NotFound | io::ErrorKind::NotADirectory)
}

/// Returns the path of a loose object in a folder of objects: its first two digits are those of a folder.
///
/// # Errors
/// Out of memory.
pub(crate) fn loose_path(alloc: Global, folder: &str, id: ObjectId) -> Result<String, AllocError> {
    let mut path = String::from_str(alloc, folder)?;
    path.push('/')?;
    for (at, byte) in id.as_bytes().iter().enumerate() {
        write!(path, "{byte:02x}")?;
        if at == 0 {
            path.push('/')?;
        }
    }
    Ok(path)
}

/// Returns the bytes of a regular file that has at most `limit`. None if nothing is at the path.
///
/// # Errors
/// It is no regular file, it has more bytes, the system refuses to read it, or out of memory.
pub(crate) fn read_file<R: Files + AllocGlobal>(
    rt: &R,
    path: &str,
    limit: usize,
) -> Result<Option<Vec<u8>>, ObjectFault> {
    let Some(file) = open_file(rt, path)? else {
        return Ok(None);
    };
    let mut bytes = Vec::new(rt.alloc());
    match file
        .take((limit as u64).saturating_add(1))
        .read_to_end(&mut bytes)
    {
        Ok(_) if bytes.len() > limit => Err(ObjectFault::TooLarge),
        Ok(_) => Ok(Some(bytes)),
        Err(error) => Err(ObjectFault::of_system(error.kind())),
    }
}
