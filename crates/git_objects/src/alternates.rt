//! The folders of objects: a repository's own, and those that `info/alternates` names.

use crate::fault::ObjectFault;
use crate::paths::{is_missing, read_file};
use std::alloc::Global;
use std::fs;
use std::rt::Files;

/// How deeply alternates are nested at most, as in git.
const DEPTH: usize = 6;

/// The most folders.
const FOLDERS: usize = 4096;

/// The most bytes of a list of alternates.
const LIST_LIMIT: usize = 16 << 20;

/// Returns a folder of objects and all its alternates, without links, `.` and `..`. Each is there once. As in git, one
/// that isn't there is left out, and so are those that are nested more deeply.
///
/// # Errors
/// The folder isn't there, the system refuses to read a list, a path isn't UTF-8, there are more than 4,096 folders, or
/// out of memory.
pub(crate) fn folders_of<R: Files + AllocGlobal>(
    rt: &R,
    objects: &str,
) -> Result<Vec<String>, ObjectFault> {
    let mut folders = Vec::new(rt.alloc());
    match fs::canonicalize(rt, objects) {
        Ok(path) => folders.push(path.into_string())?,
        Err(error) => return Err(ObjectFault::of_system(error.kind())),
    }
    let mut next = 0usize;
    for _ in 0..DEPTH {
        let end = folders.len();
        for at in next..end {
            add_alternates(rt, &mut folders, at)?;
        }
        next = end;
    }
    Ok(folders)
}

/// Adds the folders that the list of a folder names, by its position among the folders.
fn add_alternates<R: Files + AllocGlobal>(
    rt: &R,
    folders: &mut Vec<String>,
    at: usize,
) -> Result<(), ObjectFault> {
    let alloc = rt.alloc();
    let folder = match folders.get(at) {
        Some(folder) => String::from_str(alloc, folder.as_str())?,
        None => return Ok(()),
    };
    let path = format!(in alloc; "{folder}/info/alternates")?;
    let Some(list) = read_file(rt, path.as_str(), LIST_LIMIT)? else {
        return Ok(());
    };
    for line in list.split(|byte| *byte == b'\n') {
        if line.is_empty() || line.starts_with(b"#") {
            continue;
        }
        let path = path_of(alloc, folder.as_str(), line)?;
        add_folder(rt, folders, path.as_str())?;
    }
    Ok(())
}

/// Returns the path of a line: below the folder, or the line itself if it is absolute.
fn path_of(alloc: Global, folder: &str, line: &[u8]) -> Result<String, ObjectFault> {
    match str::from_utf8(line) {
        Ok(path) if path.starts_with('/') => Ok(String::from_str(alloc, path)?),
        Ok(path) => Ok(format!(in alloc; "{folder}/{path}")?),
        Err(_) => Err(ObjectFault::IllformedPath),
    }
}

/// Adds a folder, if it is there and isn't one of the folders.
fn add_folder<R: Files + AllocGlobal>(
    rt: &R,
    folders: &mut Vec<String>,
    path: &str,
) -> Result<(), ObjectFault> {
    let path = match fs::canonicalize(rt, path) {
        Ok(path) => path.into_string(),
        Err(error) if is_missing(error.kind()) => return Ok(()),
        Err(error) => return Err(ObjectFault::of_system(error.kind())),
    };
    if folders
        .iter()
        .any(|folder| folder.as_str() == path.as_str())
    {
        return Ok(());
    }
    if folders.len() >= FOLDERS {
        return Err(ObjectFault::ManyAlternates);
    }
    folders.push(path)?;
    Ok(())
}
