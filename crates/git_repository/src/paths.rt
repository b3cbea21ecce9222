//! Paths by their text alone.

use std::alloc::{AllocError, Global};

/// Adds a name to a path: `..` takes the last one away, and `.` and an empty name change nothing. Returns whether the path doesn't
/// lead above its start.
///
/// # Errors
/// Out of memory.
pub fn push_name(alloc: Global, path: &mut String, name: &str) -> Result<bool, AllocError> {
    match name {
        "" | "." => {}
        ".." if path.is_empty() => return Ok(false),
        ".." => *path = parent_of(alloc, path.as_str())?,
        name => {
            if !path.is_empty() {
                path.push_str("/")?;
            }
            path.push_str(name)?;
        }
    }
    Ok(true)
}

/// Returns whether a path can only be that of a folder: it ends in a slash, `.` or `..`.
pub fn is_folder_path(path: &str) -> bool {
    matches!(path.rsplit('/').next(), Some("" | "." | ".."))
}

/// Returns a path without `.`, `..` and empty names. None if it leads above its start.
///
/// # Errors
/// Out of memory.
pub fn folded(alloc: Global, path: &str) -> Result<Option<String>, AllocError> {
    let mut text = String::new(alloc);
    for name in path.split('/') {
        if !push_name(alloc, &mut text, name)? {
            return Ok(None);
        }
    }
    if is_folder_path(path) && !text.is_empty() {
        text.push_str("/")?;
    }
    if path.starts_with('/') {
        return Ok(Some(format!(in alloc; "/{text}")?));
    }
    Ok(Some(text))
}

// Returns the path of the folder that has the node at a path. That of the start is empty.
fn parent_of(alloc: Global, path: &str) -> Result<String, AllocError> {
    match path.rsplit_once('/') {
        Some((parent, _)) => String::from_str(alloc, parent),
        None => Ok(String::new(alloc)),
    }
}
