//! The format of a repository.

use crate::error::RepositoryError;
use crate::switches::switch_or;
use git_config::{Config, is_text, number_of};
use status_index::HashKind;
use std::alloc::Global;

// The extensions that formats of any version may have.
const OLD_EXTENSIONS: [&[u8]; 4] = [
    b"noop",
    b"preciousobjects",
    b"partialclone",
    b"worktreeconfig",
];

// The extensions that only formats of version 1 may have.
const NEW_EXTENSIONS: [&[u8]; 4] = [
    b"noop-v1",
    b"objectformat",
    b"refstorage",
    b"relativeworktrees",
];

/// The format that a repository's own configuration states.
#[derive(Clone, Copy)]
pub struct Format {
    /// The digest that makes ids.
    pub kind: HashKind,
    /// Whether a worktree has a configuration of its own.
    pub has_worktree_config: bool,
    /// Whether the configuration states a version of the format. Otherwise git ignores its extensions, and which worktree it
    /// names.
    pub is_stated: bool,
}

/// Reads the version of a repository's format, and its extensions.
///
/// # Errors
/// The format isn't known, a value can't be read, or out of memory.
pub fn read_format(alloc: Global, config: &Config) -> Result<Format, RepositoryError> {
    let version = read_version(alloc, config)?;
    check_extensions(alloc, config, version)?;
    let kind = read_kind(alloc, config)?;
    let has_own = switch_or(alloc, config, "extensions.worktreeconfig", false)?;
    let is_stated = version.is_some();
    Ok(Format {
        kind: if is_stated { kind } else { HashKind::Sha1 },
        has_worktree_config: is_stated && has_own,
        is_stated,
    })
}

// Returns the version of the format, which is at most 1. None if it isn't set.
fn read_version(alloc: Global, config: &Config) -> Result<Option<i32>, RepositoryError> {
    let Some(found) = config.get(b"core", None, b"repositoryformatversion") else {
        return Ok(None);
    };
    let value = found.value().unwrap_or(b"");
    match number_of(value) {
        Some(found) if found > 1 => Err(RepositoryError::UnknownVersion { found }),
        Some(version) => Ok(Some(version)),
        None => Err(RepositoryError::BadNumber {
            name: "core.repositoryformatversion",
            value: String::from_utf8_lossy(alloc, value)?,
        }),
    }
}

// Checks each extension.
fn check_extensions(
    alloc: Global,
    config: &Config,
    version: Option<i32>,
) -> Result<(), RepositoryError> {
    for variable in config.variables() {
        if let Some(name) = variable.name_in(b"extensions") {
            check_extension(alloc, name, variable.value(), version)?;
        }
    }
    Ok(())
}

// Checks that an extension is known, and that the version of the format has it. A format without a version may have
// any.
fn check_extension(
    alloc: Global,
    name: &[u8],
    value: Option<&[u8]>,
    version: Option<i32>,
) -> Result<(), RepositoryError> {
    match version {
        Some(0) if is_new_extension(name) => Err(RepositoryError::NewExtension {
            name: String::from_utf8_lossy(alloc, name)?,
        }),
        Some(1) if name == b"refstorage".as_slice() && !is_text(value, b"files") => {
            Err(RepositoryError::BadValue {
                name: "extensions.refstorage",
                value: String::from_utf8_lossy(alloc, value.unwrap_or(b""))?,
            })
        }
        Some(1) if !is_old_extension(name) && !is_new_extension(name) => {
            Err(RepositoryError::UnknownExtension {
                name: String::from_utf8_lossy(alloc, name)?,
            })
        }
        _ => Ok(()),
    }
}

// Returns whether formats of any version may have an extension.
fn is_old_extension(name: &[u8]) -> bool {
    OLD_EXTENSIONS.contains(&name)
}

// Returns whether only formats of version 1 may have an extension.
fn is_new_extension(name: &[u8]) -> bool {
    NEW_EXTENSIONS.contains(&name)
}

// Returns the digest that makes ids.
fn read_kind(alloc: Global, config: &Config) -> Result<HashKind, RepositoryError> {
    let Some(found) = config.get(b"extensions", None, b"objectformat") else {
        return Ok(HashKind::Sha1);
    };
    let value = found.value().unwrap_or(b"");
    if value == b"sha1".as_slice() {
        return Ok(HashKind::Sha1);
    }
    if value == b"sha256".as_slice() {
        return Ok(HashKind::Sha256);
    }
    Err(RepositoryError::BadValue {
        name: "extensions.objectformat",
        value: String::from_utf8_lossy(alloc, value)?,
    })
}
