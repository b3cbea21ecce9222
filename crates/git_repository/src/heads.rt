//! The head of a repository: which `HEAD` git accepts, and the commit that it leads to.

use crate::error::RepositoryError;
use crate::files::{is_missing, joined, read_if_there, unreadable};
use crate::regular::{PACKED_LIMIT, SMALL_LIMIT, Unread, read_regular};
use git_config::is_blank;
use status_index::ObjectId;
use std::alloc::Global;
use std::rt::Files;
use std::{fs, io};

// The most references that are read on the way from `HEAD` to a commit, as in git.
const DEPTH: u32 = 5;

// How many bytes of `HEAD` git checks, from its beginning.
const CHECKED_LEN: usize = 255;

// The fewest digits of an id.
const ID_LEN: usize = 40;

// The beginning of the names of references.
const REFERENCES: &[u8] = b"refs/";

// The end of a reference: a commit, or another reference.
#[derive(Drop)]
enum Target {
    Commit(ObjectId),
    // Another reference, by its name.
    Name(String),
}

/// Returns whether a folder has a `HEAD` that git accepts: a symbolic link to a path that begins with `refs/`, or a file
/// that begins as `is_head` states.
///
/// # Errors
/// The system refuses to read it, or out of memory.
pub fn has_head<R: Files + AllocGlobal>(rt: &R, folder: &str) -> Result<bool, RepositoryError> {
    let path = joined(rt.alloc(), folder, "HEAD")?;
    match is_accepted(rt, path.as_str()) {
        Ok(is_accepted) => Ok(is_accepted),
        Err(Unread::System(kind)) if is_missing(kind) => Ok(false),
        Err(why) => Err(unreadable(rt.alloc(), path.as_str(), why)),
    }
}

// Returns whether git accepts the link or file at a path as `HEAD`.
fn is_accepted<R: Files + AllocGlobal>(rt: &R, path: &str) -> Result<bool, Unread> {
    match link_at(rt, path)? {
        Some(target) => Ok(target.as_bytes().starts_with(REFERENCES)),
        None => Ok(is_head(&read_regular(rt, path, SMALL_LIMIT)?.bytes)),
    }
}

// Returns the target of the symbolic link at a path. None if something else is there.
fn link_at<R: Files + AllocGlobal>(rt: &R, path: &str) -> Result<Option<String>, Unread> {
    match target_at(rt, path) {
        Ok(target) => Ok(target),
        Err(error) => Err(Unread::System(error.kind())),
    }
}

// Does the same, with the system's error.
fn target_at<R: Files + AllocGlobal>(rt: &R, path: &str) -> io::Result<Option<String>> {
    if !fs::symlink_metadata(rt, path)?.is_symlink() {
        return Ok(None);
    }
    Ok(Some(fs::read_link(rt, path)?.into_string()))
}

/// Returns whether git accepts a file `HEAD` with these bytes. It begins with `ref:`, blanks or line ends if any, and
/// `refs/`, or with the digits of an id. What follows isn't checked.
pub fn is_head(bytes: &[u8]) -> bool {
    let text = bytes.get(..CHECKED_LEN).unwrap_or(bytes);
    match text.strip_prefix(b"ref:") {
        Some(rest) => after_blanks(rest).starts_with(REFERENCES),
        None => match text.get(..ID_LEN) {
            Some(digits) => digits.iter().all(|digit| digit.is_ascii_hexdigit()),
            None => false,
        },
    }
}

// Returns a text without the blanks and line ends at its beginning.
fn after_blanks(text: &[u8]) -> &[u8] {
    match text
        .iter()
        .position(|byte| !is_blank(*byte) && *byte != b'\n')
    {
        Some(start) => text.get(start..).unwrap_or(b""),
        None => b"",
    }
}

// Returns a text without the blanks and line ends at its end.
fn before_blanks(text: &[u8]) -> &[u8] {
    match text
        .iter()
        .rposition(|byte| !is_blank(*byte) && *byte != b'\n')
    {
        Some(last) => text.get(..=last).unwrap_or(text),
        None => b"",
    }
}

/// Returns the commit that `HEAD` leads to, through loose and packed references. None if it leads to none.
///
/// # Errors
/// A file can't be read, a reference's name isn't UTF-8, or out of memory.
pub fn head_of<R: Files + AllocGlobal>(
    rt: &R,
    git_dir: &str,
    common_dir: &str,
) -> Result<Option<ObjectId>, RepositoryError> {
    match end_of_head(rt, git_dir, common_dir)? {
        Some((_, Loose::Leads(Target::Commit(id)))) => Ok((!id.is_null()).then_some(id)),
        _ => Ok(None),
    }
}

/// Returns the name of the branch that `HEAD` names, without `refs/heads/`, also if the branch has no commit. None if it names a
/// commit or another reference, or a branch whose file isn't that of a reference.
///
/// # Errors
/// As for `head_of`.
pub fn branch_of<R: Files + AllocGlobal>(
    rt: &R,
    git_dir: &str,
    common_dir: &str,
) -> Result<Option<String>, RepositoryError> {
    match end_of_head(rt, git_dir, common_dir)? {
        Some((name, Loose::Leads(_) | Loose::Missing | Loose::Dangling)) => {
            match name.strip_prefix("refs/heads/") {
                Some(branch) => Ok(Some(String::from_str(rt.alloc(), branch)?)),
                None => Ok(None),
            }
        }
        _ => Ok(None),
    }
}

// Returns the last reference on the way from `HEAD`, by its name, and what it leads to. None if that is too far, or the name isn't
// one that git accepts.
fn end_of_head<R: Files + AllocGlobal>(
    rt: &R,
    git_dir: &str,
    common_dir: &str,
) -> Result<Option<(String, Loose)>, RepositoryError> {
    let mut name = String::from_str(rt.alloc(), "HEAD")?;
    for _ in 0..DEPTH {
        if !is_name(name.as_str()) {
            return Ok(None);
        }
        match target_of(rt, git_dir, common_dir, name.as_str())? {
            Loose::Leads(Target::Name(next)) => name = next,
            end => return Ok(Some((name, end))),
        }
    }
    Ok(None)
}

// Returns what the reference of a name leads to.
fn target_of<R: Files + AllocGlobal>(
    rt: &R,
    git_dir: &str,
    common_dir: &str,
    name: &str,
) -> Result<Loose, RepositoryError> {
    let folder = if is_of_worktree(name) {
        git_dir
    } else {
        common_dir
    };
    let path = joined(rt.alloc(), folder, name)?;
    match loose_target(rt, path.as_str())? {
        Loose::Missing => match packed_target(rt, common_dir, name)? {
            Some(target) => Ok(Loose::Leads(target)),
            None => Ok(Loose::Missing),
        },
        found => Ok(found),
    }
}

// Returns the target of a name by the packed references. None if they don't have it.
fn packed_target<R: Files + AllocGlobal>(
    rt: &R,
    common_dir: &str,
    name: &str,
) -> Result<Option<Target>, RepositoryError> {
    let path = joined(rt.alloc(), common_dir, "packed-refs")?;
    match read_if_there(rt, path.as_str(), PACKED_LIMIT)? {
        Some(bytes) if is_cut_off(&bytes) => Err(RepositoryError::CutOff { path }),
        Some(bytes) => Ok(packed(&bytes, name.as_bytes()).map(Target::Commit)),
        None => Ok(None),
    }
}

// Returns whether the last line of a text has no end.
fn is_cut_off(text: &[u8]) -> bool {
    match text.last() {
        Some(byte) => *byte != b'\n',
        None => false,
    }
}

// The end of a reference: its target, or why it has none.
#[derive(Drop)]
enum Loose {
    // It isn't there. If that is its own file, the packed references count.
    Missing,
    // It is a link that leads to no file.
    Dangling,
    // It is the file of no reference.
    LeadsNowhere,
    Leads(Target),
}

// Returns what a reference's own file leads to. As in git, a symbolic link whose target is the name of another reference leads to
// that, a folder is no file, and a link that leads to no file leads nowhere.
fn loose_target<R: Files + AllocGlobal>(rt: &R, path: &str) -> Result<Loose, RepositoryError> {
    match link_at(rt, path) {
        Ok(Some(target)) if is_reference(target.as_str()) => {
            Ok(Loose::Leads(Target::Name(target)))
        }
        Ok(link) => target_of_file(rt, path, link.is_some()),
        Err(Unread::System(kind)) if is_missing(kind) => Ok(Loose::Missing),
        Err(why) => Err(unreadable(rt.alloc(), path, why)),
    }
}

// Returns what the file at a path, or at the end of a link there, leads to.
fn target_of_file<R: Files + AllocGlobal>(
    rt: &R,
    path: &str,
    is_link: bool,
) -> Result<Loose, RepositoryError> {
    match read_regular(rt, path, SMALL_LIMIT) {
        Ok(found) => match target_in(rt.alloc(), &found.bytes)? {
            Some(target) => Ok(Loose::Leads(target)),
            None => Ok(Loose::LeadsNowhere),
        },
        Err(Unread::System(kind)) if is_missing(kind) || kind == io::ErrorKind::IsADirectory => {
            if is_link {
                Ok(Loose::Dangling)
            } else {
                Ok(Loose::Missing)
            }
        }
        Err(why) => Err(unreadable(rt.alloc(), path, why)),
    }
}

// Returns whether a worktree has a reference of this name of its own: `HEAD` and its like, and those of a few folders.
fn is_of_worktree(name: &str) -> bool {
    !name.as_bytes().starts_with(REFERENCES)
        || ["refs/bisect/", "refs/worktree/", "refs/rewritten/"]
            .iter()
            .any(|front| name.starts_with(*front))
}

// Returns whether git accepts the name of a reference (git check-ref-format, with one component or more).
fn is_name(name: &str) -> bool {
    name != "@"
        && !name.ends_with('.')
        && !name.contains("..")
        && !name.contains("@{")
        && name.split('/').all(is_component)
}

// Returns whether a text is the name of a reference below `refs/`.
fn is_reference(text: &str) -> bool {
    text.as_bytes().starts_with(REFERENCES) && is_name(text)
}

// Returns whether git accepts a component of a reference's name.
fn is_component(part: &str) -> bool {
    !part.is_empty()
        && !part.starts_with('.')
        && !part.ends_with(".lock")
        && !part.bytes().any(|byte| {
            byte <= b' ' || matches!(byte, 127 | b'~' | b'^' | b':' | b'?' | b'*' | b'[' | b'\\')
        })
}

// Reads a reference's file: the id of a commit, or `ref:` and a name.
fn target_in(alloc: Global, bytes: &[u8]) -> Result<Option<Target>, RepositoryError> {
    let text = before_blanks(bytes);
    match text.strip_prefix(b"ref:") {
        Some(name) => match str::from_utf8(after_blanks(name)) {
            Ok(name) => Ok(Some(Target::Name(String::from_str(alloc, name)?))),
            Err(_) => Err(RepositoryError::IllformedPath {
                path: String::from_utf8_lossy(alloc, name)?,
            }),
        },
        None => Ok(first_id(text).map(Target::Commit)),
    }
}

// Returns the id at the beginning of a text, before its end, a blank or a zero byte. What follows doesn't count.
fn first_id(text: &[u8]) -> Option<ObjectId> {
    let len = text
        .iter()
        .position(|byte| *byte == 0 || *byte == b'\n' || is_blank(*byte))
        .unwrap_or(text.len());
    id_of(text.get(..len)?)
}

// Returns the commit of a name in a file of packed references, whose lines are an id, a blank and a name.
fn packed(bytes: &[u8], name: &[u8]) -> Option<ObjectId> {
    for line in bytes.split(|byte| *byte == b'\n') {
        if let Some(front) = line.strip_suffix(name)
            && let Some(id) = front.strip_suffix(b" ")
        {
            return id_of(id);
        }
    }
    None
}

// Returns the id of these hexadecimal digits, without an allocation.
fn id_of(digits: &[u8]) -> Option<ObjectId> {
    let mut sha1 = [0u8; 20];
    if hex::decode_to_slice(digits, &mut sha1).is_ok() {
        return ObjectId::from_bytes(&sha1);
    }
    let mut sha256 = [0u8; 32];
    hex::decode_to_slice(digits, &mut sha256).ok()?;
    ObjectId::from_bytes(&sha256)
}
