//! The entries of an index that a request compares.

use crate::head::{HeadCommit, files_of};
use crate::refused::{PathRefusal, Refused};
use crate::selected::{Selected, elements_of};
use bitflags::Flags as _;
use bstr::{BStr, BString};
use git_repository::IgnoredSubmodules;
use git_status::Paths;
use status_base::stack::{StackError, SymlinkCheck};
use status_base::worktree::{NodeKind, Pathspec, Worktree};
use status_index::{Entry, Flags, State};
use std::alloc::{AllocError, Global};
use std::os::unix::fs::FileExt;
use std::rt::{Env, Files};

/// The flags of entries that aren't compared.
const SKIPPED: [Flags; 4] = [
    Flags::UPTODATE,
    Flags::SKIP_WORKTREE,
    Flags::ASSUME_VALID,
    Flags::FSMONITOR_VALID,
];

/// The selected entries of an index that aren't compared as others are. Each is in a list of its own.
#[derive(Drop)]
pub(crate) struct Exceptions {
    /// Those that aren't compared: ignored submodules that aren't folders or are to be added, and those of `illformed`.
    pub(crate) left_out: State,
    /// Those of `git add -N`.
    pub(crate) intended: State,
    /// The paths that aren't UTF-8. The kit's paths are text, so the system can't be asked for such a file.
    pub(crate) illformed: Vec<Vec<u8>>,
}

/// Checks that something is at each path that a word names, or was when it was staged or committed: an entry is at it or below
/// it, a node is in the worktree, or HEAD's commit has a file. Words that are patterns or exclude may select nothing.
///
/// # Errors
/// Nothing is at one, HEAD's files can't be read, or out of memory.
pub(crate) fn check_each<R: AllocGlobal + Env + Files, W: Worktree>(
    alloc: Global,
    index: &State,
    worktree: &W,
    head: &Option<HeadCommit<'_, R>>,
    selected: &[Selected<'_>],
) -> Result<(), Refused>
where
    R::File: FileExt,
{
    let mut files = None;
    for one in selected {
        if !one.names_one() || has_entry(alloc, index, one)? || has_node(worktree, one) {
            continue;
        }
        let committed = files_of(alloc, head, files)?;
        let is_there = has_entry(alloc, &committed, one)?;
        if !is_there {
            return Err(Refused::path(alloc, one.word, PathRefusal::Unmatched));
        }
        files = Some(committed);
    }
    Ok(())
}

/// Returns the paths that words name, and at which and below which an index has no entry.
///
/// # Errors
/// Out of memory.
pub(crate) fn untracked_of<'a>(
    alloc: Global,
    index: &State,
    selected: &'a [Selected<'_>],
) -> Result<Vec<&'a str>, AllocError> {
    let mut untracked = Vec::new(alloc);
    for one in selected {
        if one.names_one() && !has_entry(alloc, index, one)? {
            untracked.push(one.path())?;
        }
    }
    Ok(untracked)
}

/// Returns whether a node is at a path, and a folder if only that is selected.
fn has_node<W: Worktree>(worktree: &W, one: &Selected<'_>) -> bool {
    match worktree.lstat(BStr::new(one.path().as_bytes())) {
        Ok(node) => !one.is_folder() || node.kind == NodeKind::Directory,
        Err(_) => false,
    }
}

/// Returns whether an entry is at a path or below it. At the path it has to be a submodule's if only a folder is selected.
pub(crate) fn has_entry(
    alloc: Global,
    index: &State,
    one: &Selected<'_>,
) -> Result<bool, AllocError> {
    let path = BStr::new(one.path().as_bytes());
    let mut there = index.entries_at(path).iter();
    if there.any(|entry| !one.is_folder() || entry.mode.is_submodule()) {
        return Ok(true);
    }
    let mut below = Vec::from_slice(alloc, path.as_bytes())?;
    below.push(b'/')?;
    Ok(
        index
            .prefixed_entries_range(BStr::new(below.as_slice()))
            .is_some(),
    )
}

impl Exceptions {
    /// Returns the exceptions among the entries of an index that are selected.
    ///
    /// # Errors
    /// Out of memory.
    pub(crate) fn of<W: Worktree>(
        alloc: Global,
        index: &State,
        worktree: &W,
        selected: &[Selected<'_>],
        ignored: &IgnoredSubmodules,
    ) -> Result<Exceptions, AllocError> {
        let nothing = State::new(alloc, index.timestamp());
        let elements = elements_of(alloc, selected)?;
        let paths = Paths {
            elements: &elements,
            left_out: &nothing,
        };
        let mut check = SymlinkCheck::new(alloc, BString::new(Vec::new(alloc)));
        let mut found = Exceptions {
            left_out: State::new(alloc, index.timestamp()),
            intended: State::new(alloc, index.timestamp()),
            illformed: Vec::new(alloc),
        };
        for entry in index.entries() {
            let path = entry.path_in(index.path_backing());
            let is_submodule = entry.mode.is_submodule();
            if !is_plain(entry, path) && is_compared(entry) && paths.includes(path, is_submodule) {
                let is_ignored = is_submodule && ignored.contains(path);
                let is_intended = entry.flags.contains(Flags::INTENT_TO_ADD);
                if str::from_utf8(path.as_bytes()).is_err() {
                    found
                        .illformed
                        .push(Vec::from_slice(alloc, path.as_bytes())?)?;
                    put(&mut found.left_out, entry, path)?;
                } else if is_ignored && (is_intended || is_gone(&mut check, worktree, path)) {
                    put(&mut found.left_out, entry, path)?;
                } else if is_intended {
                    put(&mut found.intended, entry, path)?;
                }
            }
        }
        Ok(found)
    }
}

/// Returns whether an entry is in no list of exceptions, whatever is selected. Most are, so this is asked first.
fn is_plain(entry: &Entry, path: BStr<'_>) -> bool {
    !entry.mode.is_submodule()
        && !entry.flags.contains(Flags::INTENT_TO_ADD)
        && path.as_bytes().is_ascii()
}

/// Returns whether an entry is compared with the worktree: it isn't skipped, and isn't in conflict.
fn is_compared(entry: &Entry) -> bool {
    entry.stage_raw() == 0 && !SKIPPED.iter().any(|flag| entry.flags.contains(*flag))
}

/// Returns whether no folder is at a path, or a link is on the way to it. A path that isn't normal is left to the status, which
/// refuses it.
fn is_gone<W: Worktree>(check: &mut SymlinkCheck, worktree: &W, path: BStr<'_>) -> bool {
    match check.verified_path(worktree, path) {
        Ok(_) => { !matches!(worktree.lstat(path), Ok(node) if node.kind == NodeKind::Directory) }
        Err(StackError::ThroughLink { .. } | StackError::Fault(_)) => true,
        Err(_) => false,
    }
}

/// Adds an entry with its path to a list.
pub(crate) fn put(list: &mut State, entry: &Entry, path: BStr<'_>) -> Result<(), AllocError> {
    match list.push_entry(entry.stat, entry.id, entry.flags, entry.mode, path) {
        Ok(()) => Ok(()),
        Err(_) => Err(AllocError),
    }
}
