//! The rule that decided the status of a path, in words.

use crate::comparison::{Compared, push_compared};
use crate::explained::Explained;
use crate::sight::LstatCall;
use crate::words::{PathText, mode_words};
use bitflags::Flags as _;
use status_base::worktree::{Metadata, NodeKind};
use status_call::index_as_worktree::{Change, Conflict, EntryStatus, Error};
use status_index::{Flags, Mode};
use std::alloc::{AllocError, Global};

/// Returns the word for the status of a path.
pub(crate) fn status_word(explained: &Explained<'_>) -> &'static str {
    if explained.answer.is_err() {
        return "failed";
    }
    if explained.is_flagged() {
        return "not compared";
    }
    match explained.status() {
        None | Some(EntryStatus::NeedsUpdate(_)) => "unchanged",
        Some(EntryStatus::Conflict { .. }) => "in conflict",
        Some(EntryStatus::IntentToAdd) => "to be added",
        Some(EntryStatus::Change(Change::Removed)) => "deleted",
        Some(EntryStatus::Change(Change::TypeChange { .. })) => "of another type",
        Some(EntryStatus::Change(Change::Modification { .. } | Change::SubmoduleModification(_))) =>
            { "modified" }
    }
}

/// Returns why a path has its status, in sentences without a full stop.
///
/// # Errors
/// Out of memory.
pub(crate) fn reasons(
    alloc: Global,
    explained: &Explained<'_>,
    compared: Compared<'_>,
) -> Result<Vec<String>, AllocError> {
    let mut words = Vec::new(alloc);
    match &explained.answer {
        Err(error) => push_error(alloc, &mut words, error)?,
        Ok(_) if explained.is_flagged() => push_flag(alloc, &mut words, explained.entry.flags)?,
        Ok(_) => push_status(alloc, &mut words, explained, compared)?,
    }
    Ok(words)
}

/// Adds why a path's status failed.
fn push_error(alloc: Global, words: &mut Vec<String>, error: &Error) -> Result<(), AllocError> {
    match error {
        Error::Io(fault) => push(words, format!(in alloc; "it can't be read: {fault}")),
        _ => push(words, format!(in alloc; "{error}")),
    }
}

/// Adds the flag that keeps an entry from being compared.
fn push_flag(alloc: Global, words: &mut Vec<String>, flags: Flags) -> Result<(), AllocError> {
    let flag = flag_words(flags);
    push(
        words,
        format!(in alloc; "its entry is marked as {flag}, so its file isn't checked"),
    )
}

/// Adds why a path has the status that was reported of it, or why none was.
fn push_status(
    alloc: Global,
    words: &mut Vec<String>,
    explained: &Explained<'_>,
    compared: Compared<'_>,
) -> Result<(), AllocError> {
    let mode = explained.entry.mode;
    match explained.status() {
        Some(EntryStatus::Conflict { summary, .. }) => push_conflict(alloc, words, *summary),
        Some(EntryStatus::IntentToAdd) => push_intended(alloc, words),
        Some(EntryStatus::Change(Change::Removed)) => push_removed(alloc, words, explained),
        Some(EntryStatus::Change(Change::TypeChange { worktree_mode })) => {
            push_type(alloc, words, mode, *worktree_mode)
        }
        Some(EntryStatus::Change(Change::SubmoduleModification(()))) => {
            push_other_commit(alloc, words)
        }
        Some(EntryStatus::Change(Change::Modification { .. }) | EntryStatus::NeedsUpdate(_)) => {
            push_compared(alloc, words, explained, compared)
        }
        None if mode.is_submodule() => push_same_commit(alloc, words),
        None => push_trusted(alloc, words),
    }
}

/// Adds the sides of a conflict.
fn push_conflict(
    alloc: Global,
    words: &mut Vec<String>,
    conflict: Conflict,
) -> Result<(), AllocError> {
    let sides = conflict_words(conflict);
    push(
        words,
        format!(in alloc; "the index has a conflict ({sides}), so the worktree isn't asked"),
    )
}

/// Adds that an entry is only intended to be added.
fn push_intended(alloc: Global, words: &mut Vec<String>) -> Result<(), AllocError> {
    push(
        words,
        format!(in alloc;
            "its entry was made by git add -N, so its content isn't in the index yet"
        ),
    )
}

/// Adds that the worktree has another type of node than the index.
fn push_type(
    alloc: Global,
    words: &mut Vec<String>,
    old: Mode,
    new: Mode,
) -> Result<(), AllocError> {
    let (old, new) = (mode_words(old), mode_words(new));
    push(
        words,
        format!(in alloc; "the index has {old}, and in its place is {new}"),
    )
}

/// Adds that a submodule is at another commit.
fn push_other_commit(alloc: Global, words: &mut Vec<String>) -> Result<(), AllocError> {
    push(
        words,
        format!(in alloc; "the submodule's HEAD is another commit than that of the index"),
    )
}

/// Adds that a submodule is unchanged.
fn push_same_commit(alloc: Global, words: &mut Vec<String>) -> Result<(), AllocError> {
    push(
        words,
        format!(in alloc; "the submodule's HEAD is the commit of the index, or it has none"),
    )
}

/// Adds that the stat alone shows that a file is unchanged.
fn push_trusted(alloc: Global, words: &mut Vec<String>) -> Result<(), AllocError> {
    push(
        words,
        format!(in alloc;
            "the index has the same size and times, and is newer than the file, so it isn't read"
        ),
    )
}

/// Adds words, if there was memory for them.
pub(crate) fn push<E: Drop>(
    words: &mut Vec<String>,
    made: Result<String, E>,
) -> Result<(), AllocError> {
    match made {
        Ok(made) => {
            words.push(made)?;
            Ok(())
        }
        Err(_) => Err(AllocError),
    }
}

/// Adds why nothing of the index is at a path.
fn push_removed(
    alloc: Global,
    words: &mut Vec<String>,
    explained: &Explained<'_>,
) -> Result<(), AllocError> {
    let Some(LstatCall { path, found }) = explained.sight.calls.last() else {
        return Ok(());
    };
    let is_above = path.len() < explained.path.as_bytes().len();
    let at = PathText(path);
    match found {
        Ok(node) if is_above && node.kind == NodeKind::Link => {
            push(
                words,
                format!(in alloc; "{at} is a link, and nothing of the index is behind a link"),
            )
        }
        Ok(_) => push(words, format!(in alloc; "a directory is in its place")),
        Err(_) => push(words, format!(in alloc; "nothing is there")),
    }
}

/// Returns the words for the first flag that keeps an entry from being compared, as git's commands name it.
fn flag_words(flags: Flags) -> &'static str {
    if flags.contains(Flags::ASSUME_VALID) {
        "unchanged (git update-index --assume-unchanged)"
    } else if flags.contains(Flags::SKIP_WORKTREE) {
        "not in the worktree (skip-worktree, as a sparse checkout has it)"
    } else if flags.contains(Flags::FSMONITOR_VALID) {
        "unchanged by a file system monitor"
    } else {
        "up to date"
    }
}

/// Returns the words of a conflict, as git status has them.
fn conflict_words(conflict: Conflict) -> &'static str {
    match conflict {
        Conflict::BothDeleted => "both deleted",
        Conflict::AddedByUs => "added by us",
        Conflict::DeletedByThem => "deleted by them",
        Conflict::AddedByThem => "added by them",
        Conflict::DeletedByUs => "deleted by us",
        Conflict::BothAdded => "both added",
        Conflict::BothModified => "both modified",
    }
}
