//! Reports as lines of text.

use crate::support::prelude::*;
use status_call::index_as_worktree::{Change, EntryStatus};
use status_joined::index_as_worktree_with_renames::{Entry, Error, Outcome};
use std::fmt::Debug;

/// Returns a line for each record, in order: its index position or `-`, its summary or the change of a submodule, the status
/// of an untracked file, and its path. A rename or a copy has both paths, and says whether the file's id is null.
pub fn lines_of<U: Debug>(
    alloc: Global,
    records: &[Entry<'_, ObjectId, U>],
) -> Result<String, AllocError> {
    let mut text = String::new(alloc);
    for record in records {
        text.push_str(&line(alloc, record)?)?;
    }
    Ok(text)
}

fn line<U: Debug>(alloc: Global, record: &Entry<'_, ObjectId, U>) -> Result<String, AllocError> {
    let word = match record.summary() {
        Some(summary) => format!(in alloc; "{summary:?}")?,
        None => String::from_str(alloc, "none")?,
    };
    let (source, destination) = (record.source_rela_path(), record.destination_rela_path());
    match record {
        Entry::Modification {
            entry_index,
            status: EntryStatus::Change(Change::SubmoduleModification(change)),
            ..
        } => format!(in alloc; "{entry_index} {change:?} {source}\n"),
        Entry::Modification { entry_index, .. } => {
            format!(in alloc; "{entry_index} {word} {source}\n")
        }
        Entry::DirectoryContents { entry, .. } => {
            format!(in alloc; "- {word} {:?} {source}\n", entry.status)
        }
        Entry::Rewrite {
            dirwalk_entry_id,
            ..
        } => {
            let id = if dirwalk_entry_id.is_null() {
                " null"
            } else {
                ""
            };
            format!(in alloc; "- {word} {source} {destination}{id}\n")
        }
    }
}

/// Returns the line of a call's result: how many entries were processed and how often `lstat` was called on one, if the
/// call was interrupted; how many nodes the walk passed, and whether it was cancelled; how many renames and copies there
/// are. Or the error.
pub fn end_of(alloc: Global, answer: &Result<Outcome, Error>) -> Result<String, AllocError> {
    let outcome = match answer {
        Ok(outcome) => outcome,
        Err(error) => return format!(in alloc; "{error:?}"),
    };
    let tracked = &outcome.tracked_file_modification;
    let lstats = tracked.symlink_metadata_calls;
    let cut = tracked
        .interrupted
        .then_some((tracked.entries_processed, lstats));
    let walk = match &outcome.dirwalk {
        Some(walk) => Some((walk.emitted, walk.cancelled)),
        None => None,
    };
    let pairs = match &outcome.rewrites {
        Some(pairs) => Some((pairs.renames, pairs.copies)),
        None => None,
    };
    format!(in alloc; "cut {cut:?}, walk {walk:?}, pairs {pairs:?}")
}
