//! Statuses by ids, and checks of their reports.

use crate::support::inputs::stat;
use crate::support::prelude::*;
use gix_status::index::{HashKind, compute_hash};
use gix_status::index_as_worktree::traits::HashEq;
use gix_status::index_as_worktree::{Change, EntryStatus, Error, Options, Outcome, Record};
use status_callers::statuses::{StatusReport, options, request_with, status_of};

/// Returns the usual options, with pieces of so many entries and this limit of threads.
pub fn by_pieces(chunk_size: usize, thread_limit: Option<usize>) -> Options {
    Options {
        chunk_size,
        thread_limit,
        ..options()
    }
}

/// Calls the status by ids for all paths without a filter, with pieces of so many entries and at most so many workers.
pub fn status_by_pieces<'index, R: AllocGlobal + Threads + Wait, W: Worktree + Sync>(
    rt: &R,
    index: &'index State,
    worktree: &W,
    chunk_size: usize,
    workers: usize,
) -> StatusReport<'index, ObjectId, ()>
where
    W::File: Send,
{
    let request = request_with(rt.alloc(), by_pieces(chunk_size, Some(workers)));
    status_of(rt, index, worktree, HashEq, request)
}

/// The status of an entry whose size isn't set to 0.
#[derive(Clone, Copy)]
pub enum Says<'a> {
    /// No file is there.
    Removed,
    /// The file has this content, which is another one.
    Changed(&'a [u8]),
    /// Only its executability changed.
    Executable,
    /// The file has the same content of three bytes, and was written after the entry was staged.
    Updated,
}

/// The index position of a record, its path, and its status.
pub type Wanted<'a> = (usize, &'a str, Says<'a>);

/// Returns whether these are all the records of a status.
pub fn are_records(records: &[Record<'_, ObjectId, ()>], wanted: &[Wanted<'_>]) -> bool {
    if records.len() != wanted.len() {
        return false;
    }
    for (record, (place, path, says)) in records.iter().zip(wanted) {
        if !is_at(record, *place, *path) || !is_said(&record.status, *says) {
            return false;
        }
    }
    true
}

/// Returns whether a record is of the entry at this index position and path.
pub fn is_at<T, U>(record: &Record<'_, T, U>, place: usize, path: &str) -> bool {
    record.entry_index == place && record.relative_path.as_bytes() == path.as_bytes()
}

/// Executability changed, and nothing else.
const EXECUTABLE: Change<ObjectId, ()> = Change::Modification {
    executable_bit_changed: true,
    content_change: None,
    set_entry_stat_size_zero: false,
};

/// Returns whether this is the status of an entry.
pub fn is_said(status: &EntryStatus<ObjectId, ()>, says: Says<'_>) -> bool {
    match (says, status) {
        (Says::Removed, EntryStatus::Change(Change::Removed)) => true,
        (Says::Changed(content), _) => is_changed(status, &compute_hash(HashKind::Sha1, content)),
        (Says::Executable, EntryStatus::Change(change)) => *change == EXECUTABLE,
        (Says::Updated, EntryStatus::NeedsUpdate(found)) => *found == stat(LATER),
        _ => false,
    }
}

/// Returns whether a status reports nothing but other content, with this result of its comparer.
pub fn is_changed<T: PartialEq, U>(status: &EntryStatus<T, U>, content: &T) -> bool {
    match status {
        EntryStatus::Change(
            Change::Modification {
                executable_bit_changed: false,
                content_change: Some(found),
                set_entry_stat_size_zero: false,
            },
        ) => *found == *content,
        _ => false,
    }
}

/// Returns the outcome of a status that calls `lstat` for so many entries, and reads no file.
pub fn found(entries: usize) -> Outcome {
    Outcome {
        entries_to_process: entries,
        entries_processed: entries,
        symlink_metadata_calls: entries,
        ..Outcome::default()
    }
}

/// Returns the outcome of a status that calls `lstat` for so many entries, and reads so many files with so many bytes
/// in all.
pub fn read(entries: usize, files: usize, bytes: u64) -> Outcome {
    Outcome {
        worktree_files_read: files,
        worktree_bytes: bytes,
        ..found(entries)
    }
}

/// Returns the same outcome, with so many entries whose stat is to be updated.
pub fn updated(updates: usize, outcome: Outcome) -> Outcome {
    Outcome {
        entries_to_update: updates,
        ..outcome
    }
}

/// Returns whether a status succeeded with this outcome.
pub fn is_taken(answer: &Result<Outcome, Error>, wanted: &Outcome) -> bool {
    match answer {
        Ok(outcome) => *outcome == *wanted,
        Err(_) => false,
    }
}

/// Returns whether a status failed by this fault of a worktree or a filter. Two faults have errors of their own.
fn is_failed_by(answer: &Result<Outcome, Error>, fault: Fault) -> bool {
    match answer {
        Err(Error::IllformedUtf8) => fault == Fault::IllformedUtf8,
        Err(Error::Memory) => fault == Fault::Memory,
        Err(Error::Io(found)) => {
            *found == fault && fault != Fault::IllformedUtf8 && fault != Fault::Memory
        }
        _ => false,
    }
}

/// Returns whether a status has these records, and ends with this outcome or fault.
pub fn is_report(
    report: &StatusReport<'_, ObjectId, ()>,
    wanted: &[Wanted<'_>],
    end: &Result<Outcome, Fault>,
) -> bool {
    let is_ended = match end {
        Ok(outcome) => is_taken(&report.answer, outcome),
        Err(fault) => is_failed_by(&report.answer, *fault),
    };
    is_ended && are_records(&report.records, wanted)
}
