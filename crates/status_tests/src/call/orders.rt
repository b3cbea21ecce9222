//! The orders of public types whose contracts don't state which of two values is less: by fields or variants, in order.
//! In most rows only one field isn't 0, so that each step shows which of two fields comes first.

use crate::support::prelude::*;
use Conflict::{
    AddedByThem, AddedByUs, BothAdded, BothDeleted, BothModified, DeletedByThem, DeletedByUs,
};
use EntryKind::{Blob, BlobExecutable, Commit, Link, Tree};
use gix_status::index::{EntryKind, Flags, HashKind, Stat, compute_hash};
use gix_status::index_as_worktree::{Change, Conflict, ConflictIndexEntry, EntryStatus, Outcome};
use std::cmp::Ordering;

fn is_below<T: Ord>(value: &T, other: &T) -> bool {
    value.cmp(other) == Ordering::Less
}

/// Returns whether each value is below the next.
fn are_ascending<T: Ord>(values: &[T]) -> bool {
    for (value, next) in values.iter().zip(values.iter().skip(1)) {
        if !is_below(value, next) {
            return false;
        }
    }
    true
}

/// Returns what a conflict keeps of an entry. In order of their ids, `foo` is before `bar`.
fn kept(content: &[u8], stage: u32, mode: Mode) -> ConflictIndexEntry {
    ConflictIndexEntry {
        id: compute_hash(HashKind::Sha1, content),
        flags: Flags::from_stage(stage),
        mode,
    }
}

#[test]
fn words_are_ordered_as_they_are_declared(rt: HostRuntime) {
    assert!(rt; are_ascending(&[HashKind::Sha1, HashKind::Sha256]));
    assert!(rt; are_ascending(&[Tree, Blob, BlobExecutable, Link, Commit]));
    assert!(rt; are_ascending(&[BothDeleted, AddedByUs, DeletedByThem, AddedByThem]));
    assert!(rt; are_ascending(&[AddedByThem, DeletedByUs, BothAdded, BothModified]));
}

#[test]
fn kept_entries_are_ordered_by_id_flags_and_mode(rt: HostRuntime) {
    let entries = [
        kept(b"foo", 1, Mode::File),
        kept(b"foo", 1, Mode::Symlink),
        kept(b"foo", 2, Mode::File),
        kept(b"bar", 1, Mode::File),
    ];
    assert!(rt; are_ascending(&entries));
}

/// Returns the outcome in which one field is 1 and all others are 0. `place` counts the fields from the last; with 0,
/// all are 0.
fn outcome_at(place: usize) -> Outcome {
    Outcome {
        interrupted: place == 1,
        odb_objects_read: usize::from(place == 2),
        odb_bytes: u64::from(place == 3),
        worktree_files_read: usize::from(place == 4),
        worktree_bytes: u64::from(place == 5),
        racy_clean: usize::from(place == 6),
        entries_to_update: usize::from(place == 7),
        symlink_metadata_calls: usize::from(place == 8),
        entries_skipped_by_entry_flags: usize::from(place == 9),
        entries_skipped_by_pathspec: usize::from(place == 10),
        entries_skipped_by_common_prefix: usize::from(place == 11),
        entries_processed: usize::from(place == 12),
        entries_to_process: usize::from(place == 13),
    }
}

fn modified(executable: bool, content_change: Option<u32>, to_zero: bool) -> Change<u32, u32> {
    Change::Modification {
        executable_bit_changed: executable,
        content_change,
        set_entry_stat_size_zero: to_zero,
    }
}

/// Returns the change at this position, of ten in order.
fn change_at(place: usize) -> Change<u32, u32> {
    match place {
        0 => Change::Removed,
        1 => Change::TypeChange {
            worktree_mode: Mode::File,
        },
        2 => Change::TypeChange {
            worktree_mode: Mode::Symlink,
        },
        3 => modified(false, None, false),
        4 => modified(false, None, true),
        5 => modified(false, Some(0), false),
        6 => modified(false, Some(1), false),
        7 => modified(true, None, false),
        8 => Change::SubmoduleModification(0),
        _ => Change::SubmoduleModification(1),
    }
}

/// Returns a conflict with one entry.
fn conflict(summary: Conflict, stage: usize) -> EntryStatus<u32, u32> {
    let mut entries = [None, None, None];
    if 0 < stage && stage < 4 {
        entries[stage - 1] = Some(kept(b"foo", 1, Mode::File));
    }
    EntryStatus::Conflict { summary, entries }
}

/// Returns the status at this position, of eight in order.
fn status_at(place: usize) -> EntryStatus<u32, u32> {
    let later = Stat {
        size: 1,
        ..Stat::default()
    };
    match place {
        0 => conflict(BothDeleted, 3),
        1 => conflict(BothDeleted, 1),
        2 => conflict(AddedByUs, 3),
        3 => EntryStatus::Change(Change::Removed),
        4 => EntryStatus::Change(Change::SubmoduleModification(0)),
        5 => EntryStatus::NeedsUpdate(Stat::default()),
        6 => EntryStatus::NeedsUpdate(later),
        _ => EntryStatus::IntentToAdd,
    }
}

#[test]
fn outcomes_changes_and_statuses_are_ordered_by_variants_and_fields(rt: HostRuntime) {
    assert!(rt; outcome_at(0) == Outcome::default());
    for at in 0..13usize {
        let next = at.saturating_add(1);
        assert!(rt; is_below(&outcome_at(at), &outcome_at(next)), "at {at}");
        assert!(rt;
            at > 8 || is_below(&change_at(at), &change_at(next)),
            "at {at}"
        );
        assert!(rt;
            at > 6 || is_below(&status_at(at), &status_at(next)),
            "at {at}"
        );
    }
}
