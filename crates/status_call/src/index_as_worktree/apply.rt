//! The changes that a status asks for in the index, and how a caller stores them. A caller that refreshes an index
//! takes the changes of a recorder, applies them, and then sets a later timestamp of the index.

ghost use Rattle.std.specs.Prelude.{◌≡◌, ◌<◌, IfOk, length};
ghost use Rattle.status_index.specs.States.{backing_of, index_of, timestamp_of};
ghost use Rattle.status_call.specs.IndexChanges.{AreInside, DifferInStats, applied, applied_one, change_of, changes_of, entry_index_of};
ghost use Rattle.status_call.specs.RecorderVisits.{visits_of};

use crate::index_as_worktree::recorder::Recorder;
use crate::index_as_worktree::types::{Change, EntryStatus};
use status_index::{Stat, State};
use std::alloc::AllocError;

/// A change that a status asks for, of the entry at a position of the index.
#[derive(Clone, Copy, Debug, PartialEq, Eq)]
pub enum ApplyChange {
    /// The entry's content is as staged, so its stat becomes this one.
    NewStat(usize, Stat),
    /// The entry's stat would hide a change, so its size becomes 0. The next status then reads the file.
    SetSizeToZero(usize),
}

impl<T, U> EntryStatus<T, U> {
    /// Returns the change that this status of the entry at `entry_index` asks for, if any.
    pub fn apply_change(&self, entry_index: usize) -> Option<ApplyChange>
        ensures { result ≡ change_of entry_index self.now }
    {
        match self {
            EntryStatus::NeedsUpdate(stat) => Some(ApplyChange::NewStat(entry_index, *stat)),
            EntryStatus::Change(
                Change::Modification {
                    set_entry_stat_size_zero: true,
                    ..
                },
            ) => Some(ApplyChange::SetSizeToZero(entry_index)),
            _ => None,
        }
    }
}

impl<'index, T, U> Recorder<'index, T, U> {
    /// Returns the changes that the recorded status asks for, in index order.
    ///
    /// # Errors
    /// Out of memory.
    pub fn changes(&self) -> Result<Vec<ApplyChange>, AllocError>
        ensures { IfOk result (λ changes. changes.items ≡ changes_of (visits_of self.now)) }
    {
        let mut changes = Vec::new(*self.records.allocator());
        for record in &self.records {
            if let Some(change) = record.status.apply_change(record.entry_index) {
                changes.push(change)?;
            }
        }
        Ok(changes)
    }
}

/// Stores in an index the changes that a status asked for. Only stats change: no other part of an entry, and not the
/// timestamp. The caller then sets the timestamp to the time of the status. Otherwise a stat whose mtime isn't before
/// the old timestamp stays racy, and the next status reads its file.
pub fn apply_changes(index: &mut State, changes: &[ApplyChange])
    requires inside { AreInside changes.now (index_of index.old) }
    ensures index { index_of index.new ≡ applied changes.now (index_of index.old) }
    ensures stats { DifferInStats (index_of index.new) (index_of index.old) }
    ensures storage { backing_of index.new ≡ backing_of index.old }
    ensures timestamp { timestamp_of index.new ≡ timestamp_of index.old }
{
    for change in changes {
        apply_one(index, change);
    }
}

/// Stores one change.
fn apply_one(index: &mut State, change: &ApplyChange)
    requires { entry_index_of change.now < length (index_of index.old) }
    ensures index { index_of index.new ≡ applied_one change.now (index_of index.old) }
    ensures storage { backing_of index.new ≡ backing_of index.old }
    ensures timestamp { timestamp_of index.new ≡ timestamp_of index.old }
{
    match change {
        ApplyChange::NewStat(at, stat) => index.set_stat(*at, *stat),
        ApplyChange::SetSizeToZero(at) => index.smudge(*at),
    }
}
