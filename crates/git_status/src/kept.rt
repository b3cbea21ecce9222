//! The changes of an index that a refresh makes, and the bytes of the index file with them.

ghost use Rattle.std.specs.Prelude.{IfOk, map, ◌≡◌, ◌<◌, ◌^◌, ◌&&◌, ◌==◌, not, true, false};
ghost use Rattle.git_attributes.specs.Views.{attributes_view};
ghost use Rattle.status_call.specs.RecorderVisits.{visit_of};
ghost use Rattle.git_status.specs.Kept.{AreKept};
ghost use Rattle.std.specs.List.{AllByRecursion};
ghost use Rattle.status_index.specs.Entries.{IsIndex};
ghost use Rattle.status_index.specs.States.{index_of};
ghost use Rattle.status_call.specs.IndexChanges.{AreInside, applied};
ghost use Rattle.status_call.specs.Counts.{skipped_of};
ghost use Rattle.git_index.specs.File.{IsFileOf};
ghost use Rattle.git_index.specs.RawEntry.{FixedFits};
ghost use Rattle.git_index.specs.WholeFile.{IsWholeFile};
ghost use Rattle.git_index.specs.Writing.{file_bytes};

use crate::notes::is_left_out;
use git_attributes::{Attributes, Configured};
use git_index::IndexFile;
use status_call::index_as_worktree::{ApplyChange, Outcome, Record, apply_changes};
use status_index::{Stat, State};
use std::alloc::{AllocError, Global};

/// The changes that a refresh makes.
#[derive(Debug, Drop)]
pub struct Kept {
    /// The changes, in index order.
    pub changes: Vec<ApplyChange>,
    /// Whether no record was left out.
    pub are_all: bool,
}

/// Returns the changes that records ask for, except those of files for which a conversion is asked that isn't made.
///
/// # Errors
/// Out of memory.
pub(crate) fn kept_changes<T: Drop, U: Drop>(
    alloc: Global,
    attributes: &Attributes<'_>,
    configured: Configured,
    records: &[Record<'_, T, U>],
) -> Result<Kept, AllocError>
    ensures { IfOk result (AreKept (attributes_view attributes.now, configured) (map visit_of records.now)) }
{
    let mut changes = Vec::new(alloc);
    let mut are_all = true;
    for record in records {
        if is_left_out(alloc, attributes, configured, record)? {
            are_all = false;
        } else if let Some(change) = record.status.apply_change(record.entry_index) {
            changes.push(change)?;
        }
    }
    Ok(Kept { changes, are_all })
}

/// Returns whether no record was left out, no entry was skipped, and the status didn't end early.
pub(crate) fn has_all(are_all: bool, outcome: &Outcome) -> bool
    requires { skipped_of outcome.now < 2 ^ 64 }
    ensures { result ≡ (are_all && (skipped_of outcome.now == 0 && not outcome.now.interrupted)) }
{
    are_all && outcome.skipped() == 0 && !outcome.interrupted
}

/// Stores changes in an index file, and returns its bytes.
pub(crate) fn changed_bytes(
    alloc: Global,
    file: &mut IndexFile<'_>,
    changes: &[ApplyChange],
) -> Result<Vec<u8>, AllocError>
    requires whole { IsWholeFile file.old }
    requires inside { AreInside changes.now (index_of file.old.state) }
    ensures bytes { IfOk result (λ v. v.items ≡ file_bytes file.old.kind file.old.version (applied changes.now (index_of file.old.state)) file.old.extensions.now file.old.has_checksum) }
    ensures file { IfOk result (λ v. IsFileOf file.old.kind v.items file.old.version (applied changes.now (index_of file.old.state)) file.old.extensions.now) }
    ensures valid { IfOk result (λ v. IsIndex (applied changes.now (index_of file.old.state))) }
{
    apply_changes(&mut file.state, changes);
    all_fit(&file.state);
    file.to_bytes(alloc)
}

/// States that a number has its width. It does nothing, as `fits` and `all_fit` do.
fn bounded(number: u32)
    ensures { number < 2 ^ 32 }
{}

/// States that each number of a stat has its width.
fn fits(stat: &Stat)
    ensures { FixedFits stat.now }
{
    bounded(stat.mtime.secs);
    bounded(stat.mtime.nsecs);
    bounded(stat.ctime.secs);
    bounded(stat.ctime.nsecs);
    bounded(stat.dev);
    bounded(stat.ino);
    bounded(stat.uid);
    bounded(stat.gid);
    bounded(stat.size);
}

/// States that each number of each entry's stat has its width, and that the index is valid.
fn all_fit(state: &State)
    ensures widths { AllByRecursion (λ e. FixedFits e.stat) (index_of state.now) }
    ensures valid { IsIndex (index_of state.now) }
{
    for entry in state.entries() {
        fits(&entry.stat);
    }
}
