//! The conflict that the stages of a path name.

ghost use Rattle.std.specs.Prelude.{◌≡◌};
ghost use Rattle.std.specs.Option.{option_copied};
ghost use Rattle.bstr.specs.BStr.{bstr_bytes};
ghost use Rattle.status_index.specs.Entries.{index_entry, index_entries};
ghost use Rattle.status_call.specs.Conflicts.{IsConflict, conflict_named, is_in_run, run_at, stored_of_stage};

use crate::index_as_worktree::types::Conflict;
use bstr::BStr;
use status_index::{Entry, PathStorage};

/// The greatest number of stages of one path in a conflict: base, ours and theirs.
const MAX_STAGES: usize = 3;

impl Conflict {
    /// Returns the conflict that the entries of `entry_path` from `start_index` on name by their stages. Also returns
    /// how many entries follow the first of them, and the entries of stage 1 (base), 2 (ours) and 3 (theirs).
    ///
    /// Reads at most three entries, and stops at the first that has another path or stage 0. Of entries with the same
    /// stage the last is returned, and all are counted. Returns `None` if there is no such entry, also for a
    /// `start_index` past the end.
    pub fn try_from_entry<'e>(
        entries: &'e [Entry],
        path_backing: &PathStorage,
        start_index: usize,
        entry_path: BStr<'_>,
    ) -> Option<(Conflict, usize, [Option<&'e Entry>; 3])>
        ensures { IsConflict (index_entry path_backing.now)
            (run_at (index_entries path_backing.now entries.now)
            start_index (bstr_bytes entry_path.entry)) result }
    {
        let run = conflict_run(entries, path_backing, start_index, entry_path);
        let base = last_of_stage(run, 1);
        let ours = last_of_stage(run, 2);
        let theirs = last_of_stage(run, 3);
        let summary = conflict_named(base.is_some(), ours.is_some(), theirs.is_some())?;
        Some((summary, run.len() - 1, [base, ours, theirs]))
    }
}

/// Returns the conflict of a path, by whether it has stage 1 (base), 2 (ours) and 3 (theirs).
fn conflict_named(base: bool, ours: bool, theirs: bool) -> Option<Conflict>
    ensures { result ≡ conflict_named base ours theirs }
{
    let summary = match (base, ours, theirs) {
        (true, false, false) => Conflict::BothDeleted,
        (false, true, false) => Conflict::AddedByUs,
        (true, true, false) => Conflict::DeletedByThem,
        (false, false, true) => Conflict::AddedByThem,
        (true, false, true) => Conflict::DeletedByUs,
        (false, true, true) => Conflict::BothAdded,
        (true, true, true) => Conflict::BothModified,
        (false, false, false) => return None,
    };
    Some(summary)
}

/// Returns the entries in a row from `start` on, at most three, that have this path and a stage above 0.
fn conflict_run<'e>(
    entries: &'e [Entry],
    backing: &PathStorage,
    start: usize,
    path: BStr<'_>,
) -> &'e [Entry]
    ensures { index_entries backing.now result.now
        ≡ run_at (index_entries backing.now entries.now) start (bstr_bytes path.entry) }
{
    if start >= entries.len() {
        return &entries[..0];
    }
    let rest = &entries[start..];
    let few = &rest[..rest.len().min(MAX_STAGES)];
    for (len, entry) in few.iter().enumerate() {
        if !is_in_run(entry, backing, path) {
            return &few[..len];
        }
    }
    few
}

/// Returns whether an entry has this path and a stage above 0.
fn is_in_run(entry: &Entry, backing: &PathStorage, path: BStr<'_>) -> bool
    ensures { result ≡ is_in_run (bstr_bytes path.entry) (index_entry backing.now entry.now) }
{
    entry.path_in(backing) == path && entry.stage_raw() != 0
}

/// Returns the last of the entries that have this stage.
fn last_of_stage(run: &[Entry], stage: u32) -> Option<&Entry>
    ensures { option_copied result ≡ stored_of_stage run.now stage }
{
    run.iter().rev().find(|entry| entry.stage_raw() == stage)
}
