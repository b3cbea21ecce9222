//! The next step over the entries: one entry with its decision, or the stages of a conflict.

ghost use Rattle.std.specs.Prelude.{◌≡◌, ◌<◌, List, [], ℕ, None, option_map, take, drop, length, not, IsTrue, IfOk};
ghost use Rattle.std.specs.Option.{option_copied};
ghost use Rattle.bstr.specs.BStr.{bstr_bytes};
ghost use Rattle.status_index.specs.Entries.{IndexEntry, entry_at};
ghost use Rattle.status_call.specs.Conflicts.{kept_of, run_at};
ghost use Rattle.status_call.specs.Considered.{is_flagged, part_entries, is_excluded};
ghost use Rattle.status_compare.specs.Reads.{no_reads, plus_reads};
ghost use Rattle.status_call.specs.Counts.{conflict_counts, decided_counts, no_totals, processed_counts};
ghost use Rattle.status_call.specs.Records.{conflict_status};
ghost use Rattle.status_call.specs.Steps.{IsFresh, IsStep};
ghost use Rattle.status_call.specs.Query.{Query};
ghost use Rattle.status_call.specs.Views.{SeesWithin, View};

use crate::index_as_worktree::considered::Considered;
use crate::index_as_worktree::counts::{Counts, Totals};
use crate::index_as_worktree::types::{Conflict, ConflictIndexEntry, EntryStatus, Error};
use bitflags::Flags as _;
use bstr::BStr;
use status_compare::Reads;
use status_index::{Entry, Flags};
use std::alloc::AllocError;

/// The flags that skip an entry: git takes it to be unchanged, or not to be there.
const SKIP_FLAGS: [Flags; 4] = [
    Flags::UPTODATE,
    Flags::SKIP_WORKTREE,
    Flags::ASSUME_VALID,
    Flags::FSMONITOR_VALID,
];

/// The result of a step: of one entry, or of all stages of a conflict.
#[derive(Debug, Drop)]
pub struct Step<T, U> {
    /// The status of the first of its entries, if one is reported.
    pub status: Option<EntryStatus<T, U>>,
    /// The number of its entries.
    pub len: usize,
    /// The counts.
    pub totals: Totals,
}

/// Returns the step at position `at`: of one entry, or of a conflict's first entry with all its later stages.
///
/// # Errors
/// The error that keeps the entry from being decided.
pub(crate) fn next_step<D: Decide>(
    considered: &Considered<'_>,
    at: usize,
    decider: &mut D,
) -> Result<Step<D::Content, D::Submodule>, Error>
    requires inside { at < length (part_entries considered.now) }
    requires fresh { IsFresh (D.query decider.old) (take at (part_entries considered.now))
        (drop at (part_entries considered.now)) }
    ensures next { IsStep (D.query decider.old) (D.allows decider.old) (part_entries considered.now) at result }
    ensures same { D.query decider.new ≡ D.query decider.old }
    ensures within { SeesWithin (D.allows decider.new) (D.allows decider.old) }
{
    let entry = considered.entry(at);
    let path = considered.path(at);
    if is_flagged(entry) {
        return Ok(skipped_step(1, 0));
    }
    if !decider.includes(entry, path) {
        return Ok(skipped_step(0, 1));
    }
    if entry.stage_raw() != 0 {
        return Ok(conflict_step(considered, at, path));
    }
    match decider.decide(entry, path) {
        Ok(decided) => Ok(decided_step(decided)),
        Err(error) => Err(error),
    }
}

/// Returns whether a flag skips an entry.
fn is_flagged(entry: &Entry) -> bool
    ensures { (path : List ℕ) → result ≡ is_flagged (entry_at path entry.now) }
{
    SKIP_FLAGS.iter().any(|flag| entry.flags.intersects(*flag))
}

/// Returns the step of one entry that is skipped, by its flags or by the pathspec.
fn skipped_step<T: Drop, U: Drop>(by_flags: usize, by_pathspec: usize) -> Step<T, U>
    ensures { result
        ≡ record {
          status = None;
          len = 1;
          totals = record no_totals { counts = processed_counts by_flags by_pathspec };
        } }
{
    let counts = Counts {
        processed: 1,
        skipped_by_flags: by_flags,
        skipped_by_pathspec: by_pathspec,
        ..Counts::none()
    };
    Step {
        status: None,
        len: 1,
        totals: Totals::unread(counts),
    }
}

/// Returns the step of the conflict whose first entry is at position `at` and has this path.
fn conflict_step<T: Drop, U: Drop>(
    considered: &Considered<'_>,
    at: usize,
    path: BStr<'_>,
) -> Step<T, U>
    requires { 0 < length (run_at (part_entries considered.now) at (bstr_bytes path)) }
    ensures status { result.status
        ≡ conflict_status
        (run_at (part_entries considered.now) at (bstr_bytes path.entry)) }
    ensures len { result.len
        ≡ length (run_at (part_entries considered.now) at (bstr_bytes path.entry)) }
    ensures totals { result.totals ≡ record no_totals { counts = conflict_counts } }
{
    let (part, backing) = (considered.part(), considered.backing);
    let Some(found) = Conflict::try_from_entry(part, backing, at, path) else {
        return skipped_step(0, 0);
    };
    let entries = [kept(found.2[0]), kept(found.2[1]), kept(found.2[2])];
    let counts = Counts {
        processed: 1,
        ..Counts::none()
    };
    Step {
        status: Some(EntryStatus::Conflict {
            summary: found.0,
            entries,
        }),
        len: found.1 + 1,
        totals: Totals::unread(counts),
    }
}

/// Returns the part of an entry that a conflict keeps.
fn kept(entry: Option<&Entry>) -> Option<ConflictIndexEntry>
    ensures { result ≡ option_map (λ e. kept_of (entry_at [] e)) (option_copied entry.entry) }
{
    entry.map(ConflictIndexEntry::from)
}

/// Returns the step of one entry that was compared with the worktree.
fn decided_step<T: Drop, U: Drop>(decided: Decided<T, U>) -> Step<T, U>
    ensures status { result.status ≡ decided.status }
    ensures len { result.len ≡ 1 }
    ensures counts { result.totals.counts ≡ decided_counts decided }
    ensures reads { result.totals.reads ≡ plus_reads no_reads decided.reads }
{
    let needs_update = matches!(decided.status, Some(EntryStatus::NeedsUpdate(_)));
    let counts = Counts {
        processed: 1,
        lstat_calls: usize::from(decided.lstat_called),
        racy_clean: usize::from(decided.racy),
        to_update: usize::from(needs_update),
        ..Counts::none()
    };
    Step {
        status: decided.status,
        len: 1,
        totals: Totals {
            counts,
            reads: decided.reads,
        },
    }
}

/// The decision of an entry, with the counts of its work.
#[derive(Drop)]
pub struct Decided<T, U> {
    /// The entry's status. `None` if nothing is reported.
    pub status: Option<EntryStatus<T, U>>,
    /// Whether `lstat` was called on the entry's path.
    pub lstat_called: bool,
    /// Whether the entry, without an executable change, is trusted but racy: its stat may hide a write.
    pub racy: bool,
    /// The counts of reads.
    pub reads: Reads,
}

/// Decides entries, by a query that stays the same, and by what it sees of the worktree.
pub trait Decide {
    ghost use Rattle.status_call.specs.Decisions.{IsDecided};
    ghost use Rattle.status_call.specs.Views.{IsSeenDecided, nothing_seen};

    /// The comparer's report of a change.
    type Content: Drop;
    /// The submodule's report of a change.
    type Submodule: Drop;

    /// All that decisions depend on, if it is modelled.
    ghost query: { Self → Query Self.Content Self.Submodule };

    /// Which views of an entry are allowed.
    ghost allows: { Self → IndexEntry → View Self.Submodule → Type 0 };

    /// Returns the prefix with which the path of each considered entry starts, if the path of any entry does.
    fn common_prefix(&self) -> BStr<'_>
        ensures { bstr_bytes result ≡ (query self.now).prefix };

    /// Returns whether the pathspec includes an entry.
    fn includes(&self, entry: &Entry, path: BStr<'_>) -> bool
        ensures { result
            ≡ not (is_excluded (query self.now) (entry_at (bstr_bytes path.entry) entry.now)) };

    /// Compares an entry of stage 0 with the worktree.
    ///
    /// # Errors
    /// The first error that keeps the entry from being decided.
    fn decide(
        &mut self,
        entry: &Entry,
        path: BStr<'_>,
    ) -> Result<Decided<Self::Content, Self::Submodule>, Error>
        ensures answer { IsTrue (query self.old).modelled
            → IsDecided (query self.old) (entry_at (bstr_bytes path.entry) entry.now) result }
        ensures seen { ∥ IsSeenDecided (allows self.old) (query self.old) (entry_at (bstr_bytes path.entry) entry.now) result ∥₁ }
        ensures same { query self.new ≡ query self.old }
        ensures within { SeesWithin (allows self.new) (allows self.old) };

    /// Returns another decider of the same query, for another worker.
    ///
    /// # Errors
    /// Out of memory.
    fn another(&self) -> Result<Self, AllocError>
        ensures same { IfOk result (λ other. query other ≡ query self.now) }
        ensures within { IfOk result (λ other. SeesWithin (allows other) (allows self.now)) };

    /// It may always be that nothing was seen, since memory ran out.
    ghost free: { (d : Self) (e : IndexEntry) → allows d e nothing_seen };
}
