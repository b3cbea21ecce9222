//! Why a path has its status.

ghost use Rattle.std.specs.Prelude.{◌≡◌, IfOk, is_err};
ghost use Rattle.git_explain.specs.Explained.{has_line};

use crate::recorded::RecordedFile;
use crate::sight::{Sight, UNASKED};
use bstr::BStr;
use git_attributes::CleanFilter;
use git_status::has_difference;
use status_base::worktree::{Fault, ToGit, ToGitOutcome};
use status_call::index_as_worktree::{EntryStatus, Error, Outcome, Recorder};
use status_index::{Entry, ObjectId, Stat, compute_hash};
use std::alloc::{AllocError, Global};

/// Why a path has its status: its sight, and the records and counts of a status by that.
#[derive(Debug, Drop)]
pub struct Explained<'index> {
    /// The path.
    pub path: BStr<'index>,
    /// The first of its entries.
    pub entry: &'index Entry,
    /// The sight.
    pub sight: Sight,
    /// The records of the status.
    pub recorder: Recorder<'index, (), ()>,
    /// The counts of the status, or why it failed.
    pub answer: Result<Outcome, Error>,
    /// The id of the content that was read, as git stores it. None if none was read to its end.
    pub id: Option<ObjectId>,
}

impl<'index> Explained<'index> {
    /// Returns whether the status is that a call wasn't made.
    pub(crate) fn is_unasked(&self) -> bool {
        matches!(&self.answer, Err(Error::Io(fault)) if *fault == UNASKED)
    }

    /// Returns whether the path isn't compared, since a flag of its entry says so.
    pub(crate) fn is_flagged(&self) -> bool {
        match &self.answer {
            Ok(outcome) => {
                outcome.entries_skipped_by_entry_flags > 0 && self.recorder.records.is_empty()
            }
            Err(_) => false,
        }
    }

    /// Returns the status that was reported of the path. None if none was.
    pub(crate) fn status(&self) -> Option<&EntryStatus<(), ()>> {
        match self.recorder.records.as_slice() {
            [record, ..] => Some(&record.status),
            [] => None,
        }
    }

    /// Returns whether the path differs from the index: it has a line in the status.
    pub(crate) fn has_line(&self) -> bool
        ensures { result ≡ has_line self.now }
    {
        has_difference(&self.recorder.records)
    }

    /// Returns whether the status failed.
    pub(crate) fn has_failed(&self) -> bool
        ensures { result ≡ is_err self.now.answer }
    {
        self.answer.is_err()
    }

    /// Returns the stat of the node at the path. None if it isn't known.
    pub(crate) fn stat(&self) -> Option<Stat> {
        let node = self.sight.result_at(self.path.as_bytes()).ok()?;
        node.to_stat().ok()
    }

    /// Returns the same with the id of the content that was read, as this filter converts it.
    ///
    /// # Errors
    /// Out of memory.
    pub(crate) fn with_id(
        mut self,
        alloc: Global,
        filter: &CleanFilter<'_, '_, '_>,
    ) -> Result<Explained<'index>, AllocError>
        ensures { IfOk result (λ x. x ≡ record self.entry { id = x.id }) }
    {
        let id = stored_id(alloc, filter, self.path, &self.sight)?;
        self.id = id;
        Ok(self)
    }
}

/// Returns the id of the content that was read, as git stores it. None if none was read to its end.
///
/// # Errors
/// Out of memory.
fn stored_id(
    alloc: Global,
    filter: &CleanFilter<'_, '_, '_>,
    path: BStr<'_>,
    sight: &Sight,
) -> Result<Option<ObjectId>, AllocError> {
    if let Some(Ok(target)) = &sight.link {
        return Ok(Some(compute_hash(filter.kind, target)));
    }
    let Some(Ok(reading)) = &sight.file else {
        return Ok(None);
    };
    let mut buffer = Vec::new(alloc);
    match filter.convert(RecordedFile::new(reading), path, &mut buffer) {
        Ok(ToGitOutcome::Unchanged(_)) => Ok(Some(compute_hash(filter.kind, &reading.bytes))),
        Ok(ToGitOutcome::Buffer(bytes)) => Ok(Some(compute_hash(filter.kind, bytes))),
        Err(Fault::Memory) => Err(AllocError),
        Err(_) => Ok(None),
    }
}
