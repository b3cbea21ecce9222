//! Collectors of the records of a status.

ghost use Rattle.std.specs.Prelude.{◌≡◌, ◌++◌, ◌∷◌, [], List, Some, OnOk, OnErr, slice_get};
ghost use Rattle.bstr.specs.BStr.{bstr_bytes};
ghost use Rattle.status_call.specs.Visits.{Visit, visit};

use crate::index_as_worktree::types::{Change, EntryStatus};
use bstr::BStr;
use status_index::Entry;
use std::alloc::{AllocError, Global};
use std::fmt;
use std::marker::PhantomData;

/// Collects the records of a status, which are reported in ascending order of their entries. The specification of a
/// collector is the list of the records that it got.
pub trait VisitEntry<'index> {
    /// The comparer's report of a change.
    type ContentChange;
    /// The submodule's report of a change.
    type SubmoduleStatus;

    /// The records that it got so far.
    ghost visits: { Self → List (Visit Self.ContentChange Self.SubmoduleStatus) };

    /// Takes the status of `entry`, which is at position `entry_index` of `entries`, the whole index, and has the path
    /// `rela_path`.
    ///
    /// # Errors
    /// Out of memory; then the status wasn't taken.
    fn visit_entry(
        &mut self,
        entries: &'index [Entry],
        entry: &'index Entry,
        entry_index: usize,
        rela_path: BStr<'index>,
        status: EntryStatus<Self::ContentChange, Self::SubmoduleStatus>,
    ) -> Result<(), AllocError>
        requires { slice_get entries.now entry_index ≡ Some entry.now }
        ensures ok { OnOk result
            (visits self.new ≡ visits self.old
            ++ visit entries.now entry.now entry_index (bstr_bytes rela_path.entry) status ∷ []) }
        ensures err { OnErr result (visits self.new ≡ visits self.old) };
}

/// A list of entries that isn't shown in a debug text.
#[derive(Clone, Copy)]
struct Whole<'index>(&'index [Entry]);

impl<'index> fmt::Debug for Whole<'index> {
    fn fmt<X: fmt::Write>(&self, formatter: &mut fmt::Formatter<X>) -> fmt::Result {
        formatter.write_str("[..]")
    }
}

/// One record of a status.
#[derive(Clone, Debug, Drop)]
pub struct Record<'index, T, U> {
    /// The entry.
    pub entry: &'index Entry,
    /// The entry's position in the whole index.
    pub entry_index: usize,
    /// The entry's path.
    pub relative_path: BStr<'index>,
    /// The entry's status.
    pub status: EntryStatus<T, U>,
    /// The list of entries that was passed with it.
    whole: Whole<'index>,
    /// Names the types that a status is made of, since the proof of a drop finds only types that are named.
    parts: PhantomData<(Change<T, U>, Option<T>)>,
}

impl<'index, T, U> Record<'index, T, U> {
    ghost use Rattle.std.specs.Prelude.{◌≡◌};

    /// Returns the list of entries that was passed with the record: the whole index.
    pub fn entries(&self) -> &'index [Entry]
        ensures { result.now ≡ self.now.whole.0.now }
    {
        self.whole.0
    }
}

/// Keeps the records of a status in a list, which is unchanged if an allocation fails.
#[derive(Debug, Drop)]
pub struct Recorder<'index, T, U> {
    /// The records, in ascending order of their entries.
    pub records: Vec<Record<'index, T, U>>,
}

impl<'index, T, U> Recorder<'index, T, U> {
    ghost use Rattle.std.specs.Prelude.{◌≡◌, []};
    ghost use Rattle.status_call.specs.RecorderVisits.{visits_of};

    /// Makes a recorder with no record.
    pub fn new(alloc: Global) -> Recorder<'index, T, U>
        ensures { visits_of result ≡ [] }
    {
        Recorder {
            records: Vec::new(alloc),
        }
    }
}

impl<'index, T: Drop, U: Drop> VisitEntry<'index> for Recorder<'index, T, U> {
    ghost use Rattle.std.specs.Prelude.{◌≡◌, ◌++◌, ◌∷◌, [], Some, OnOk, OnErr, slice_get};
    ghost use Rattle.bstr.specs.BStr.{bstr_bytes};
    ghost use Rattle.status_call.specs.RecorderVisits.{visits_of};
    ghost use Rattle.status_call.specs.Visits.{visit};

    type ContentChange = T;

    type SubmoduleStatus = U;

    ghost visits = { visits_of };

    fn visit_entry(
        &mut self,
        entries: &'index [Entry],
        entry: &'index Entry,
        entry_index: usize,
        rela_path: BStr<'index>,
        status: EntryStatus<T, U>,
    ) -> Result<(), AllocError>
        requires { slice_get entries.now entry_index ≡ Some entry.now }
        ensures ok { OnOk result
            (visits_of self.new ≡ visits_of self.old
            ++ visit entries.now entry.now entry_index (bstr_bytes rela_path.entry) status ∷ []) }
        ensures err { OnErr result (visits_of self.new ≡ visits_of self.old) }
    {
        self.records.push(Record {
            entry,
            entry_index,
            relative_path: rela_path,
            status,
            whole: Whole(entries),
            parts: PhantomData,
        })?;
        Ok(())
    }
}
