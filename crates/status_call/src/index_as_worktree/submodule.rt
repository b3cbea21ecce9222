//! The status of a submodule's entry.

ghost use Rattle.std.specs.Prelude.{◌≡◌, ℕ, List, Option, Result, IsTrue};
ghost use Rattle.bstr.specs.BStr.{bstr_bytes};
ghost use Rattle.status_index.specs.Entries.{IndexEntry, entry_at};
ghost use Rattle.status_compare.specs.Reading.{IsSpecified};
ghost use Rattle.status_call.specs.EntrySights.{IsSubmoduleSeen};
ghost use Rattle.status_call.specs.Status.{answer, in_submodule};

use crate::index_as_worktree::types::{Change, EntryStatus, Error};
use bstr::BStr;
use status_base::worktree::{ByteText, SubmoduleFault, SubmoduleStatus};
use status_index::Entry;
use std::alloc::Global;

/// Returns the status of a submodule's entry whose directory is there.
///
/// # Errors
/// The submodule's error, with the entry's path, or out of memory.
pub(crate) fn submodule_status<T, S: SubmoduleStatus>(
    alloc: Global,
    submodule: &mut S,
    entry: &Entry,
    path: BStr<'_>,
) -> Result<Option<EntryStatus<T, S::Output>>, Error>
    ensures answer { let e = entry_at (bstr_bytes path.entry) entry.now in
        IsTrue (S.modelled submodule.old)
        → IsSpecified (answer {T = T} e.path (in_submodule (S.status_of submodule.old e))) result }
    ensures seen { IsSubmoduleSeen (S.may_report submodule.old (entry_at (bstr_bytes path.entry) entry.now)) (bstr_bytes path.entry) result }
    ensures within { (e : IndexEntry) (report : Result (Option S.Output) (List ℕ)) → S.may_report submodule.new e report → S.may_report submodule.old e report }
    ensures same { S.status_of submodule.new ≡ S.status_of submodule.old }
    ensures modelled { S.modelled submodule.new ≡ S.modelled submodule.old }
{
    match submodule.status(entry, path) {
        Ok(None) => Ok(None),
        Ok(Some(change)) => {
            let change = Change::SubmoduleModification(change);
            Ok(Some(EntryStatus::Change(change)))
        }
        Err(SubmoduleFault::Failed { text }) => {
            let rela_path = ByteText::from_slice(alloc, path.as_bytes())?;
            Err(Error::SubmoduleStatus { rela_path, text })
        }
        Err(SubmoduleFault::Memory) => Err(Error::Memory),
    }
}
