//! A collector that stops at the first entry that differs.

ghost use Rattle.std.specs.Prelude.{◌≡◌, ◌++◌, ◌∷◌, [], Some, OnOk, OnErr, slice_get};
ghost use Rattle.bstr.specs.BStr.{bstr_bytes};

use crate::lines::letters;
use bstr::BStr;
use status_call::index_as_worktree::{EntryStatus, Recorder, VisitEntry};
use status_index::Entry;
use std::alloc::AllocError;
use std::sync::atomic::{AtomicBool, Ordering};

/// Keeps the records of a status, and sets an interrupt flag at the first entry that differs.
#[derive(Drop)]
pub struct Watcher<'a, 'index, T, U> {
    /// The records.
    pub recorder: Recorder<'index, T, U>,
    /// The flag, if there is one.
    pub stop: Option<&'a AtomicBool>,
}

impl<'a, 'index, T: Drop, U: Drop> VisitEntry<'index> for Watcher<'a, 'index, T, U> {
    ghost use Rattle.std.specs.Prelude.{◌≡◌, ◌++◌, ◌∷◌, [], Some, OnOk, OnErr, slice_get};
    ghost use Rattle.bstr.specs.BStr.{bstr_bytes};
    ghost use Rattle.status_call.specs.RecorderVisits.{visits_of};
    ghost use Rattle.status_call.specs.Visits.{visit};

    type ContentChange = T;

    type SubmoduleStatus = U;

    ghost visits = { λ w. visits_of w.recorder };

    fn visit_entry(
        &mut self,
        entries: &'index [Entry],
        entry: &'index Entry,
        entry_index: usize,
        rela_path: BStr<'index>,
        status: EntryStatus<T, U>,
    ) -> Result<(), AllocError>
        requires { slice_get entries.now entry_index ≡ Some entry.now }
        ensures ok { OnOk result
            (visits_of self.new.recorder ≡ visits_of self.old.recorder
            ++ visit entries.now entry.now entry_index (bstr_bytes rela_path.entry) status ∷ []) }
        ensures err { OnErr result (visits_of self.new.recorder ≡ visits_of self.old.recorder) }
    {
        if let Some(stop) = self.stop {
            if letters(&status).is_some() {
                stop.store(true, Ordering::Relaxed);
            }
        }
        self.recorder
            .visit_entry(entries, entry, entry_index, rela_path, status)
    }
}
