//! A collector that runs out of memory or sets a flag.

ghost use Rattle.std.specs.Prelude.{◌≡◌, ◌++◌, ◌∷◌, [], Some, OnOk, OnErr, slice_get};
ghost use Rattle.bstr.specs.BStr.{bstr_bytes};

use bstr::BStr;
use gix_status::index::Entry;
use gix_status::index_as_worktree::{EntryStatus, VisitEntry};
use std::alloc::AllocError;
use std::sync::atomic::{AtomicBool, Ordering};

/// Passes `room` records on to `collector`, and returns out of memory for the next. At each it sets its flag, if it has
/// one.
#[derive(Drop)]
pub struct Full<'a, V> {
    pub collector: V,
    pub room: usize,
    pub flag: Option<&'a AtomicBool>,
}

impl<'a, V> Full<'a, V> {
    /// Sets the flag, and takes the room of a record. Returns whether there was room.
    pub fn admits(&mut self) -> bool
        ensures { self.new.collector ≡ self.old.collector }
    {
        if let Some(flag) = self.flag {
            flag.store(true, Ordering::SeqCst);
        }
        let has_room = self.room > 0;
        self.room = self.room.saturating_sub(1);
        has_room
    }
}

impl<'index, 'a, V: VisitEntry<'index>> VisitEntry<'index> for Full<'a, V>
where
    V::ContentChange: Drop,
    V::SubmoduleStatus: Drop,
{
    ghost use Rattle.std.specs.Prelude.{◌≡◌, ◌++◌, ◌∷◌, [], Some, OnOk, OnErr, slice_get};
    ghost use Rattle.bstr.specs.BStr.{bstr_bytes};
    ghost use Rattle.status_call.specs.Visits.{visit};

    type ContentChange = V::ContentChange;

    type SubmoduleStatus = V::SubmoduleStatus;

    ghost visits = { λ s. V.visits s.collector };

    fn visit_entry(
        &mut self,
        entries: &'index [Entry],
        entry: &'index Entry,
        entry_index: usize,
        rela_path: BStr<'index>,
        status: EntryStatus<V::ContentChange, V::SubmoduleStatus>,
    ) -> Result<(), AllocError>
        requires { slice_get entries.now entry_index ≡ Some entry.now }
        ensures ok { OnOk result (V.visits self.new.collector ≡ V.visits self.old.collector ++ visit entries.now entry.now entry_index (bstr_bytes rela_path.entry) status ∷ []) }
        ensures err { OnErr result (V.visits self.new.collector ≡ V.visits self.old.collector) }
    {
        if !self.admits() {
            return Err(AllocError);
        }
        self.collector
            .visit_entry(entries, entry, entry_index, rela_path, status)
    }
}
