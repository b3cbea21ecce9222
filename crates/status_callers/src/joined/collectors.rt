//! The same collector in the joined call.

use crate::collectors::Full;
use gix_status::index_as_worktree_with_renames::{Entry, VisitEntry};
use std::alloc::AllocError;

impl<'index, 'a, V: VisitEntry<'index>> VisitEntry<'index> for Full<'a, V>
where
    V::ContentChange: Drop,
    V::SubmoduleStatus: Drop,
{
    ghost use Rattle.std.specs.Prelude.{◌≡◌, ◌++◌, ◌∷◌, [], true, IsTrue, OnOk, OnErr};
    ghost use Rattle.status_joined.specs.Entries.{reported_entry};

    type ContentChange = V::ContentChange;

    type SubmoduleStatus = V::SubmoduleStatus;

    ghost visits = { λ s. V.visits s.collector };

    ghost fails = { true };

    fn visit_entry(
        &mut self,
        entry: Entry<'index, V::ContentChange, V::SubmoduleStatus>,
    ) -> Result<(), AllocError>
        ensures ok { OnOk result (V.visits self.new.collector ≡ V.visits self.old.collector ++ reported_entry entry.entry ∷ []) }
        ensures err { OnErr result (IsTrue true × (V.visits self.new.collector ≡ V.visits self.old.collector)) }
    {
        if !self.admits() {
            return Err(AllocError);
        }
        self.collector.visit_entry(entry)
    }
}
