//! The status of a submodule.

ghost use Rattle.std.specs.Prelude.{◌≡◌, Bool, true, IsTrue, List, ℕ, Option, None, Result, Ok, refl};
ghost use Rattle.bstr.specs.BStr.{bstr_bytes};
ghost use Rattle.status_base.specs.Lawful.{CloneKeeps};
ghost use Rattle.status_index.specs.Entries.{IndexEntry, entry_at};

use bstr::BStr;
use status_index::{ByteText, Entry};
use std::alloc::AllocError;

/// Why a submodule has no status.
#[derive(Debug, Drop)]
pub enum SubmoduleFault {
    /// The status failed.
    Failed {
        /// The reason, in words.
        text: ByteText,
    },
    /// Out of memory.
    Memory,
}

impl From<AllocError> for SubmoduleFault {
    ghost use Rattle.std.specs.Prelude.{◌≡◌};
    ghost use Rattle.status_base.specs.declared.worktree.submodule.SubmoduleFault.TheVariants.{Memory};

    ghost from_gives = { λ _ f. f ≡ Memory };

    fn from(_error: AllocError) -> SubmoduleFault {
        SubmoduleFault::Memory
    }
}

/// The status of submodules. It is either modelled, and then a function of the submodule's index entry, or not, such
/// as one of repositories on a disk.
pub trait SubmoduleStatus: Clone {
    ghost use Rattle.std.specs.Prelude.{⊤};
    ghost use Rattle.status_base.specs.Submodules.{IsSubmoduleAnswer, IsReported};

    /// A change of a submodule.
    type Output: Drop;

    /// Whether the status is modelled.
    ghost modelled: { Self → Bool };

    /// The specified change of an entry's submodule, or the text of its fault.
    ghost status_of: { Self → IndexEntry → Result (Option Self.Output) (List ℕ) };

    /// Which changes an entry's submodule may have, and which texts its fault may have.
    ghost may_report: { Self → IndexEntry → Result (Option Self.Output) (List ℕ) → Type 0 } = { λ _ _ _. ⊤ };

    /// Returns how the submodule of `entry` at `path` changed, or None if it didn't.
    ///
    /// # Errors
    /// `Failed` with a reason in words if there is no status, or out of memory.
    fn status(
        &mut self,
        entry: &Entry,
        path: BStr<'_>,
    ) -> Result<Option<Self::Output>, SubmoduleFault>
        ensures answer { IsTrue (modelled self.old) → IsSubmoduleAnswer (status_of self.old (entry_at (bstr_bytes path.entry) entry.now)) result }
        ensures seen { IsReported (may_report self.old (entry_at (bstr_bytes path.entry) entry.now)) result }
        ensures within { (e : IndexEntry) (report : Result (Option Self.Output) (List ℕ)) → may_report self.new e report → may_report self.old e report }
        ensures same { status_of self.new ≡ status_of self.old }
        ensures modelled { modelled self.new ≡ modelled self.old };

    /// A clone is modelled exactly if its original is.
    ghost clone_keeps_modelled: { CloneKeeps Self.is_clone modelled };

    /// A clone returns the same status of every submodule.
    ghost clone_keeps_status: { CloneKeeps Self.is_clone status_of };

    /// A clone reports nothing that its original may not report.
    ghost clone_reports_within: { (one other : Self) → Self.is_clone one other → (e : IndexEntry) (report : Result (Option Self.Output) (List ℕ))
        → may_report other e report → may_report one e report };
}

/// Submodules that never change.
#[derive(Clone, Copy, Debug, Default, PartialEq, Eq)]
pub struct NoSubmodules;

impl SubmoduleStatus for NoSubmodules {
    type Output = ();

    ghost modelled = { λ _. true };

    ghost status_of = { λ _ _. Ok None };

    ghost clone_keeps_modelled = { λ _ _ _. refl };

    ghost clone_keeps_status = { λ _ _ _. refl };

    ghost clone_reports_within = { λ _ _ _ _ _ _. tt };

    fn status(&mut self, _entry: &Entry, _path: BStr<'_>) -> Result<Option<()>, SubmoduleFault> {
        Ok(None)
    }
}
