//! The interface of a worktree: `lstat`, opening a file and reading a link.

ghost use Rattle.std.specs.Prelude.{IsTrue, Bool, false, List, ℕ, Result, Err, ⊤};
ghost use Rattle.bstr.specs.BStr.{bstr_bytes};
ghost use Rattle.status_index.specs.Content.{Content};
ghost use Rattle.status_index.specs.declared.fault.Fault.{Fault as WorktreeFault};
ghost use Rattle.status_index.specs.declared.fault.Fault.TheVariants.{Memory, NotFound};
ghost use Rattle.status_index.specs.declared.stat.Metadata.{Metadata as NodeMetadata};
ghost use Rattle.status_index.specs.Answer.{IsAnswer};
ghost use Rattle.status_base.specs.Lawful.{IsOpened, IsTarget};
ghost use Rattle.status_base.specs.Openings.{IsOpenedSeen, IsTargetSeen};

use bstr::BStr;
use status_index::{Fault, Metadata, ReadBytes};

/// A worktree. Paths are from its root, with `/` between components. It is either modelled, and then its results are
/// three functions of the path, or not, such as a folder of a real disk. One that isn't leaves the ghost members out, except
/// for the laws.
pub trait Worktree {
    /// An open file.
    type File: ReadBytes;

    /// Whether the worktree is modelled.
    ghost modelled: { Self → Bool } = { λ _. false };

    /// The specified result of `lstat`.
    ghost lstat_of: { Self → List ℕ → Result NodeMetadata WorktreeFault } = { λ _ _. Err NotFound };

    /// The specified result of opening: the content that can be read.
    ghost open_of: { Self → List ℕ → Result Content WorktreeFault } = { λ _ _. Err NotFound };

    /// The specified result of reading a link: its target.
    ghost target_of: { Self → List ℕ → Result (List ℕ) WorktreeFault } = { λ _ _. Err NotFound };

    /// Which results `lstat` may return for a path. It needn't return the same result twice.
    ghost may_stat: { Self → List ℕ → Result NodeMetadata WorktreeFault → Type 0 } = { λ _ _ _. ⊤ };

    /// Which contents may be read of a file that is opened at a path, and which faults opening it may have.
    ghost may_open: { Self → List ℕ → Result Content WorktreeFault → Type 0 } = { λ _ _ _. ⊤ };

    /// Which targets the link at a path may have, and which faults reading it may have.
    ghost may_link: { Self → List ℕ → Result (List ℕ) WorktreeFault → Type 0 } = { λ _ _ _. ⊤ };

    /// Returns the metadata of the node at a path. A link isn't followed.
    ///
    /// # Errors
    /// The worktree's fault.
    fn lstat(&self, path: BStr<'_>) -> Result<Metadata, Fault>
        ensures answer { IsTrue (modelled self.now) → IsAnswer (lstat_of self.now (bstr_bytes path.entry)) result }
        ensures seen { may_stat self.now (bstr_bytes path.entry) result };

    /// Opens the file at a path for reading.
    ///
    /// # Errors
    /// The worktree's fault.
    fn open(&self, path: BStr<'_>) -> Result<Self::File, Fault>
        ensures answer { IsTrue (modelled self.now) → IsOpened Self.File.left (open_of self.now (bstr_bytes path.entry)) result }
        ensures seen { IsOpenedSeen Self.File.may_give (may_open self.now (bstr_bytes path.entry)) result };

    /// Reads the target of the link at a path into `target`, replacing its content. After an error `target` is empty.
    ///
    /// # Errors
    /// The worktree's fault.
    fn read_link(&self, path: BStr<'_>, target: &mut Vec<u8>) -> Result<(), Fault>
        ensures answer { IsTrue (modelled self.now) → IsTarget (target_of self.now (bstr_bytes path.entry)) result target.new.items }
        ensures seen { IsTargetSeen (may_link self.now (bstr_bytes path.entry)) result target.new.items };

    /// `lstat` may always run out of memory.
    ghost stat_may_fail: { (tree : Self) (path : List ℕ) → may_stat tree path (Err Memory) };

    /// Opening may always run out of memory.
    ghost open_may_fail: { (tree : Self) (path : List ℕ) → may_open tree path (Err Memory) };

    /// Reading a link may always run out of memory.
    ghost link_may_fail: { (tree : Self) (path : List ℕ) → may_link tree path (Err Memory) };
}
