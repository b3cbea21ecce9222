//! The interface of a worktree whose files are opened, and whose links are read, only after `lstat`.

ghost use Rattle.std.specs.Prelude.{IsTrue, Bool, List, ℕ, Result, Err};
ghost use Rattle.bstr.specs.BStr.{bstr_bytes};
ghost use Rattle.status_index.specs.Answer.{IsAnswer};
ghost use Rattle.status_index.specs.Content.{Content};
ghost use Rattle.status_index.specs.declared.fault.Fault.{Fault as WorktreeFault};
ghost use Rattle.status_index.specs.declared.fault.Fault.TheVariants.{Memory};
ghost use Rattle.status_index.specs.declared.stat.Metadata.{Metadata as NodeMetadata};
ghost use Rattle.status_index.specs.declared.stat.NodeKind.TheVariants.{File as RegularFile, Link};
ghost use Rattle.status_base.specs.AfterQuery.{IsAfterVerified};
ghost use Rattle.status_base.specs.CheckAnswers.{IsChecked};
ghost use Rattle.status_base.specs.CheckState.{IsClear};
ghost use Rattle.status_base.specs.Lawful.{IsOpened, IsTarget};
ghost use Rattle.status_base.specs.LinkCheck.{link_check};
ghost use Rattle.status_base.specs.Looked.{IsLookedAt};
ghost use Rattle.status_base.specs.Openings.{IsOpenedSeen, IsTargetSeen};
ghost use Rattle.status_base.specs.Sights.{IsCheckSeen, IsOpen};

use crate::stack::{StackError, SymlinkCheck};
use bstr::BStr;
use status_index::{Fault, Metadata, ReadBytes};

/// A worktree whose files are opened, and whose links are read, only after `lstat`. A file can only be opened with the node that
/// was met at its path, and only if no directory above the path is a link. What is read belongs to that node: it can't be taken
/// for the content of one that was met later. Reading a link needs the same of a link.
pub trait Guard {
    /// An open file.
    type File: ReadBytes;

    /// Whether the worktree is modelled.
    ghost modelled: { Self → Bool };

    /// The specified result of `lstat`.
    ghost lstat_of: { Self → List ℕ → Result NodeMetadata WorktreeFault };

    /// The specified result of opening: the content that can be read.
    ghost open_of: { Self → List ℕ → Result Content WorktreeFault };

    /// The specified result of reading a link: its target.
    ghost target_of: { Self → List ℕ → Result (List ℕ) WorktreeFault };

    /// Whether listings of directories may replace the call of `lstat` for a path itself.
    ghost listed: { Self → Bool };

    /// Which results `lstat` may return for a path.
    ghost may_stat: { Self → List ℕ → Result NodeMetadata WorktreeFault → Type 0 };

    /// Which contents may be read of a file that is opened after this node was met at its path, and which faults opening it may
    /// have.
    ghost may_open: { Self → List ℕ → NodeMetadata → Result Content WorktreeFault → Type 0 };

    /// Which targets a link may have that is read after this node was met at its path, and which faults reading it may have.
    ghost may_link: { Self → List ℕ → NodeMetadata → Result (List ℕ) WorktreeFault → Type 0 };

    /// Does what `Worktree::lstat` does.
    ///
    /// # Errors
    /// The worktree's fault.
    fn lstat(&self, path: BStr<'_>) -> Result<Metadata, Fault>
        ensures answer { IsTrue (modelled self.now) → IsAnswer (lstat_of self.now (bstr_bytes path.entry)) result }
        ensures seen { may_stat self.now (bstr_bytes path.entry) result };

    /// Does what `Worktree::open` does, for a path at which this node, a file, was met.
    ///
    /// # Errors
    /// The worktree's fault.
    fn open(&self, path: BStr<'_>, node: &Metadata) -> Result<Self::File, Fault>
        requires looked { IsLookedAt (may_stat self.now) (listed self.now) (bstr_bytes path) node.now RegularFile }
        ensures answer { IsTrue (modelled self.now) → IsOpened Self.File.left (open_of self.now (bstr_bytes path.entry)) result }
        ensures seen { IsOpenedSeen Self.File.may_give (may_open self.now (bstr_bytes path.entry) node.now) result };

    /// Does what `Worktree::read_link` does, for a path at which this node, a link, was met.
    ///
    /// # Errors
    /// The worktree's fault.
    fn read_link(&self, path: BStr<'_>, node: &Metadata, target: &mut Vec<u8>) -> Result<(), Fault>
        requires looked { IsLookedAt (may_stat self.now) (listed self.now) (bstr_bytes path) node.now Link }
        ensures answer { IsTrue (modelled self.now) → IsTarget (target_of self.now (bstr_bytes path.entry)) result target.new.items }
        ensures seen { IsTargetSeen (may_link self.now (bstr_bytes path.entry) node.now) result target.new.items };

    /// Tests a path, as `SymlinkCheck::verified_path` does.
    ///
    /// # Errors
    /// The errors of `SymlinkCheck::verified_path`.
    fn verify<'p>(&self, check: &mut SymlinkCheck, path: BStr<'p>) -> Result<(), StackError<'p>>
        ensures answer { IsTrue (modelled self.now) → IsClear (lstat_of self.now) check.old.path
            → IsChecked (link_check (lstat_of self.now) (bstr_bytes path.entry)) result }
        ensures seen { IsOpen (may_stat self.now) check.old.path → IsCheckSeen (may_stat self.now) (bstr_bytes path.entry) result }
        ensures after { IsAfterVerified (may_stat self.now) (modelled self.now) (lstat_of self.now) (bstr_bytes path.entry) result check.old check.new };

    /// `lstat` may always run out of memory.
    ghost stat_may_fail: { (guard : Self) (path : List ℕ) → may_stat guard path (Err Memory) };

    /// Opening may always run out of memory.
    ghost open_may_fail: { (guard : Self) (path : List ℕ) (node : NodeMetadata) → may_open guard path node (Err Memory) };

    /// Reading a link may always run out of memory.
    ghost link_may_fail: { (guard : Self) (path : List ℕ) (node : NodeMetadata) → may_link guard path node (Err Memory) };
}
