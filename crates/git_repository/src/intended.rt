//! A worktree in which a nested repository counts as a node of its own at the path of an entry that is to be added.

use crate::submodules::head_below;
use bstr::BStr;
use status_base::worktree::{Fault, Metadata, NodeKind, Worktree};
use status_index::State;
use std::rt::Files;

/// A worktree whose nested repositories are no directories at the paths of some entries, those of `git add -N`. To git such an
/// entry is to be added if a repository is at its path, and if it is a submodule's also if any folder is.
#[derive(Drop)]
pub struct IntendedWorktree<'a, R, W> {
    /// Reads the repositories.
    pub rt: &'a R,
    /// The worktree's folder.
    pub top: &'a str,
    /// The worktree.
    pub worktree: &'a W,
    /// The entries.
    pub intended: &'a State,
}

impl<R: Files + AllocGlobal, W: Worktree> IntendedWorktree<'_, R, W> {
    // Returns whether the directory at a path counts as another node.
    fn is_other(&self, path: BStr<'_>) -> bool {
        match self.intended.entries_at(path) {
            [] => false,
            [entry, ..] => {
                entry.mode.is_submodule()
                    || matches!(head_below(self.rt, self.top, path), Ok(Some(_)))
            }
        }
    }
}

impl<R: Files + AllocGlobal, W: Worktree> Worktree for IntendedWorktree<'_, R, W> {
    ghost use Rattle.std.proofs.Common.{inl};
    ghost use Rattle.git_repository.specs.Intended.{MayCountAsOther};

    type File = W::File;

    ghost may_stat = { λ tree path. MayCountAsOther (W.may_stat tree.worktree.now path) };

    ghost may_open = { λ tree. W.may_open tree.worktree.now };

    ghost may_link = { λ tree. W.may_link tree.worktree.now };

    ghost stat_may_fail = { λ tree path. inl (W.stat_may_fail tree.worktree.now path) };

    ghost open_may_fail = { λ tree. W.open_may_fail tree.worktree.now };

    ghost link_may_fail = { λ tree. W.link_may_fail tree.worktree.now };

    fn lstat(&self, path: BStr<'_>) -> Result<Metadata, Fault> {
        let mut found = self.worktree.lstat(path)?;
        if found.kind == NodeKind::Directory && self.is_other(path) {
            found.kind = NodeKind::Other;
        }
        Ok(found)
    }

    fn open(&self, path: BStr<'_>) -> Result<W::File, Fault> {
        self.worktree.open(path)
    }

    fn read_link(&self, path: BStr<'_>, target: &mut Vec<u8>) -> Result<(), Fault> {
        self.worktree.read_link(path, target)
    }
}
