//! A worktree whose files are opened, and whose links are read, only after `lstat`.

ghost use Rattle.std.specs.Prelude.{◌≡◌};
ghost use Rattle.status_base.specs.Looked.{guarded};

use crate::stack::{StackError, SymlinkCheck};
use crate::worktree::{Guard, Worktree};
use bstr::BStr;
use status_index::{Fault, Metadata};

/// A worktree whose files are opened, and whose links are read, only after `lstat`. Whoever has a guard can't get at the
/// worktree itself.
#[derive_where(Clone, Copy)]
pub struct GuardedWorktree<'w, W> {
    worktree: &'w W,
    fscache: bool,
}

impl<'w, W: Worktree> GuardedWorktree<'w, W> {
    /// Puts a guard before a worktree. `fscache` is whether listings of directories may replace the call of `lstat` for a path
    /// itself. The directories above the path are checked by `lstat` even then.
    pub fn new(worktree: &'w W, fscache: bool) -> GuardedWorktree<'w, W>
        ensures { result ≡ guarded worktree.entry fscache }
    {
        GuardedWorktree { worktree, fscache }
    }
}

impl<'w, W: Worktree> Guard for GuardedWorktree<'w, W> {
    type File = W::File;

    ghost modelled = { λ g. W.modelled g.worktree.now };

    ghost lstat_of = { λ g. W.lstat_of g.worktree.now };

    ghost open_of = { λ g. W.open_of g.worktree.now };

    ghost target_of = { λ g. W.target_of g.worktree.now };

    ghost listed = { λ g. g.fscache };

    ghost may_stat = { λ g. W.may_stat g.worktree.now };

    ghost may_open = { λ g path _. W.may_open g.worktree.now path };

    ghost may_link = { λ g path _. W.may_link g.worktree.now path };

    fn lstat(&self, path: BStr<'_>) -> Result<Metadata, Fault> {
        self.worktree.lstat(path)
    }

    fn open(&self, path: BStr<'_>, _node: &Metadata) -> Result<W::File, Fault> {
        self.worktree.open(path)
    }

    fn read_link(
        &self,
        path: BStr<'_>,
        _node: &Metadata,
        target: &mut Vec<u8>,
    ) -> Result<(), Fault> {
        self.worktree.read_link(path, target)
    }

    fn verify<'p>(&self, check: &mut SymlinkCheck, path: BStr<'p>) -> Result<(), StackError<'p>> {
        match check.verified_path(self.worktree, path) {
            Ok(_) => Ok(()),
            Err(error) => Err(error),
        }
    }

    ghost stat_may_fail = { λ g path. W.stat_may_fail g.worktree.now path };

    ghost open_may_fail = { λ g path _. W.open_may_fail g.worktree.now path };

    ghost link_may_fail = { λ g path _. W.link_may_fail g.worktree.now path };
}
