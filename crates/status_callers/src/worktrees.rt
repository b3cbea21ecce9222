//! A worktree that counts calls.

use bstr::BStr;
use gix_status::worktree::{Fault, Metadata, Worktree};
use std::sync::atomic::{AtomicUsize, Ordering};

/// Counts of the calls of `lstat` and `open`.
#[derive(Drop)]
pub struct Calls {
    looks: AtomicUsize,
    opens: AtomicUsize,
}

impl Calls {
    /// Counts of no calls.
    pub fn new() -> Calls {
        Calls {
            looks: AtomicUsize::new(0),
            opens: AtomicUsize::new(0),
        }
    }

    /// How often `lstat` and `open` were called.
    pub fn made(&self) -> (usize, usize) {
        (
            self.looks.load(Ordering::SeqCst),
            self.opens.load(Ordering::SeqCst),
        )
    }
}

/// A worktree that counts the calls of `lstat` and `open` on one path, or on all if there is none. It is modelled if
/// `worktree` is.
#[derive(Clone, Copy)]
pub struct Counted<'a, W> {
    pub worktree: W,
    pub path: Option<&'a str>,
    pub calls: &'a Calls,
}

impl<'a, W> Counted<'a, W> {
    // Counts a call, if it is on the path.
    fn count(&self, path: BStr<'_>, calls: &AtomicUsize) {
        let is_counted = match self.path {
            Some(counted) => path.as_bytes() == counted.as_bytes(),
            None => true,
        };
        if is_counted {
            calls.fetch_add(1, Ordering::SeqCst);
        }
    }
}

impl<'a, W: Worktree> Worktree for Counted<'a, W> {
    type File = W::File;

    ghost modelled = { λ c. W.modelled c.worktree };

    ghost lstat_of = { λ c. W.lstat_of c.worktree };

    ghost open_of = { λ c. W.open_of c.worktree };

    ghost target_of = { λ c. W.target_of c.worktree };

    ghost may_stat = { λ c. W.may_stat c.worktree };

    ghost may_open = { λ c. W.may_open c.worktree };

    ghost may_link = { λ c. W.may_link c.worktree };

    ghost stat_may_fail = { λ c. W.stat_may_fail c.worktree };

    ghost open_may_fail = { λ c. W.open_may_fail c.worktree };

    ghost link_may_fail = { λ c. W.link_may_fail c.worktree };

    fn lstat(&self, path: BStr<'_>) -> Result<Metadata, Fault> {
        self.count(path, &self.calls.looks);
        self.worktree.lstat(path)
    }

    fn open(&self, path: BStr<'_>) -> Result<W::File, Fault> {
        self.count(path, &self.calls.opens);
        self.worktree.open(path)
    }

    fn read_link(&self, path: BStr<'_>, target: &mut Vec<u8>) -> Result<(), Fault> {
        self.worktree.read_link(path, target)
    }
}
