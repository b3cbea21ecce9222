//! A worktree whose `lstat` has a side effect, and a lister that counts its calls. Neither is modelled.

ghost use Rattle.std.specs.Prelude.{None, false, refl};

use bstr::BStr;
use gix_status::worktree::{
    Fault, Lister, Listing, MemoryFile, MemoryWorktree, Metadata, NodeKind, Worktree,
};
use std::alloc::AllocError;
use std::sync::atomic::{AtomicBool, AtomicUsize, Ordering};
use std::thread;

/// How many turns a call waits for an event that has to come.
pub const MANY_TURNS: u64 = 100_000_000;

/// Returns whether a flag is set within so many turns.
pub fn comes(flag: &AtomicBool, turns: u64) -> bool {
    for _ in 0..turns {
        if flag.load(Ordering::SeqCst) {
            return true;
        }
        thread::yield_now();
    }
    false
}

/// The side effect of a call of `lstat`.
#[derive(Clone, Copy)]
pub enum OnLstat {
    Nothing,
    /// Sets the flag at this path.
    SetsFlag(&'static str),
    /// Waits at the first path until `lstat` was called on the second. It fails after so many turns.
    Meets(&'static str, &'static str, u64),
    /// Waits at this path until the flag is set. It fails after so many turns.
    AwaitsFlag(&'static str, u64),
    /// Returns a link for the directory at this path, from the second call on.
    FindsLink(&'static str),
}

/// A worktree in memory whose `lstat` has a side effect.
#[derive(Drop)]
pub struct WatchedWorktree<'a> {
    pub worktree: MemoryWorktree,
    pub on_lstat: OnLstat,
    pub flag: &'a AtomicBool,
    /// Set if `lstat` was called on the path that another call waits for, that waits for the flag, or that becomes a link.
    pub called: &'a AtomicBool,
}

fn is_at(path: BStr<'_>, at: &str) -> bool {
    path.as_bytes() == at.as_bytes()
}

impl<'a> WatchedWorktree<'a> {
    // Does the side effect of a call on a path. Returns whether a link is there instead of the directory.
    fn effect(&self, path: BStr<'_>) -> Result<bool, Fault> {
        let is_met = match self.on_lstat {
            OnLstat::FindsLink(at) if is_at(path, at) => {
                return Ok(self.called.swap(true, Ordering::SeqCst));
            }
            OnLstat::SetsFlag(at) if is_at(path, at) => {
                self.flag.store(true, Ordering::SeqCst);
                true
            }
            OnLstat::Meets(_, second, _) if is_at(path, second) => {
                self.called.store(true, Ordering::SeqCst);
                true
            }
            OnLstat::Meets(first, _, turns) if is_at(path, first) => comes(self.called, turns),
            OnLstat::AwaitsFlag(at, turns) if is_at(path, at) => {
                self.called.store(true, Ordering::SeqCst);
                comes(self.flag, turns)
            }
            _ => true,
        };
        if is_met {
            Ok(false)
        } else {
            Err(Fault::Other(1))
        }
    }
}

impl<'a> Worktree for WatchedWorktree<'a> {
    type File = MemoryFile;

    ghost stat_may_fail = { λ _ _. tt };

    ghost open_may_fail = { λ _ _. tt };

    ghost link_may_fail = { λ _ _. tt };

    fn lstat(&self, path: BStr<'_>) -> Result<Metadata, Fault> {
        let is_link = self.effect(path)?;
        let found = self.worktree.lstat(path)?;
        Ok(Metadata {
            kind: if is_link { NodeKind::Link } else { found.kind },
            ..found
        })
    }

    fn open(&self, path: BStr<'_>) -> Result<MemoryFile, Fault> {
        self.worktree.open(path)
    }

    fn read_link(&self, path: BStr<'_>, target: &mut Vec<u8>) -> Result<(), Fault> {
        self.worktree.read_link(path, target)
    }
}

/// A lister that counts its calls. It is refused memory in the first one after `refuses` is set.
#[derive(Clone, Copy)]
pub struct CountingLister<'a, L> {
    pub lister: L,
    pub calls: &'a AtomicUsize,
    pub refuses: Option<&'a AtomicBool>,
}

impl<'a, L: Lister + Copy> Lister for CountingLister<'a, L> {
    ghost modelled = { λ _. false };

    ghost listing = { λ _ _. None };

    ghost clone_keeps_modelled = { λ _ _ _. refl };

    ghost clone_keeps_listing = { λ _ _ _. refl };

    ghost clone_lists_within = { λ _ _ _ _ _ _. tt };

    fn list(&self, directory: BStr<'_>) -> Result<Listing, AllocError> {
        self.calls.fetch_add(1, Ordering::SeqCst);
        if let Some(refuses) = self.refuses {
            if refuses.swap(false, Ordering::SeqCst) {
                return Err(AllocError);
            }
        }
        self.lister.list(directory)
    }
}
