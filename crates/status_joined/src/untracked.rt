//! The untracked half: the interface of its walk, and the nodes that are kept of the walk.

ghost use Rattle.std.specs.Prelude.{◌≡◌, ◌++◌, ◌∷◌, [], OnOk, false, filter, is_some, map, List, IfOk, IfSome};
ghost use Rattle.status_index.specs.States.{index_of};
ghost use Rattle.status_walk.specs.WalkedNodes.{walked_of};
ghost use Rattle.status_joined.specs.Keeping.{is_kept, kept_walked, keeper_state};
ghost use Rattle.status_joined.specs.UntrackedHalf.{IsWalkOf};
ghost use Rattle.status_index.specs.Entries.{IndexEntry};
ghost use Rattle.status_walk.specs.Walks.{IsWalk};
ghost use Rattle.status_joined.specs.Walkings.{IsWantedWalker, Walking, walker_of};

use status_base::worktree::{Pathspec, Worktree};
use status_index::State;
use status_walk::{Action, Delegate, DirEntry, Kind, Outcome, Status, Walk, WalkError};
use std::alloc::{AllocError, Global};
use std::sync::atomic::{AtomicBool, Ordering};

/// A node that a walk found, and that was kept.
#[derive(Debug, Drop)]
pub struct Kept {
    /// The node.
    pub entry: DirEntry,
    /// The status of the collapsed directory that contains the node, if there is one. Such a directory represents all
    /// nodes in it.
    pub collapsed_directory_status: Option<Status>,
}

/// Returns whether a node is kept: it can be tracked, and isn't.
fn is_kept(entry: &DirEntry) -> bool
    ensures { (collapsed : _) → result ≡ is_kept (walked_of entry.now collapsed) }
{
    !matches!(entry.disk_kind, Some(Kind::Untrackable)) && !matches!(entry.status, Status::Tracked)
}

/// Appends a node to the kept ones, or drops it.
fn keep(
    kept: &mut Vec<Kept>,
    entry: DirEntry,
    collapsed_directory_status: Option<Status>,
) -> Result<(), AllocError>
    ensures { OnOk result (map kept_walked kept.new.items ≡ map kept_walked kept.old.items
        ++ filter is_kept (walked_of entry collapsed_directory_status ∷ [])) }
{
    if is_kept(&entry) {
        kept.push(Kept {
            entry,
            collapsed_directory_status,
        })?;
    }
    Ok(())
}

/// Keeps the nodes that can be tracked and aren't, to the end of the walk.
#[derive(Drop)]
struct Keeper {
    kept: Vec<Kept>,
}

impl Delegate for Keeper {
    ghost state = { λ k. keeper_state k.kept.items false };

    fn emit(&mut self, entry: DirEntry, collapsed: Option<Status>) -> Result<Action, AllocError> {
        keep(&mut self.kept, entry, collapsed)?;
        Ok(Action::Continue)
    }
}

/// Keeps the nodes that can be tracked and aren't, until the flag is seen set.
#[derive(Drop)]
struct FlaggedKeeper<'a> {
    kept: Vec<Kept>,
    flag: &'a AtomicBool,
    cancelled: bool,
}

impl<'a> Delegate for FlaggedKeeper<'a> {
    ghost state = { λ k. keeper_state k.kept.items k.cancelled };

    fn emit(&mut self, entry: DirEntry, collapsed: Option<Status>) -> Result<Action, AllocError> {
        keep(&mut self.kept, entry, collapsed)?;
        if self.flag.load(Ordering::Relaxed) {
            self.cancelled = true;
            Ok(Action::Cancel)
        } else {
            self.cancelled = false;
            Ok(Action::Continue)
        }
    }
}

/// Runs the walk. Returns the nodes that can be tracked and aren't, in the walk's order, and how the walk ended. It ends
/// when the flag is seen set.
///
/// # Errors
/// Those of the walk.
pub(crate) fn walk_untracked<F: FindUntracked>(
    alloc: Global,
    index: &State,
    mut finder: F,
    interrupt: Option<&AtomicBool>,
) -> Result<(Vec<Kept>, Outcome), WalkError>
where
    F: Drop,
    ensures { IsWalkOf (F.walking finder (index_of index.now)) (is_some interrupt.entry) result }
{
    let kept = Vec::new(alloc);
    match interrupt {
        None => {
            let mut keeper = Keeper { kept };
            let outcome = finder.find(index, &mut keeper)?;
            Ok((keeper.kept, outcome))
        }
        Some(flag) => {
            let mut keeper = FlaggedKeeper {
                kept,
                flag,
                cancelled: false,
            };
            let outcome = finder.find(index, &mut keeper)?;
            Ok((keeper.kept, outcome))
        }
    }
}

/// Finds the nodes of a worktree that an index doesn't have.
pub trait FindUntracked {
    /// The specification: the nodes to find, and the fault, for these entries. None if it isn't modelled.
    ghost walking: { Self → List IndexEntry → Walking };

    /// Passes the nodes that it finds to a delegate. If the delegate returns `Cancel`, it ends, and passes no more.
    ///
    /// # Errors
    /// Those of a walk.
    fn find<D: Delegate>(&mut self, index: &State, delegate: &mut D) -> Result<Outcome, WalkError>
        requires { (D.state delegate.old).cancelled ≡ false }
        ensures { IfSome (walking self.old (index_of index.now))
            (λ m. IsWalk m (D.state delegate.old) result (D.state delegate.new)) };
}

/// A walk over a worktree, of the paths that a pathspec includes.
#[derive(Drop)]
pub struct Walker<'w, W, K, P> {
    /// The worktree.
    pub worktree: &'w W,
    /// The walk.
    pub walk: K,
    /// Decides which paths are included.
    pub pathspec: P,
}

impl<'w, W: Worktree, K: Walk<W>, P: Pathspec> FindUntracked for Walker<'w, W, K, P> {
    ghost walking = { λ w entries. K.walking w.walk w.worktree.now entries (P.prefix w.pathspec) (P.included w.pathspec) };

    fn find<D: Delegate>(&mut self, index: &State, delegate: &mut D) -> Result<Outcome, WalkError> {
        self.walk
            .walk(self.worktree, index, &self.pathspec, delegate)
    }
}

/// Returns the walker if one is wanted, with its own clone of the pathspec.
///
/// # Errors
/// If an allocation fails.
pub(crate) fn wanted_walker<'w, W: Worktree, K: Walk<W> + Drop, P: Pathspec>(
    wanted: bool,
    worktree: &'w W,
    walk: K,
    pathspec: &P,
) -> Result<Option<Walker<'w, W, K, P>>, AllocError>
    ensures { IfOk result (IsWantedWalker ⟦<Walker<'w, W, K, P> as FindUntracked>⟧.walking wanted
        (walker_of worktree.entry walk pathspec.now)) }
{
    if !wanted {
        return Ok(None);
    }
    Ok(Some(Walker {
        worktree,
        walk,
        pathspec: pathspec.clone()?,
    }))
}
