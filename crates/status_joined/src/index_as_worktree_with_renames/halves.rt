//! Both halves of a status, the tracked one and the untracked one: run at the same time, and their list.

ghost use Rattle.std.specs.Prelude.{None, Some, is_some, option_map, ⊤};
ghost use Rattle.status_index.specs.States.{index_of};
ghost use Rattle.status_joined.specs.BothHalves.{IsHalves};
ghost use Rattle.status_joined.specs.Listing.{IsListing};
ghost use Rattle.status_joined.specs.TrackedHalf.{IsRecorded};

use crate::index_as_worktree_with_renames::error::{Error, walk_error};
use crate::index_as_worktree_with_renames::types::{Call, Outcome};
use crate::untracked::{FindUntracked, Kept, walk_untracked};
use crate::{ModificationOrDirwalkEntry, list_of};
use status_call::index_as_worktree::status_by::status_by;
use status_call::index_as_worktree::step::Decide;
use status_call::index_as_worktree::workers::Execution;
use status_call::index_as_worktree::{self, Record, Recorder};
use std::sync::Wait;
use std::sync::atomic::AtomicBool;
use std::thread::{Threads, join};

/// The results of both halves.
#[derive(Drop)]
pub(crate) struct Halves<'index, T, U> {
    /// How the index's entries differ from the worktree, in index order.
    pub(crate) records: Vec<Record<'index, T, U>>,
    /// The counts of the status.
    pub(crate) tracked: index_as_worktree::Outcome,
    /// The nodes that were kept of the walk, in its order.
    pub(crate) kept: Vec<Kept>,
    /// How the walk ended. None if there was no walk.
    pub(crate) walked: Option<status_walk::Outcome>,
}

/// Runs the status, and the walk in a thread of its own. If no such thread can be started, the walk runs after the
/// status.
///
/// # Errors
/// The walk's, or otherwise the status's.
fn run_both<'index, R: Threads + Wait, F: FindUntracked + Send + Drop, D: Decide + Send + Drop>(
    rt: &R,
    call: &Call<'index>,
    finder: F,
    decider: D,
    interrupt: Option<&AtomicBool>,
) -> Result<Halves<'index, D::Content, D::Submodule>, Error>
where
    D::Content: Send + Drop + 'index,
    D::Submodule: Send + Drop + 'index,
    ensures { IsHalves (D.query decider) call.now.options call.now.index.now (is_some interrupt.entry)
        (Some (F.walking finder (index_of call.now.index.now))) result }
{
    let alloc = call.alloc;
    let index = call.index;
    let flag = &interrupt;
    let (walk, status) = join(
        rt,
        // A clause of its own brings the bounds of this function into the closure.
        move ||
            requires { ⊤ }
        { walk_untracked(alloc, index, finder, *flag) },
        move ||
            requires { ⊤ }
        { record_tracked(rt, call, decider, *flag) },
    );
    let (kept, walked) = match walk {
        Ok(nodes) => nodes,
        Err(error) => return Err(walk_error(error)),
    };
    match status {
        Ok((records, tracked)) => Ok(Halves {
            records,
            tracked,
            kept,
            walked: Some(walked),
        }),
        Err(error) => Err(Error::from(error)),
    }
}

/// Runs the status alone.
///
/// # Errors
/// The status's.
fn run_without_walk<'index, R: Threads + Wait, D: Decide + Send + Drop>(
    rt: &R,
    call: &Call<'index>,
    decider: D,
    interrupt: Option<&AtomicBool>,
) -> Result<Halves<'index, D::Content, D::Submodule>, Error>
where
    D::Content: Send + Drop + 'index,
    D::Submodule: Send + Drop + 'index,
    ensures { IsHalves (D.query decider) call.now.options call.now.index.now (is_some interrupt.entry) None result }
{
    match record_tracked(rt, call, decider, interrupt) {
        Ok((records, tracked)) => Ok(Halves {
            records,
            tracked,
            kept: Vec::new(call.alloc),
            walked: None,
        }),
        Err(error) => Err(Error::from(error)),
    }
}

/// Runs both halves, or the status alone if there is no walk.
///
/// # Errors
/// The walk's, or otherwise the status's.
fn run_halves<'index, R: Threads + Wait, F: FindUntracked + Send + Drop, D: Decide + Send + Drop>(
    rt: &R,
    call: &Call<'index>,
    finder: Option<F>,
    decider: D,
    interrupt: Option<&AtomicBool>,
) -> Result<Halves<'index, D::Content, D::Submodule>, Error>
where
    D::Content: Send + Drop + 'index,
    D::Submodule: Send + Drop + 'index,
    ensures { IsHalves (D.query decider) call.now.options call.now.index.now (is_some interrupt.entry)
        (option_map (λ f. F.walking f (index_of call.now.index.now)) finder) result }
{
    match finder {
        Some(finder) => run_both(rt, call, finder, decider, interrupt),
        None => run_without_walk(rt, call, decider, interrupt),
    }
}

/// Runs both halves. Returns the list of their records and nodes, and how each half ended. If the options have
/// `sorting`, the list is sorted by path; otherwise the records come before the nodes.
///
/// # Errors
/// The walk's, or otherwise the status's. `Error::Memory` if an allocation fails.
pub(crate) fn list_halves<
    'index,
    R: Threads + Wait,
    F: FindUntracked + Send + Drop,
    D: Decide + Send + Drop,
>(
    rt: &R,
    call: &Call<'index>,
    finder: Option<F>,
    decider: D,
    interrupt: Option<&AtomicBool>,
) -> Result<
    (
        Vec<ModificationOrDirwalkEntry<'index, D::Content, D::Submodule>>,
        Outcome,
    ),
    Error,
>
where
    D::Content: Send + Drop + 'index,
    D::Submodule: Send + Drop + 'index,
    ensures { IsListing (D.query decider) call.now.options call.now.index.now (is_some interrupt.entry)
        (option_map (λ f. F.walking f (index_of call.now.index.now)) finder) result }
{
    let halves = match run_halves(rt, call, finder, decider, interrupt) {
        Ok(halves) => halves,
        Err(error) => return Err(error),
    };
    let Halves {
        records,
        tracked,
        kept,
        walked,
    } = halves;
    let kind = call.options.object_hash;
    let sorting = call.options.sorting.is_some();
    match list_of(call.alloc, kind, records, kept, sorting) {
        Ok(items) => Ok((
            items,
            Outcome {
                tracked_file_modification: tracked,
                dirwalk: walked,
                rewrites: None,
            },
        )),
        Err(_refused) => Err(Error::Memory),
    }
}

/// Returns how the worktree differs from the index, in index order, and the counts of the status.
///
/// # Errors
/// Those of `index_as_worktree`.
fn record_tracked<'index, R: Threads + Wait, D: Decide + Send + Drop>(
    rt: &R,
    call: &Call<'index>,
    mut decider: D,
    interrupt: Option<&AtomicBool>,
) -> Result<
    (
        Vec<Record<'index, D::Content, D::Submodule>>,
        index_as_worktree::Outcome,
    ),
    index_as_worktree::Error,
>
where
    D::Content: Send + Drop + 'index,
    D::Submodule: Send + Drop + 'index,
    ensures { IsRecorded (D.query decider) call.now.options.tracked_file_modifications.thread_limit call.now.index.now
        (is_some interrupt.entry) result }
{
    let options = &call.options.tracked_file_modifications;
    let execution = Execution::of(call.alloc, options, interrupt);
    let mut recorder = Recorder::new(call.alloc);
    match status_by(rt, call.index, &mut decider, &execution, &mut recorder) {
        Ok(outcome) => Ok((recorder.records, outcome)),
        Err(error) => Err(error),
    }
}
