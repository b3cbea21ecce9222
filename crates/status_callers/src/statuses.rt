//! Calls of the status with some of the interfaces fixed.

ghost use Rattle.std.specs.Prelude.{◌≡◌, ◌<◌, ◌^◌, [], IfOk, OnErr, OnOk};
ghost use Rattle.status_index.specs.States.{index_of, timestamp_of};
ghost use Rattle.status_call.specs.IndexChanges.{AreInside, DifferInStats, changes_of};
ghost use Rattle.status_call.specs.Inputs.{usual};
ghost use Rattle.status_call.specs.Counts.{skipped_of};
ghost use Rattle.status_callers.specs.Clean.{FailsAtFirstFault, SaysClean};

use gix_status::index::{Moment, ObjectId, State};
use gix_status::index_as_worktree::inputs::{Ask, Inputs};
use gix_status::index_as_worktree::traits::{CompareBlobs, HashEq};
use gix_status::index_as_worktree::{
    ApplyChange, Capabilities, Context, Error, Options, Outcome, Record, Recorder, VisitEntry,
    apply_changes, index_as_worktree, index_as_worktree_with_defaults,
    index_as_worktree_without_threads,
};
use gix_status::worktree::{
    AllPaths, Find, GuardedWorktree, Lister, MemoryObjects, NoFilter, NoLister, NoSubmodules,
    Pathspec, SubmoduleStatus, ToGit, Worktree,
};
use std::alloc::Global;
use std::sync::Wait;
use std::sync::atomic::AtomicBool;
use std::thread::Threads;

/// The arguments besides an index, a worktree and a comparer.
#[derive(Drop)]
pub struct StatusRequest<S, O, P, T> {
    pub submodule: S,
    pub objects: O,
    pub pathspec: P,
    pub filter: T,
    pub options: Options,
}

/// A request without submodules, with blobs in memory.
pub type FileRequest<P, T> = StatusRequest<NoSubmodules, MemoryObjects, P, T>;

impl<S, O, P, T> StatusRequest<S, O, P, T> {
    /// Returns a request with these interfaces and options.
    pub fn new(
        submodule: S,
        objects: O,
        pathspec: P,
        filter: T,
        options: Options,
    ) -> StatusRequest<S, O, P, T> {
        StatusRequest {
            submodule,
            objects,
            pathspec,
            filter,
            options,
        }
    }
}

/// Returns a request for all paths without a filter, blobs or submodules.
pub fn plain_request(alloc: Global) -> FileRequest<AllPaths, NoFilter> {
    request_with(alloc, options())
}

/// Returns the same request with these options.
pub fn request_with(alloc: Global, options: Options) -> FileRequest<AllPaths, NoFilter> {
    let objects = MemoryObjects::new(alloc);
    StatusRequest::new(NoSubmodules, objects, AllPaths, NoFilter, options)
}

/// Returns options by which links count and executability doesn't.
pub fn options() -> Options {
    Options {
        fs: Capabilities {
            symlink: true,
            executable_bit: false,
        },
        ..Options::default()
    }
}

/// The records of a status, and its outcome or error.
#[derive(Drop)]
pub struct StatusReport<'index, T, U> {
    pub records: Vec<Record<'index, T, U>>,
    pub answer: Result<Outcome, Error>,
}

/// Calls the status of an index against a worktree, and returns its report.
pub fn status_of<
    'index,
    R: AllocGlobal + Threads + Wait,
    W: Worktree + Sync,
    C: CompareBlobs + Send,
    S: SubmoduleStatus + Send,
    O: Find + Send,
    P: Pathspec + Send,
    T: ToGit + Send,
>(
    rt: &R,
    index: &'index State,
    worktree: &W,
    compare: C,
    request: StatusRequest<S, O, P, T>,
) -> StatusReport<'index, C::Output, S::Output>
where
    W::File: Send,
    C::Output: Send + 'index,
    S::Output: Send + 'index,
{
    let mut recorder = Recorder::new(rt.alloc());
    let answer = report_to(rt, index, worktree, &mut recorder, compare, request, None);
    StatusReport {
        records: recorder.records,
        answer,
    }
}

/// Reports to `collector` the status of an index against a worktree. It ends early if it sees the flag set.
pub fn report_to<
    'index,
    R: AllocGlobal + Threads + Wait,
    V: VisitEntry<'index, ContentChange = C::Output, SubmoduleStatus = S::Output>,
    W: Worktree + Sync,
    C: CompareBlobs + Send,
    S: SubmoduleStatus + Send,
    O: Find + Send,
    P: Pathspec + Send,
    T: ToGit + Send,
>(
    rt: &R,
    index: &'index State,
    worktree: &W,
    collector: &mut V,
    compare: C,
    request: StatusRequest<S, O, P, T>,
    interrupt: Option<&AtomicBool>,
) -> Result<Outcome, Error>
where
    W::File: Send,
    C::Output: Send,
    S::Output: Send,
    ensures sum { IfOk result (λ o. skipped_of o < 2 ^ 64) }
    ensures inside { V.visits collector.old ≡ [] → AreInside (changes_of (V.visits collector.new)) (index_of index.now) }
{
    let StatusRequest {
        submodule,
        objects,
        pathspec,
        filter,
        options,
    } = request;
    let alloc = rt.alloc();
    let context = Context {
        pathspec,
        filter,
        lister: NoLister,
        should_interrupt: interrupt,
    };
    index_as_worktree(
        rt, alloc, index, worktree, collector, compare, submodule, objects, context, options,
    )
}

/// Reports to `collector` a status by ids in this thread alone.
pub fn report_without_threads<
    'index,
    W: Worktree,
    V: VisitEntry<'index, ContentChange = ObjectId, SubmoduleStatus = ()>,
    L: Lister,
>(
    alloc: Global,
    index: &'index State,
    worktree: &W,
    collector: &mut V,
    lister: L,
    options: Options,
    interrupt: Option<&AtomicBool>,
) -> Result<Outcome, Error> {
    let context = Context {
        pathspec: AllPaths,
        filter: NoFilter,
        lister,
        should_interrupt: interrupt,
    };
    index_as_worktree_without_threads(
        alloc,
        index,
        worktree,
        collector,
        HashEq,
        NoSubmodules,
        MemoryObjects::new(alloc),
        context,
        options,
    )
}

/// Calls the status by ids with a lister, in this thread alone, and returns its report.
pub fn status_without_threads<'index, W: Worktree, L: Lister>(
    alloc: Global,
    index: &'index State,
    worktree: &W,
    lister: L,
    options: Options,
) -> StatusReport<'index, ObjectId, ()> {
    let mut found = Recorder::new(alloc);
    let answer = report_without_threads(alloc, index, worktree, &mut found, lister, options, None);
    StatusReport {
        records: found.records,
        answer,
    }
}

/// A worktree, a comparer and a pathspec, with the usual interfaces.
type Usual<'w, W, C, P> = Inputs<
    GuardedWorktree<'w, W>,
    C,
    NoSubmodules,
    MemoryObjects,
    P,
    NoFilter,
    NoLister,
>;

/// Returns whether the status of an index against a worktree has no record.
///
/// # Errors
/// Returns the status's error.
pub fn is_clean<
    'index,
    'w,
    R: AllocGlobal + Threads + Wait,
    W: Worktree + Sync,
    C: CompareBlobs + Send,
    P: Pathspec + Send,
>(
    rt: &R,
    index: &'index State,
    worktree: &'w W,
    compare: C,
    pathspec: P,
    options: Options,
) -> Result<bool, Error>
where
    W::File: Send,
    C::Output: Send + 'index,
    ensures clean { SaysClean ⟦<Usual<'w, W, C, P> as Ask>⟧.query
        (usual worktree.entry compare pathspec) options index.now result }
    ensures fault { FailsAtFirstFault ⟦<Usual<'w, W, C, P> as Ask>⟧.query
        (usual worktree.entry compare pathspec) options index.now result }
{
    let alloc = rt.alloc();
    let mut found = Recorder::new(alloc);
    index_as_worktree_with_defaults(
        rt, alloc, index, worktree, &mut found, compare, pathspec, options,
    )?;
    Ok(found.records.as_slice().is_empty())
}

/// Returns the changes of the index that its status asks for.
fn changes<R: AllocGlobal + Threads + Wait, W: Worktree + Sync>(
    rt: &R,
    index: &State,
    worktree: &W,
) -> Result<Vec<ApplyChange>, Error>
where
    W::File: Send,
    ensures { IfOk result (λ changes. AreInside changes.items (index_of index.now)) }
{
    let alloc = rt.alloc();
    let mut recorder = Recorder::new(alloc);
    let options = options();
    index_as_worktree_with_defaults(
        rt,
        alloc,
        index,
        worktree,
        &mut recorder,
        HashEq,
        AllPaths,
        options,
    )?;
    Ok(recorder.changes()?)
}

/// Refreshes an index: applies the changes that its status asks for, and sets its timestamp to `timestamp`.
///
/// # Errors
/// Returns the status's error. The index is unchanged then.
pub fn refresh<R: AllocGlobal + Threads + Wait, W: Worktree + Sync>(
    rt: &R,
    index: &mut State,
    worktree: &W,
    timestamp: Moment,
) -> Result<(), Error>
where
    W::File: Send,
    ensures stats { DifferInStats (index_of index.new) (index_of index.old) }
    ensures unchanged { OnErr result (index.new ≡ index.old) }
    ensures timestamp { OnOk result (timestamp_of index.new ≡ timestamp) }
{
    let changes = changes(rt, index, worktree)?;
    apply_changes(index, &changes);
    index.set_timestamp(timestamp);
    Ok(())
}
