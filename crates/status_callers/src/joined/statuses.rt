//! Short forms of the joined call: a request and a report.
//!
//! Other options or an interrupt flag are set as fields: `JoinedRequest { options: .., ..request }`. `report.answer` is
//! the result of the call, and `report.records` are the reported entries.

use gix_status::index::{ObjectId, State};
use gix_status::index_as_worktree::traits::HashEq;
use gix_status::index_as_worktree::{self, Capabilities};
use gix_status::index_as_worktree_with_renames::{
    Context, DirwalkContext, Entry, Error, ExactClone, Options, Outcome, Recorder, Sorting,
    VisitEntry, index_as_worktree_with_renames,
};
use gix_status::tracker::{Rewrites, Tracker};
use gix_status::walk::Walk;
use gix_status::worktree::{
    AllPaths, MemoryObjects, NoFilter, NoLister, SubmoduleStatus, Worktree,
};
use std::sync::Wait;
use std::sync::atomic::AtomicBool;
use std::thread::Threads;

/// The arguments besides an index and a worktree: a walk, a tracker, options and an interrupt flag.
#[derive(Drop)]
pub struct JoinedRequest<'a, K, X> {
    pub walk: K,
    pub tracker: X,
    pub options: Options,
    pub interrupt: Option<&'a AtomicBool>,
}

impl<'a, K, X> JoinedRequest<'a, K, X> {
    /// Returns a request for a sorted list of records and untracked files, with such renames and copies. Links count, and
    /// executability doesn't.
    pub fn new(walk: K, tracker: X, rewrites: Option<Rewrites>) -> JoinedRequest<'a, K, X> {
        JoinedRequest {
            walk,
            tracker,
            options: options(rewrites),
            interrupt: None,
        }
    }
}

/// Returns options for a sorted list with a walk. Links count, and executability doesn't.
pub fn options(rewrites: Option<Rewrites>) -> Options {
    Options {
        sorting: Some(Sorting::ByPathCaseSensitive),
        dirwalk: true,
        rewrites,
        tracked_file_modifications: index_as_worktree::Options {
            fs: Capabilities {
                symlink: true,
                executable_bit: false,
            },
            ..index_as_worktree::Options::default()
        },
        ..Options::default()
    }
}

/// The reported entries, and the outcome of the call or its error.
#[derive(Drop)]
pub struct JoinedReport<'index, U> {
    pub records: Vec<Entry<'index, ObjectId, U>>,
    pub answer: Result<Outcome, Error>,
}

/// Calls the status with untracked files, by ids, and returns its report.
pub fn joined<
    'index,
    R: AllocGlobal + Threads + Wait,
    W: Worktree + Sync,
    S: SubmoduleStatus + Send,
    K: Walk<W> + Send + Drop,
    X: Tracker + Drop,
>(
    rt: &R,
    index: &'index State,
    worktree: &W,
    submodule: S,
    request: JoinedRequest<'_, K, X>,
) -> JoinedReport<'index, S::Output>
where
    W::File: Send,
    S::Output: Send + ExactClone + 'index,
{
    let mut recorder = Recorder::new(rt.alloc());
    let answer = report_to(rt, index, worktree, &mut recorder, submodule, request);
    JoinedReport {
        records: recorder.records,
        answer,
    }
}

/// Calls the status by ids with a collector and submodules.
pub fn report_to<
    'index,
    R: AllocGlobal + Threads + Wait,
    W: Worktree + Sync,
    S: SubmoduleStatus + Send,
    V: VisitEntry<'index, ContentChange = ObjectId, SubmoduleStatus = S::Output>,
    K: Walk<W> + Send + Drop,
    X: Tracker + Drop,
>(
    rt: &R,
    index: &'index State,
    worktree: &W,
    collector: &mut V,
    submodule: S,
    request: JoinedRequest<'_, K, X>,
) -> Result<Outcome, Error>
where
    W::File: Send,
    S::Output: Send + ExactClone + 'index,
{
    let JoinedRequest {
        walk,
        tracker,
        options,
        interrupt,
    } = request;
    let alloc = rt.alloc();
    let context = Context {
        pathspec: AllPaths,
        filter: NoFilter,
        lister: NoLister,
        should_interrupt: interrupt,
        dirwalk: DirwalkContext { walk },
        tracker,
    };
    index_as_worktree_with_renames(
        rt,
        alloc,
        index,
        worktree,
        collector,
        HashEq,
        submodule,
        MemoryObjects::new(alloc),
        context,
        options,
    )
}
