//! The status of an index against a worktree with untracked files, renames and copies.

ghost use Rattle.status_joined.specs.JoinedTheorem.{IsJoined, IsJoinedReport};
ghost use Rattle.std.specs.Prelude.{◌≡◌};
ghost use Rattle.status_joined.specs.Joined.{tracked_options};

use crate::index_as_worktree_with_renames::error::Error;
use crate::index_as_worktree_with_renames::halves::list_halves;
use crate::index_as_worktree_with_renames::inputs::{Ask, Inputs};
use crate::index_as_worktree_with_renames::recorder::VisitEntry;
use crate::index_as_worktree_with_renames::rewriting::report_list;
use crate::index_as_worktree_with_renames::types::{
    Call, Context, DirwalkContext, ExactClone, Options, Outcome,
};
use crate::item::identifier_of;
use crate::untracked::wanted_walker;
use status_base::worktree::{
    Find, GuardedWorktree, Lister, Pathspec, SubmoduleStatus, ToGit, Worktree,
};
use status_call::index_as_worktree;
use status_call::index_as_worktree::decider::Decider;
use status_call::index_as_worktree::inputs;
use status_call::index_as_worktree::inputs::Settings;
use status_compare::CompareBlobs;
use status_index::State;
use status_rewrites::Tracker;
use status_walk::Walk;
use std::alloc::Global;
use std::sync::Wait;
use std::thread::Threads;

/// Reports to `collector` how the worktree differs from `index`, which nodes it has that the index doesn't, and which
/// of both are renames and copies. Returns the counts of the status, how the walk ended, and the numbers of renames and
/// copies.
///
/// The status of the index and the walk run at the same time. The walk has a thread of its own if one can be started.
/// Their results are reported when both have ended. If the options have `sorting`, the report is sorted by path, and at
/// equal paths an entry of the index comes before a node. Otherwise all entries of the index come before the nodes.
///
/// With `rewrites` the tracker finds renames and copies among the results. Each of these is reported in place of its
/// destination, so by the destination's path. The source of a rename isn't reported by itself; that of a copy is.
///
/// If the context's interrupt flag is seen set, both halves end early, and the results up to then are reported.
///
/// # Errors
/// The first of these:
/// - the walk's fault
/// - the status's fault, which may be a thread that it can't start
/// - the fault of the first node whose id can't be computed
/// - the tracker's refusal, or the first of its pairs that breaks a rule
///
/// Any part may also return that memory ran out. On an error nothing was reported, with one exception: if the collector
/// is out of memory for an entry, the entries before it were.
pub fn index_as_worktree_with_renames<
    'index,
    'w,
    R: Threads + Wait,
    W: Worktree + Sync,
    V: VisitEntry<'index, ContentChange = C::Output, SubmoduleStatus = S::Output>,
    C: CompareBlobs + Send,
    S: SubmoduleStatus + Send,
    O: Find + Send,
    P: Pathspec + Send,
    T: ToGit + Send,
    L: Lister + Send,
    K: Walk<W> + Send + Drop,
    X: Tracker + Drop,
>(
    rt: &R,
    alloc: Global,
    index: &'index State,
    worktree: &'w W,
    collector: &mut V,
    compare: C,
    submodule: S,
    objects: O,
    context: Context<'w, P, T, L, K, X>,
    options: Options,
) -> Result<Outcome, Error>
where
    W::File: Send,
    C::Output: Send + ExactClone + 'index,
    S::Output: Send + ExactClone + 'index,
    ensures { IsJoined ⟦<Inputs<'w, W, C, S, O, P, T, L, K, X> as Ask>⟧.query
        worktree.entry compare submodule objects context.entry options index.now
        V.fails V.visits collector.old result collector.new }
{
    let Context {
        pathspec,
        filter,
        lister,
        should_interrupt,
        dirwalk: DirwalkContext { walk },
        tracker,
    } = context;
    let inputs = Inputs {
        worktree,
        status: inputs::Inputs {
            worktree: GuardedWorktree::new(worktree, options.fscache),
            compare,
            submodule,
            objects,
            pathspec,
            filter,
            lister,
        },
        walk,
        tracker,
        should_interrupt,
    };
    let call = Call {
        alloc,
        index,
        options,
    };
    joined_by(rt, &call, inputs, collector)
}

/// Returns the options of the status of the index. `fscache` is taken from the joined call's own options.
fn tracked_options(options: &Options) -> index_as_worktree::Options
    ensures { result ≡ tracked_options options.now }
{
    let tracked = &options.tracked_file_modifications;
    index_as_worktree::Options {
        fs: tracked.fs,
        thread_limit: tracked.thread_limit,
        stat: tracked.stat,
        fscache: options.fscache,
        chunk_size: tracked.chunk_size,
    }
}

/// Does the same as `index_as_worktree_with_renames`, with its interfaces in one value. The worktree gets a guard that allows
/// listings exactly if the options do.
///
/// # Errors
/// Those of that call.
pub(crate) fn joined_by<
    'index,
    'w,
    R: Threads + Wait,
    W: Worktree + Sync,
    V: VisitEntry<'index, ContentChange = C::Output, SubmoduleStatus = S::Output>,
    C: CompareBlobs + Send,
    S: SubmoduleStatus + Send,
    O: Find + Send,
    P: Pathspec + Send,
    T: ToGit + Send,
    L: Lister + Send,
    K: Walk<W> + Send + Drop,
    X: Tracker + Drop,
>(
    rt: &R,
    call: &Call<'index>,
    inputs: Inputs<'w, W, C, S, O, P, T, L, K, X>,
    collector: &mut V,
) -> Result<Outcome, Error>
where
    W::File: Send,
    C::Output: Send + ExactClone + 'index,
    S::Output: Send + ExactClone + 'index,
    ensures { IsJoinedReport (⟦<Inputs<'w, W, C, S, O, P, T, L, K, X> as Ask>⟧.query inputs.entry) call.now.options call.now.index.now
        V.fails (V.visits collector.old) result (V.visits collector.new) }
{
    let options = &call.options;
    let worktree = inputs.worktree;
    let walk = inputs.walk;
    let Ok(finder) = wanted_walker(options.dirwalk, worktree, walk, &inputs.status.pathspec) else {
        return Err(Error::Memory);
    };
    let Ok(ids) = identifier_of(options.object_hash, worktree, &inputs.status.filter) else {
        return Err(Error::Memory);
    };
    let settings = Settings::of(&tracked_options(options), call.index);
    let guard = GuardedWorktree::new(worktree, options.fscache);
    let mut status = inputs.status;
    status.worktree = guard;
    let decider = Decider::new(call.alloc, status, settings);
    let (items, outcome) = match list_halves(rt, call, finder, decider, inputs.should_interrupt) {
        Ok(listed) => listed,
        Err(error) => return Err(error),
    };
    match report_list(call, &ids, inputs.tracker, items, collector) {
        Ok(rewrites) => Ok(Outcome {
            rewrites,
            ..outcome
        }),
        Err(error) => Err(error),
    }
}
