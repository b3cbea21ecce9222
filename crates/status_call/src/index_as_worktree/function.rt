//! The status of an index against a worktree: the call, the call with the usual interfaces, and the call in the caller's
//! thread alone.

ghost use Rattle.std.specs.Prelude.{◌≡◌, None, IfOk, false};
ghost use Rattle.status_call.specs.Inputs.{inputs_of, usual};
ghost use Rattle.status_call.specs.StatusOf.{OneThreadCallSpawnsNone, IsStatus, IsStatusByAnswers, IsWithoutThread};

use crate::index_as_worktree::decider::Decider;
use crate::index_as_worktree::inputs::{Ask, Inputs, Settings, UsualInputs};
use crate::index_as_worktree::status_by::{status_by, status_serially};
use crate::index_as_worktree::types::{Context, Error, Options, Outcome, VisitEntry};
use crate::index_as_worktree::workers::Execution;
use status_base::worktree::{
    Find, GuardedWorktree, Lister, MemoryObjects, NoFilter, NoLister, NoSubmodules, Pathspec,
    SubmoduleStatus, ToGit, Worktree,
};
use status_compare::CompareBlobs;
use status_index::State;
use std::alloc::Global;
use std::sync::Wait;
use std::thread::Threads;

/// Reports to `collector` how the worktree differs from `index`, entry by entry in index order, and returns the counts.
///
/// `compare` is called for files whose stat doesn't settle that they are unchanged. `submodule` has the status of
/// submodules, and `objects` the blobs that the index names. Nothing is written. If a record asks for it, the caller
/// stores a new stat or size 0 in the index. The caller then sets a later timestamp of the index.
///
/// The work is shared by workers, at most as many as the options' thread limit allows. One of them runs in the caller's
/// thread, each other one in a thread that has ended when the call returns. If the context's interrupt flag is seen
/// set, the call ends early, and the outcome reports that. It then counts the first of the considered entries, whose
/// records were reported. Workers check the flag before each entry. The collector is called after each round, so a flag
/// that it sets ends the call after that round, with one worker too. The first round has at most eight pieces a worker, and
/// each later one at most twice as many as the one before.
///
/// # Errors
/// The fault of the first entry that has one, after the records before it were reported. A refused thread or out of
/// memory, after a beginning of the records was reported.
///
/// Over any worktree, the records and counts are exactly those of the definition for a view of each entry: for results that
/// the worktree, the blobs and the submodules may return. If all interfaces passed are modelled, these are the specified
/// ones.
pub fn index_as_worktree<
    'index,
    'w,
    R: Threads + Wait,
    W: Worktree + Sync,
    V: VisitEntry<'index, ContentChange = C::Output, SubmoduleStatus = S::Output>,
    C: CompareBlobs + Send,
    S: SubmoduleStatus + Send,
    O: Find + Send,
    P: Pathspec + Send,
    T: ToGit + Send,
    L: Lister + Send,
>(
    rt: &R,
    alloc: Global,
    index: &'index State,
    worktree: &'w W,
    collector: &mut V,
    compare: C,
    submodule: S,
    objects: O,
    context: Context<'_, P, T, L>,
    options: Options,
) -> Result<Outcome, Error>
where
    W::File: Send,
    C::Output: Send,
    S::Output: Send,
    ensures all { IsStatus ⟦<Inputs<GuardedWorktree<'w, W>, C, S, O, P, T, L> as Ask>⟧.query
        (inputs_of worktree.entry compare submodule objects context.entry)
        options index.now V.visits collector.old result collector.new }
    ensures seen { ∥ IsStatusByAnswers ⟦<Inputs<GuardedWorktree<'w, W>, C, S, O, P, T, L> as Ask>⟧.query
        (inputs_of worktree.entry compare submodule objects context.entry)
        options index.now (⟦<Inputs<GuardedWorktree<'w, W>, C, S, O, P, T, L> as Ask>⟧.may_return (inputs_of worktree.entry compare submodule objects context.entry)) V.visits collector.old result collector.new ∥₁ }
    ensures uninterrupted { context.entry.should_interrupt ≡ None
        → IfOk result (λ o. o.interrupted ≡ false) }
    ensures alone { OneThreadCallSpawnsNone ⟦<Inputs<GuardedWorktree<'w, W>, C, S, O, P, T, L> as Ask>⟧.query
        (inputs_of worktree.entry compare submodule objects context.entry) options index.now result }
{
    let should_interrupt = context.should_interrupt;
    let inputs = Inputs::of(
        worktree,
        options.fscache,
        compare,
        submodule,
        objects,
        context,
    );
    let settings = Settings::of(&options, index);
    let mut decider = Decider::new(alloc, inputs, settings);
    let execution = Execution::of(alloc, &options, should_interrupt);
    status_by(rt, index, &mut decider, &execution, collector)
}

/// Calls `index_as_worktree` with the usual interfaces: files are stored unchanged, no submodule is checked out, no
/// blob is found, no directory is listed, and nothing interrupts the call.
///
/// # Errors
/// Those of `index_as_worktree`.
pub fn index_as_worktree_with_defaults<
    'index,
    'w,
    R: Threads + Wait,
    W: Worktree + Sync,
    V: VisitEntry<'index, ContentChange = C::Output, SubmoduleStatus = ()>,
    C: CompareBlobs + Send,
    P: Pathspec + Send,
>(
    rt: &R,
    alloc: Global,
    index: &'index State,
    worktree: &'w W,
    collector: &mut V,
    compare: C,
    pathspec: P,
    options: Options,
) -> Result<Outcome, Error>
where
    W::File: Send,
    C::Output: Send,
    ensures all { IsStatus ⟦<UsualInputs<'w, W, C, P> as Ask>⟧.query
        (usual worktree.entry compare pathspec) options index.now V.visits collector.old result collector.new }
    ensures seen { ∥ IsStatusByAnswers ⟦<UsualInputs<'w, W, C, P> as Ask>⟧.query
        (usual worktree.entry compare pathspec) options index.now
        (⟦<UsualInputs<'w, W, C, P> as Ask>⟧.may_return (usual worktree.entry compare pathspec)) V.visits collector.old result collector.new ∥₁ }
    ensures uninterrupted { IfOk result (λ o. o.interrupted ≡ false) }
    ensures alone { OneThreadCallSpawnsNone ⟦<UsualInputs<'w, W, C, P> as Ask>⟧.query
        (usual worktree.entry compare pathspec) options index.now result }
{
    let context = Context {
        pathspec,
        filter: NoFilter,
        lister: NoLister,
        should_interrupt: None,
    };
    let objects = MemoryObjects::new(alloc);
    index_as_worktree(
        rt,
        alloc,
        index,
        worktree,
        collector,
        compare,
        NoSubmodules,
        objects,
        context,
        options,
    )
}

/// Does what `index_as_worktree` does in the caller's thread alone: it starts no thread and waits for none, and it returns
/// if each function of the interfaces passed returns. The options' thread limit isn't used. If the interfaces are modelled
/// and the call isn't interrupted, the records and counts are the same.
///
/// There are no rounds: the collector is called after each piece of `Options::chunk_size` entries, so an interrupt flag
/// that it sets ends the call after that piece.
///
/// # Errors
/// The fault of the first entry that has one, after the records before it were reported. Out of memory, after a
/// beginning of the records was reported.
pub fn index_as_worktree_without_threads<
    'index,
    'w,
    W: Worktree,
    V: VisitEntry<'index, ContentChange = C::Output, SubmoduleStatus = S::Output>,
    C: CompareBlobs,
    S: SubmoduleStatus,
    O: Find,
    P: Pathspec,
    T: ToGit,
    L: Lister,
>(
    alloc: Global,
    index: &'index State,
    worktree: &'w W,
    collector: &mut V,
    compare: C,
    submodule: S,
    objects: O,
    context: Context<'_, P, T, L>,
    options: Options,
) -> Result<Outcome, Error>
    ensures all { IsStatus ⟦<Inputs<GuardedWorktree<'w, W>, C, S, O, P, T, L> as Ask>⟧.query
        (inputs_of worktree.entry compare submodule objects context.entry)
        options index.now V.visits collector.old result collector.new }
    ensures seen { ∥ IsStatusByAnswers ⟦<Inputs<GuardedWorktree<'w, W>, C, S, O, P, T, L> as Ask>⟧.query
        (inputs_of worktree.entry compare submodule objects context.entry)
        options index.now (⟦<Inputs<GuardedWorktree<'w, W>, C, S, O, P, T, L> as Ask>⟧.may_return (inputs_of worktree.entry compare submodule objects context.entry)) V.visits collector.old result collector.new ∥₁ }
    ensures uninterrupted { context.entry.should_interrupt ≡ None
        → IfOk result (λ o. o.interrupted ≡ false) }
    ensures threadless { IsWithoutThread ⟦<Inputs<GuardedWorktree<'w, W>, C, S, O, P, T, L> as Ask>⟧.query
        (inputs_of worktree.entry compare submodule objects context.entry)
        options index.now V.visits collector.old result collector.new }
{
    let should_interrupt = context.should_interrupt;
    let inputs = Inputs::of(
        worktree,
        options.fscache,
        compare,
        submodule,
        objects,
        context,
    );
    let mut decider = Decider::new(alloc, inputs, Settings::of(&options, index));
    let execution = Execution::of(alloc, &options, should_interrupt);
    status_serially(index, &mut decider, &execution, collector)
}
