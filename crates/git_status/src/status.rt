//! The status of an index, as the command asks for it.

ghost use Rattle.std.specs.Prelude.{◌≡◌, ◌↔◌, IfErr, IfOk, IfSome, IsTrue, None, is_some, true, ⊤};
ghost use Rattle.status_index.specs.States.{index_of};
ghost use Rattle.git_status.specs.Besides.{beside_view, may_find_both};
ghost use Rattle.status_call.specs.RecorderVisits.{visits_of};
ghost use Rattle.git_index.specs.Refusals.{EndsWithChecksum};
ghost use Rattle.git_status.specs.Reads.{IsRead};
ghost use Rattle.git_status.specs.Runs.{IsComputed, IsComputedBy, IsUnfound};
ghost use Rattle.status_call.specs.Inputs.{settings};

use crate::asked::{Asked, Question, Settings};
use crate::beside::{Beside, FindBeside, find_beside};
use crate::failure::Failure;
use crate::read::ReadIndex;
use crate::watcher::Watcher;
use git_attributes::{AttributeFiles, Attributes, CleanFilter};
use git_index::ends_with_checksum;
use status_base::worktree::{
    GuardedWorktree, MemoryObjects, NoLister, Pathspec, SubmoduleStatus, Worktree,
};
use status_call::index_as_worktree::decider::Decider;
use status_call::index_as_worktree::inputs::{self, Inputs};
use status_call::index_as_worktree::status_by::status_by;
use status_call::index_as_worktree::step::Decide;
use status_call::index_as_worktree::traits::FastEq;
use status_call::index_as_worktree::workers::Execution;
use status_call::index_as_worktree::{Error, Outcome, Recorder};
use status_index::{HashKind, State};
use std::sync::Wait;
use std::sync::atomic::AtomicBool;
use std::thread::{Threads, join};

/// A worktree, submodules and paths, with comparison by sizes and ids, conversion of line ends, and no listings.
pub(crate) type Compared<'a, 'b, 'files, 'index, W, S, P> = Inputs<
    GuardedWorktree<'a, W>,
    FastEq,
    S,
    MemoryObjects,
    P,
    CleanFilter<'b, 'files, 'index>,
    NoLister,
>;

/// Returns the conversions by these attributes, for this index.
pub(crate) fn filter_of<'b, 'files, 'index>(
    attributes: &'b Attributes<'files>,
    index: &'index State,
    settings: &Settings,
) -> CleanFilter<'b, 'files, 'index>
    ensures attributes { result.attributes.now ≡ attributes.now }
    ensures configured { result.configured ≡ settings.now.conversions }
    ensures entries { result.index.now ≡ index.now }
    ensures kind { result.kind ≡ settings.now.kind }
{
    CleanFilter {
        attributes,
        configured: settings.conversions,
        index,
        kind: settings.kind,
    }
}

/// A status of an index: its records and its result.
#[derive(Drop)]
pub(crate) struct Computed<'index, T, U> {
    pub(crate) recorder: Recorder<'index, T, U>,
    pub(crate) answer: Result<Outcome, Error>,
}

/// Computes the status of an index. If it may be interrupted, it ends early, after the first entry that differs.
fn compute_by<'index, R: Threads + Wait, D: Decide + Send + Drop>(
    rt: &R,
    index: &'index State,
    mut decider: D,
    execution: &Execution<'_>,
) -> Computed<'index, D::Content, D::Submodule>
where
    D::Content: Send + Drop,
    D::Submodule: Send + Drop,
    ensures { IsComputedBy (D.query decider) (D.allows decider) index.now (is_some execution.now.interrupt) execution.now.thread_limit result.answer (visits_of result.recorder) }
{
    let mut watcher = Watcher {
        recorder: Recorder::new(execution.alloc),
        stop: execution.interrupt,
    };
    let answer = status_by(rt, index, &mut decider, execution, &mut watcher);
    let Watcher { recorder, .. } = watcher;
    Computed { recorder, answer }
}

/// Computes the status of an index file that was read, and its checksum next to it, unless that was compared before. None if
/// the checksum is wrong.
fn compute_checked<'index, R: Threads + Wait, D: Decide + Send + Drop>(
    rt: &R,
    kind: HashKind,
    read: &'index ReadIndex<'_>,
    decider: D,
    execution: &Execution<'_>,
) -> Option<Computed<'index, D::Content, D::Submodule>>
where
    D::Content: Send + Drop + 'index,
    D::Submodule: Send + Drop + 'index,
    requires { read.now.is_checked ≡ true → EndsWithChecksum kind read.now.bytes.now }
    ensures checked { IfSome result (λ _. EndsWithChecksum kind read.now.bytes.now) }
    ensures computed { IfSome result (λ c. IsComputedBy (D.query decider) (D.allows decider) read.now.file.state (is_some execution.now.interrupt) execution.now.thread_limit c.answer (visits_of c.recorder)) }
    ensures wrong { result ≡ None → EndsWithChecksum kind read.now.bytes.now → ⊥ }
{
    let index = &read.file.state;
    if read.is_checked {
        return Some(compute_by(rt, index, decider, execution));
    }
    let bytes = read.bytes;
    let (is_right, computed) = join(
        rt,
        move || -> bool
            ensures { IsTrue result ↔ EndsWithChecksum kind bytes.entry.now }
        { ends_with_checksum(kind, bytes) },
        // A clause of its own brings the bounds of this function into the closure.
        move ||
            requires { ⊤ }
        { compute_by(rt, index, decider, execution) },
    );
    if is_right { Some(computed) } else { None }
}

/// Computes the status of an index file that was read, as the command asks for it. That of a quiet command ends early. None if
/// the file's checksum is wrong.
pub(crate) fn compute<
    'index,
    'a,
    'b,
    'files,
    R: AllocGlobal + Threads + Wait,
    W: Worktree + Sync,
    S: SubmoduleStatus + Send,
    P: Pathspec + Send,
    A: AttributeFiles + Send,
    B: FindBeside + Sync,
>(
    rt: &R,
    read: &'index ReadIndex<'_>,
    filter: CleanFilter<'b, 'files, 'index>,
    asked: Asked<'a, W, S, P, A, B>,
) -> Option<Computed<'index, (), S::Output>>
where
    W::File: Send,
    S::Output: Send + 'index,
    requires { IsRead asked.settings read.now }
    ensures checked { IfSome result (λ _. EndsWithChecksum asked.entry.settings.kind read.now.bytes.now) }
    ensures computed { IfSome result (λ c. IsComputed ((⟦<Asked<'a, W, S, P, A, B> as Question>⟧.asking asked.entry).query filter.entry (settings asked.entry.settings.options read.now.file.state)) ((⟦<Asked<'a, W, S, P, A, B> as Question>⟧.asking asked.entry).may_return) read.now.file.state asked.entry.settings c.answer (visits_of c.recorder)) }
    ensures wrong { result ≡ None → EndsWithChecksum asked.entry.settings.kind read.now.bytes.now → ⊥ }
{
    let alloc = rt.alloc();
    let flag = AtomicBool::new(false);
    let stop = match asked.settings.lines {
        Some(_) => None,
        None => Some(&flag),
    };
    let options = asked.settings.options;
    let inputs = Inputs {
        worktree: GuardedWorktree::new(asked.worktree, options.fscache),
        compare: FastEq,
        submodule: asked.submodules,
        objects: MemoryObjects::new(alloc),
        pathspec: asked.paths,
        filter,
        lister: NoLister,
    };
    let decider = Decider::new(
        alloc,
        inputs,
        inputs::Settings::of(&options, &read.file.state),
    );
    let execution = Execution::of(alloc, &options, stop);
    compute_checked(rt, asked.settings.kind, read, decider, &execution)
}

/// Finds staged changes and untracked nodes of an index file that was read, next to computing its status. With a thread limit of 1 it is found first.
/// There is no status if the file's checksum is wrong.
pub(crate) fn compute_both<
    'index,
    'a,
    'b,
    'files,
    R: AllocGlobal + Sync + Threads + Wait,
    W: Worktree + Sync,
    S: SubmoduleStatus + Send,
    P: Pathspec + Send,
    A: AttributeFiles + Send,
    B: FindBeside + Sync,
>(
    rt: &R,
    read: &'index ReadIndex<'_>,
    filter: CleanFilter<'b, 'files, 'index>,
    asked: Asked<'a, W, S, P, A, B>,
) -> (
    Result<Beside, Failure>,
    Option<Computed<'index, (), S::Output>>,
)
where
    W::File: Send,
    S::Output: Send + 'index,
    requires { IsRead asked.settings read.now }
    ensures found { IfOk result.0 (λ found. (⟦<Asked<'a, W, S, P, A, B> as Question>⟧.asking asked.entry).may_find (index_of read.now.file.state) (beside_view found)) }
    ensures unfound { IfErr result.0 IsUnfound }
    ensures checked { IfSome result.1 (λ _. EndsWithChecksum asked.entry.settings.kind read.now.bytes.now) }
    ensures computed { IfSome result.1 (λ c. IsComputed ((⟦<Asked<'a, W, S, P, A, B> as Question>⟧.asking asked.entry).query filter.entry (settings asked.entry.settings.options read.now.file.state)) ((⟦<Asked<'a, W, S, P, A, B> as Question>⟧.asking asked.entry).may_return) read.now.file.state asked.entry.settings c.answer (visits_of c.recorder)) }
    ensures wrong { result.1 ≡ None → EndsWithChecksum asked.entry.settings.kind read.now.bytes.now → ⊥ }
{
    let (index, beside) = (&read.file.state, asked.beside);
    if let Some(1) = asked.settings.options.thread_limit {
        let found = find_beside(rt, beside, index, true);
        return (found, compute(rt, read, filter, asked));
    }
    join(
        rt,
        move || -> Result<Beside, Failure>
            ensures found { IfOk result (λ found. may_find_both (B.may_stage beside.entry.now) (B.may_find beside.entry.now) (index_of index.entry.now) (beside_view found)) }
            ensures unfound { IfErr result IsUnfound }
        { find_beside(rt, beside, index, false) },
        // A clause of its own brings the bounds of this function into the closure.
        move ||
            requires { IsRead asked.settings read.now }
        { compute(rt, read, filter, asked) },
    )
}
