//! The status of a profile with untracked files, renames or sorted lines.

ghost use Rattle.std.specs.Prelude.{◌≡◌};
ghost use Rattle.status_call.specs.Inputs.{usual};
ghost use Rattle.status_profile.specs.Options.{option_values};
ghost use Rattle.status_cli.specs.ProfileStatuses.{IsJoinedOver, IsJoinedReported, asked_by, results_of, walked_by};
ghost use Rattle.status_cli.specs.Statuses.{joined_answered, joined_options};

use crate::failure::Failure;
use crate::status::closing::print_closing;
use crate::status::inputs::ProfileStatus;
use crate::status::records::print_lines;
use gix_status::index::HashKind;
use gix_status::index_as_worktree;
use gix_status::index_as_worktree::traits::CompareBlobs;
use gix_status::index_as_worktree_with_renames::{
    Context, DirwalkContext, Error, ExactClone, Options, Outcome, Recorder, Sorting, VisitEntry,
    index_as_worktree_with_renames,
};
use gix_status::tracker::{IdentityTracker, Rewrites};
use gix_status::walk::Walk;
use gix_status::worktree::{MemoryObjects, NoFilter, NoLister, NoSubmodules, Pathspec, Worktree};
use status_call::index_as_worktree::inputs::{Ask, UsualInputs};
use status_profile::ProfileOptions;
use std::alloc::Global;
use std::io;
use std::sync::Wait;
use std::thread::Threads;

impl<'a, W: Worktree + Sync, K: Walk<W> + Send + Drop> ProfileStatus<'a, W, K>
where
    W::File: Send,
{
    /// Prints a status of these paths. If the status fails, the entries that the recorder holds are printed: those before
    /// one for which it had no memory, and none if the status fails otherwise.
    pub fn print_joined<R: AllocGlobal + Threads + Wait, P: Pathspec + Send, O: io::Write>(
        self,
        rt: &R,
        pathspec: P,
        output: &mut O,
    ) -> Result<(), Failure>
        ensures { IsJoinedOver (results_of W.Worktree self.entry.worktree.now) (asked_by self.entry.request) (P.prefix pathspec) (P.included pathspec)
            (walked_by K.walking self.entry (P.prefix pathspec) (P.included pathspec)) (O.contents output.old) result (O.contents output.new) }
    {
        let alloc = rt.alloc();
        let (counts, comparer) = (self.request.options.counts, self.request.options.comparer);
        let mut recorder = Recorder::new(alloc);
        let answer = report_joined(rt, alloc, self, &mut recorder, pathspec, comparer);
        print_lines(alloc, recorder.records.as_slice(), output)?;
        print_closing(alloc, with_failure(answer), counts, output)
    }
}

/// Returns the outcome of the index's part, with the failure of an error.
fn with_failure(answer: Result<Outcome, Error>) -> Result<index_as_worktree::Outcome, Failure>
    ensures { result ≡ joined_answered answer }
{
    Ok(answer?.tracked_file_modification)
}

/// Reports a status by a comparer to a collector, with no filter, listing, submodule or blob, and with renames by equal
/// content. It is generic, since the checker's search fails at a concrete collector and comparer.
fn report_joined<
    'a,
    R: Threads + Wait,
    W: Worktree + Sync,
    K: Walk<W> + Send + Drop,
    V: VisitEntry<'a, ContentChange = C::Output, SubmoduleStatus = ()>,
    P: Pathspec + Send,
    C: CompareBlobs + Send,
>(
    rt: &R,
    alloc: Global,
    status: ProfileStatus<'a, W, K>,
    collector: &mut V,
    pathspec: P,
    compare: C,
) -> Result<Outcome, Error>
where
    W::File: Send,
    C::Output: Send + ExactClone + 'a,
    ensures { IsJoinedReported (⟦<UsualInputs<'a, W, C, P> as Ask>⟧.query (usual status.entry.worktree compare pathspec))
        (results_of W.Worktree status.entry.worktree.now) (asked_by status.entry.request) (walked_by K.walking status.entry (P.prefix pathspec) (P.included pathspec))
        V.fails (V.visits collector.old) result (V.visits collector.new) }
{
    let ProfileStatus {
        request,
        worktree,
        walk,
    } = status;
    let context = Context {
        pathspec,
        filter: NoFilter,
        lister: NoLister,
        should_interrupt: None,
        dirwalk: DirwalkContext { walk },
        tracker: IdentityTracker::new(alloc),
    };
    let objects = MemoryObjects::new(alloc);
    index_as_worktree_with_renames(
        rt,
        alloc,
        request.index,
        worktree,
        collector,
        compare,
        NoSubmodules,
        objects,
        context,
        joined_options(request.options, request.hash),
    )
}

/// Returns the options of such a status, with ids of this kind. Empty files and links are never renamed.
fn joined_options(options: ProfileOptions, hash: HashKind) -> Options
    ensures { result ≡ joined_options (option_values options) hash }
{
    Options {
        sorting: options.sort.then_some(Sorting::ByPathCaseSensitive),
        object_hash: hash,
        fscache: options.status.fscache,
        tracked_file_modifications: options.status,
        dirwalk: options.untracked,
        rewrites: options.renames.then_some(Rewrites { track_empty: false }),
    }
}
