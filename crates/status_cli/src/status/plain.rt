//! The status of a profile without untracked files, renames and sorted lines.

ghost use Rattle.std.specs.Prelude.{◌≡◌, ◌<◌, IfOk, vec_items};
ghost use Rattle.status_index.specs.States.{index_of};
ghost use Rattle.status_call.specs.IndexChanges.{AreInside};
ghost use Rattle.status_cli.specs.Printing.{result_map};
ghost use Rattle.status_cli.specs.ProfileStatuses.{IsPlainOver, asked_by, results_of};
ghost use Rattle.status_cli.specs.Statuses.{answered};

use crate::failure::Failure;
use crate::status::closing::print_closing;
use crate::status::inputs::{ProfileStatus, Request, WantedChanges};
use crate::status::records::print_lines;
use gix_status::index_as_worktree::{
    ApplyChange, Error, Outcome, Recorder, index_as_worktree_with_defaults,
};
use gix_status::worktree::{Pathspec, Worktree};
use std::io;
use std::sync::Wait;
use std::thread::Threads;

impl<'a, W: Worktree + Sync, K: Drop> ProfileStatus<'a, W, K>
where
    W::File: Send,
{
    /// Prints a status of these paths, and returns the changes that it asks for if they are wanted. If the status fails, the
    /// records before the fault are printed.
    pub fn print_plain<R: AllocGlobal + Threads + Wait, P: Pathspec + Send, O: io::Write>(
        self,
        rt: &R,
        pathspec: P,
        output: &mut O,
    ) -> Result<Vec<ApplyChange>, Failure>
        ensures inside { IfOk result (λ changes. AreInside changes.items (index_of self.entry.request.index.now)) }
        ensures printed { IsPlainOver (results_of W.Worktree self.entry.worktree.now) (asked_by self.entry.request) (P.prefix pathspec) (P.included pathspec)
            (O.contents output.old) (result_map vec_items result) (O.contents output.new) }
    {
        let alloc = rt.alloc();
        let ProfileStatus {
            request,
            worktree,
            ..
        } = self;
        let Request {
            index,
            options,
            wanted,
            ..
        } = request;
        let mut recorder = Recorder::new(alloc);
        let answer = index_as_worktree_with_defaults(
            rt,
            alloc,
            index,
            worktree,
            &mut recorder,
            options.comparer,
            pathspec,
            options.status,
        );
        print_lines(alloc, recorder.records.as_slice(), output)?;
        print_closing(alloc, with_failure(answer), options.counts, output)?;
        match wanted {
            WantedChanges::Returned => Ok(recorder.changes()?),
            WantedChanges::Dropped => Ok(Vec::new(alloc)),
        }
    }
}

/// Returns the outcome of a status, with the failure of an error.
fn with_failure(answer: Result<Outcome, Error>) -> Result<Outcome, Failure>
    ensures { result ≡ answered answer }
{
    Ok(answer?)
}
