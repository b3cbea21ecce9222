//! The status of an index and what is staged: lines are printed, and the changes that a refresh makes are returned if they are wanted.

ghost use Rattle.std.specs.Prelude.{◌<◌, IfOk, map};
ghost use Rattle.git_attributes.specs.Views.{file_view};
ghost use Rattle.git_status.specs.Founds.{IsIndexFound};
ghost use Rattle.git_status.specs.Reads.{IsRead};
ghost use Rattle.git_status.specs.Refreshes.{IsRefresh};

use crate::answer::{Report, print_answer};
use crate::asked::{Asked, Question, Settings};
use crate::beside::FindBeside;
use crate::failure::Failure;
use crate::kept::{Kept, changed_bytes, has_all, kept_changes};
use crate::notes::noted_paths;
use crate::read::ReadIndex;
use crate::refresh::Refreshed;
use crate::status::{Computed, compute_both, filter_of};
use git_attributes::{
    AttributeFault, AttributeFile, AttributeFiles, FolderSearch, attributes_of,
    find_attribute_files,
};
use git_index::IndexFileError;
use status_base::worktree::{Pathspec, SubmoduleStatus, Worktree};
use status_call::index_as_worktree::ApplyChange;
use status_index::State;
use std::io;
use std::sync::Wait;
use std::thread::Threads;

/// The result of a status, and the changes that a refresh makes. If they aren't wanted, there are none, and `is_whole` is
/// false.
#[derive(Debug, Drop)]
pub(crate) struct Found {
    pub report: Report,
    pub changes: Vec<ApplyChange>,
    /// Whether all entries were compared, each as git compares it.
    pub is_whole: bool,
}

impl<
    'a,
    W: Worktree + Sync,
    S: SubmoduleStatus + Send,
    P: Pathspec + Send,
    A: AttributeFiles + Send,
    B: FindBeside + Sync,
> Asked<'a, W, S, P, A, B>
where
    W::File: Send,
    S::Output: Send,
{
    /// Returns the attribute files that count for an index. A thread limit below 4 is kept: then no thread is started.
    ///
    /// # Errors
    /// An attribute file that is only in the index can't be read, or out of memory.
    fn attribute_files<R: AllocGlobal + Sync + Threads + Wait>(
        &self,
        rt: &R,
        index: &State,
    ) -> Result<Vec<AttributeFile>, AttributeFault>
        ensures { IfOk result (λ files. (⟦<Asked<'a, W, S, P, A, B> as Question>⟧.asking self.now).are_files index.now (map file_view files.items)) }
    {
        let search = FolderSearch::new(rt.alloc(), self.worktree, index);
        let shares = allows_four(self.settings.options.thread_limit);
        let within = find_attribute_files(rt, &search, shares)?;
        self.attributes.with_others(rt.alloc(), index, within)
    }

    /// Prints the status of an index file that was read, with line ends converted by the attribute files. Returns what was
    /// found, with the changes that a refresh makes if they are wanted.
    ///
    /// # Errors
    /// Memory runs out before the status, the file's checksum is wrong, or HEAD's files, an attribute file or a folder can't be
    /// read; or the status's error, after the lines before it were printed; or the output can't be written. If changes are wanted, memory may also run out after all lines were
    /// printed.
    pub(crate) fn print_index<R: AllocGlobal + Sync + Threads + Wait, O: io::Write>(
        self,
        rt: &R,
        read: &ReadIndex<'_>,
        wanted: bool,
        output: &mut O,
    ) -> Result<Found, Failure>
        requires { IsRead self.settings read.now }
        ensures { IsIndexFound wanted (⟦<Asked<'a, W, S, P, A, B> as Question>⟧.asking self.entry) read.now.bytes.now read.now.file.state (O.contents output.old) result (O.contents output.new) }
    {
        let alloc = rt.alloc();
        let index = &read.file.state;
        let Settings {
            lines,
            notes,
            conversions,
            ..
        } = self.settings;
        let files = self.attribute_files(rt, index)?;
        let attributes = attributes_of(alloc, &files)?;
        let filter = filter_of(&attributes, index, &self.settings);
        let attributes = filter.attributes;
        let (beside, computed) = compute_both(rt, read, filter, self);
        let Some(computed) = computed else {
            return Err(Failure::Index(IndexFileError::Checksum));
        };
        let beside = beside?;
        let Computed { recorder, answer } = computed;
        let records = recorder.records.as_slice();
        let unconverted = noted_paths(alloc, notes, attributes, conversions, records);
        let report = print_answer(alloc, lines, &beside, records, unconverted, answer, output)?;
        if !wanted {
            return Ok(Found {
                report,
                changes: Vec::new(alloc),
                is_whole: false,
            });
        }
        let Kept { changes, are_all } = kept_changes(alloc, attributes, conversions, records)?;
        let is_whole = has_all(are_all, &report.outcome);
        Ok(Found {
            report,
            changes,
            is_whole,
        })
    }

    /// Prints the status of an index file that was read, stores its changes in the file, and returns its new bytes.
    ///
    /// # Errors
    /// Those of `print_index`, or out of memory after all lines were printed.
    #[tactic(auto, unfolding(crate::specs::Refreshes::IsRefresh))]
    pub(crate) fn refresh_file<'b, R: AllocGlobal + Sync + Threads + Wait, O: io::Write>(
        self,
        rt: &R,
        read: &mut ReadIndex<'b>,
        output: &mut O,
    ) -> Result<(Report, Refreshed<'b>), Failure>
        requires { IsRead self.settings read.now }
        ensures { IsRefresh (⟦<Asked<'a, W, S, P, A, B> as Question>⟧.asking self.entry) read.old.bytes.now (O.contents output.old) result (O.contents output.new) }
    {
        let alloc = rt.alloc();
        let Found {
            report,
            changes,
            is_whole,
        } = self.print_index(rt, &*read, true, output)?;
        let mut refreshed = Refreshed {
            status: u8::from(report.dirty),
            bytes: None,
            is_whole,
            extensions: read.file.extensions,
        };
        if changes.is_empty() {
            return Ok((report, refreshed));
        }
        let bytes = changed_bytes(alloc, &mut read.file, &changes)?;
        refreshed.bytes = Some(bytes);
        Ok((report, refreshed))
    }
}

/// Returns whether a thread limit allows four threads. With none, or with 0, the usual number is allowed, which is four.
fn allows_four(limit: Option<usize>) -> bool {
    match limit {
        None | Some(0) => true,
        Some(limit) => limit >= 4,
    }
}
