//! The command, over any worktree, index file and writers.

ghost use Rattle.std.specs.Prelude.{◌≡◌, ◌≢◌, ◌⊎◌, Some, true, false};
ghost use Rattle.git_status.specs.Printing.{IsFaultLine};
ghost use Rattle.git_status.specs.Reads.{IsRead};
ghost use Rattle.git_status.specs.Differences.{PrintsSeen};
ghost use Rattle.git_status.specs.Runs.{IsExit, IsFailedExit, IsCommandRun, IsSeenClean};
ghost use Rattle.git_status.specs.declared.lines.LineStyle.{LineStyle};

use crate::answer::Report;
use crate::asked::{Asked, Question};
use crate::beside::FindBeside;
use crate::failure::Failure;
use crate::fault_place::Search;
use crate::found::Found;
use crate::output::print_failure;
use crate::read::ReadIndex;
use crate::remarks::{Remarks, print_remarks};
use git_attributes::AttributeFiles;
use status_base::worktree::{Pathspec, SubmoduleStatus, Worktree};
use status_call::index_as_worktree::Error;
use status_index::State;
use std::io;
use std::sync::Wait;
use std::thread::Threads;
use text_output::OutputError;

/// Prints a line to `output` for each path that is staged in an index file, or whose entry differs from the worktree, in the
/// order of paths: the first letter is of what is staged, and the second of the worktree. After them come the untracked nodes,
/// and then the ignored ones, if these are asked for. A quiet command prints nothing, and
/// ends its status at the first entry that differs.
///
/// Returns the exit status: 0 if nothing is staged, no entry differs and no node is untracked, 1 otherwise, and 2 after a failure,
/// which is one line on `faults`, or none if the reader of the output has ended. Lines that were printed before it stay. With
/// `stats` a line on `faults` has the counts.
///
/// This holds over any worktree, by what was seen: for each entry there are results that the worktree and its submodules
/// may return, of `lstat`, of reading the file or the link, and of the submodule, by which it differs exactly if it is listed.
/// The staged changes and the untracked nodes are those that `asked.beside` found.
pub fn run_dirty<
    'a,
    R: AllocGlobal + Sync + Threads + Wait,
    W: Worktree + Sync,
    S: SubmoduleStatus + Send,
    P: Pathspec + Send,
    A: AttributeFiles + Send,
    B: FindBeside + Sync,
    O: io::Write,
    E: io::Write,
>(
    rt: &R,
    read: &ReadIndex<'_>,
    asked: Asked<'a, W, S, P, A, B>,
    output: &mut O,
    faults: &mut E,
) -> u8
where
    W::File: Send,
    S::Output: Send,
    requires { IsRead asked.settings read.now }
    ensures status { (result ≡ 0) ⊎ ((result ≡ 1) ⊎ (result ≡ 2)) }
    ensures clean { result ≡ 0 → IsExit (⟦<Asked<'a, W, S, P, A, B> as Question>⟧.asking asked.entry) read.now.bytes.now false (O.contents output.old) (O.contents output.new) }
    ensures clean_seen { result ≡ 0 → IsSeenClean (⟦<Asked<'a, W, S, P, A, B> as Question>⟧.asking asked.entry) read.now.bytes.now }
    ensures lines_seen { result ≢ 2 → (style : LineStyle) → asked.entry.settings.lines ≡ Some style
        → PrintsSeen (⟦<Asked<'a, W, S, P, A, B> as Question>⟧.asking asked.entry) style read.now.bytes.now (O.contents output.old) (O.contents output.new) }
    ensures dirty { result ≡ 1 → IsExit (⟦<Asked<'a, W, S, P, A, B> as Question>⟧.asking asked.entry) read.now.bytes.now true (O.contents output.old) (O.contents output.new) }
    ensures failed { result ≡ 2 → IsFailedExit (⟦<Asked<'a, W, S, P, A, B> as Question>⟧.asking asked.entry) read.now.bytes.now (O.contents output.old) (O.contents output.new) }
    ensures line { result ≡ 2 → IsFaultLine (E.contents faults.old) (E.contents faults.new) }
    ensures quiet { result ≢ 2 → asked.entry.settings.stats ≡ false → asked.entry.settings.notes ≡ false → E.contents faults.new ≡ E.contents faults.old }
{
    let remarks = Remarks::of(&asked.settings);
    let search = Search::of(&asked).ok();
    match print_file(rt, read, asked, output) {
        Ok(found) => {
            print_remarks(rt.alloc(), remarks, &found, faults);
            u8::from(found.dirty)
        }
        Err(failure) => report_failure(rt, &read.file.state, search, failure, faults),
    }
}

/// Writes a line that says why the status of an index failed, with the path of an entry that can't be read, and returns the
/// exit status of a failure, 2. Nothing is written if the reader of the output has ended, since whoever ended it knows.
pub(crate) fn report_failure<
    R: AllocGlobal + Sync + Threads + Wait,
    W: Worktree + Sync,
    P: Pathspec,
    E: io::Write,
>(rt: &R, index: &State, search: Option<Search<'_, W, P>>, failure: Failure, faults: &mut E) -> u8
where
    W::File: Send,
    ensures status { result ≡ 2 }
    ensures line { IsFaultLine (E.contents faults.old) (E.contents faults.new) }
{
    let alloc = rt.alloc();
    if matches!(failure, Failure::Output(OutputError::Closed)) {
        return 2;
    }
    if let (Some(search), true) = (search, is_of_an_entry(&failure)) {
        if let Some(found) = search.first_error(rt, index) {
            return print_failure(alloc, found, faults);
        }
    }
    print_failure(alloc, failure, faults)
}

/// Whether a failure is the error of an entry that it doesn't name.
fn is_of_an_entry(failure: &Failure) -> bool {
    matches!(
        failure,
        Failure::Status(Error::Io(_) | Error::IllformedUtf8 | Error::Time)
    )
}

/// Prints the status of an index file that was read.
///
/// # Errors
/// Memory runs out, or the failures of `Asked::print_index`.
pub fn print_file<
    'a,
    R: AllocGlobal + Sync + Threads + Wait,
    W: Worktree + Sync,
    S: SubmoduleStatus + Send,
    P: Pathspec + Send,
    A: AttributeFiles + Send,
    B: FindBeside + Sync,
    O: io::Write,
>(
    rt: &R,
    read: &ReadIndex<'_>,
    asked: Asked<'a, W, S, P, A, B>,
    output: &mut O,
) -> Result<Report, Failure>
where
    W::File: Send,
    S::Output: Send,
    requires { IsRead asked.settings read.now }
    ensures { IsCommandRun (⟦<Asked<'a, W, S, P, A, B> as Question>⟧.asking asked.entry) read.now.bytes.now (O.contents output.old) result (O.contents output.new) }
{
    let Found { report, .. } = asked.print_index(rt, read, false, output)?;
    Ok(report)
}
