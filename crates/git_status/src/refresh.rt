//! The command with the index file that it leaves: the stats of unchanged entries are renewed.

ghost use Rattle.std.specs.Prelude.{◌≡◌, ◌≢◌, ◌⊎◌, ◌<◌, Some, None, true, false};
ghost use Rattle.git_status.specs.Differences.{PrintsSeen};
ghost use Rattle.git_status.specs.Printing.{IsFaultLine};
ghost use Rattle.git_status.specs.Reads.{IsRead};
ghost use Rattle.git_status.specs.Refreshes.{IsRefreshExit, IsRefreshFailedExit};
ghost use Rattle.git_status.specs.Runs.{IsSeenClean};
ghost use Rattle.git_status.specs.declared.lines.LineStyle.{LineStyle};

use crate::asked::{Asked, Question};
use crate::beside::FindBeside;
use crate::dirty::report_failure;
use crate::fault_place::Search;
use crate::read::ReadIndex;
use crate::remarks::{Remarks, print_remarks};
use git_attributes::AttributeFiles;
use status_base::worktree::{Pathspec, SubmoduleStatus, Worktree};
use std::io;
use std::sync::Wait;
use std::thread::Threads;

/// A refresh: the exit status, and the new bytes of the index file.
#[derive(Debug, Drop)]
pub struct Refreshed<'b> {
    /// The exit status: 0 if nothing is staged, no entry differs and no node is untracked, 1 otherwise, and 2 after a failure.
    pub status: u8,
    /// The new bytes. None after a failure, and if the file needn't change.
    pub bytes: Option<Vec<u8>>,
    /// Whether all entries were compared, each as git compares it. Then the new file may count as written just before the
    /// first of them was compared. Otherwise it mustn't be later than the old file either, so that what is racy stays racy.
    pub is_whole: bool,
    /// The bytes of the file's extensions. Nothing after a failure.
    pub extensions: &'b [u8],
}

/// Does what `run_dirty` does, and returns the new bytes of the index file: of each unchanged entry with an old stat the
/// new one is stored, and of each changed entry whose stat would hide that, size 0. A file for which a conversion is asked
/// that isn't made is left out, since git may compare it otherwise. Version and extensions stay. The caller replaces the
/// file, if it still has the bytes that were passed.
#[tactic(auto, unfolding(crate::specs::Refreshes::IsRefresh))]
pub fn run_refresh<
    'a,
    'b,
    R: AllocGlobal + Sync + Threads + Wait,
    W: Worktree + Sync,
    S: SubmoduleStatus + Send,
    P: Pathspec + Send,
    A: AttributeFiles + Send,
    B: FindBeside + Sync,
    O: io::Write,
    E: io::Write,
>(
    rt: &R,
    mut read: ReadIndex<'b>,
    asked: Asked<'a, W, S, P, A, B>,
    output: &mut O,
    faults: &mut E,
) -> Refreshed<'b>
where
    W::File: Send,
    S::Output: Send,
    requires { IsRead asked.settings read }
    ensures status { (result.status ≡ 0) ⊎ ((result.status ≡ 1) ⊎ (result.status ≡ 2)) }
    ensures clean { result.status ≡ 0 → IsRefreshExit (⟦<Asked<'a, W, S, P, A, B> as Question>⟧.asking asked.entry) read.entry.bytes.now false result (O.contents output.old) (O.contents output.new) }
    ensures clean_seen { result.status ≡ 0 → IsSeenClean (⟦<Asked<'a, W, S, P, A, B> as Question>⟧.asking asked.entry) read.entry.bytes.now }
    ensures lines_seen { result.status ≢ 2 → (style : LineStyle) → asked.entry.settings.lines ≡ Some style
        → PrintsSeen (⟦<Asked<'a, W, S, P, A, B> as Question>⟧.asking asked.entry) style read.entry.bytes.now (O.contents output.old) (O.contents output.new) }
    ensures dirty { result.status ≡ 1 → IsRefreshExit (⟦<Asked<'a, W, S, P, A, B> as Question>⟧.asking asked.entry) read.entry.bytes.now true result (O.contents output.old) (O.contents output.new) }
    ensures failed { result.status ≡ 2 → IsRefreshFailedExit (⟦<Asked<'a, W, S, P, A, B> as Question>⟧.asking asked.entry) read.entry.bytes.now (O.contents output.old) (O.contents output.new) }
    ensures unwritten { result.status ≡ 2 → result.bytes ≡ None }
    ensures line { result.status ≡ 2 → IsFaultLine (E.contents faults.old) (E.contents faults.new) }
    ensures quiet { result.status ≢ 2 → asked.entry.settings.stats ≡ false → asked.entry.settings.notes ≡ false → E.contents faults.new ≡ E.contents faults.old }
{
    let remarks = Remarks::of(&asked.settings);
    let search = Search::of(&asked).ok();
    match asked.refresh_file(rt, &mut read, output) {
        Ok((report, refreshed)) => {
            print_remarks(rt.alloc(), remarks, &report, faults);
            refreshed
        }
        Err(failure) => Refreshed {
            status: report_failure(rt, &read.file.state, search, failure, faults),
            bytes: None,
            is_whole: false,
            extensions: &[],
        },
    }
}
