//! The command that explains paths.

ghost use Rattle.std.specs.Prelude.{◌≡◌, ◌≢◌, ◌⊎◌, ◌==◌, false, if◌then◌else◌};
ghost use Rattle.git_explain.specs.Explained.{AreExplained};
ghost use Rattle.git_status.specs.Printing.{IsFaultLine};

use crate::paths::{Wanted, explain_each};
use git_attributes::AttributeFiles;
use git_status::{Asked, FindBeside, Question, print_failure};
use status_base::worktree::{Pathspec, SubmoduleStatus, Worktree};
use status_index::State;
use std::alloc::Global;
use std::io;
use text_output::print_all;

/// Explains the status of the selected paths of an index. Prints for each the calls of the worktree with their results, and why
/// the path has its status. Returns the exit status: 0 if no path differs, 1 if one does, and 2 after a failure, whose line is
/// written to `faults`.
pub fn run_explain<
    'a,
    W: Worktree,
    S: SubmoduleStatus,
    P: Pathspec,
    A: AttributeFiles,
    B: FindBeside,
    O: io::Write,
    E: io::Write,
>(
    alloc: Global,
    index: &State,
    asked: Asked<'a, W, S, P, A, B>,
    wanted: Wanted<'_>,
    output: &mut O,
    faults: &mut E,
) -> u8
    ensures status { (result ≡ 0) ⊎ ((result ≡ 1) ⊎ (result ≡ 2)) }
    ensures line { result ≡ 2 → IsFaultLine (E.contents faults.old) (E.contents faults.new) }
    ensures quiet { result ≢ 2 → E.contents faults.new ≡ E.contents faults.old }
    ensures explained { result ≢ 2 → AreExplained (⟦<Asked<'a, W, S, P, A, B> as Question>⟧.asking asked.entry) (P.included asked.entry.paths) index.now (result == 1) false }
{
    let found = match explain_each(alloc, index, asked, wanted) {
        Ok(found) => found,
        Err(failure) => return print_failure(alloc, failure, faults),
    };
    if let Err(error) = print_all(&found.text, output) {
        return print_failure(alloc, error, faults);
    }
    if found.failed {
        return print_failure(alloc, "a path can't be compared", faults);
    }
    exit_status(found.differs)
}

/// Returns the exit status, by whether a path differs.
fn exit_status(differs: bool) -> u8
    ensures { result ≡ (if differs then 1 else 0) }
{
    u8::from(differs)
}
