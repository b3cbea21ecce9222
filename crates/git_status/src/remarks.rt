//! Remarks on a status, which are written besides its lines: notes, and the counts.

ghost use Rattle.std.specs.Prelude.{◌≡◌, false};

use crate::answer::Report;
use crate::asked::Settings;
use crate::notes::print_notes;
use status_call::index_as_worktree::Outcome;
use std::alloc::Global;
use std::io::{self, Write as _};

/// Which remarks on a status are written.
#[derive(Clone, Copy)]
pub(crate) struct Remarks {
    /// Whether there are notes.
    pub(crate) notes: bool,
    /// Whether the counts are written.
    pub(crate) stats: bool,
    /// Whether notes escape bytes outside of ASCII.
    pub(crate) quote_all: bool,
}

impl Remarks {
    /// Returns the remarks that these settings ask for.
    pub(crate) fn of(settings: &Settings) -> Remarks
        ensures notes { result.notes ≡ settings.now.notes }
        ensures stats { result.stats ≡ settings.now.stats }
    {
        Remarks {
            notes: settings.notes,
            stats: settings.stats,
            quote_all: settings.lines.is_none_or(|style| style.quote_all),
        }
    }
}

/// Writes the notes and the counts of a status, if they are asked for.
pub(crate) fn print_remarks<E: io::Write>(
    alloc: Global,
    remarks: Remarks,
    found: &Report,
    faults: &mut E,
)
    ensures { remarks.stats ≡ false → remarks.notes ≡ false → E.contents faults.new ≡ E.contents faults.old }
{
    if remarks.notes {
        print_notes(alloc, found, remarks.quote_all, faults);
    }
    if remarks.stats {
        print_stats(&found.outcome, faults);
    }
}

/// Writes a line with the counts of a status.
fn print_stats<E: io::Write>(outcome: &Outcome, faults: &mut E) {
    let Outcome {
        entries_to_process,
        symlink_metadata_calls,
        worktree_files_read,
        worktree_bytes,
        entries_to_update,
        racy_clean,
        ..
    } = outcome;
    // If the line can't be written, there is nowhere left to report that.
    let _ = writeln!(
        faults,
        "git dirty: {entries_to_process} entries, {symlink_metadata_calls} calls of lstat, {worktree_files_read} files read ({worktree_bytes} bytes), {racy_clean} racy, {entries_to_update} with an old stat"
    );
}
