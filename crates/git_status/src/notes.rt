//! Notes on files that git converts, and the status doesn't.

ghost use Rattle.std.specs.Prelude.{◌≡◌, IfOk};
ghost use Rattle.git_attributes.specs.Views.{attributes_view};
ghost use Rattle.status_call.specs.RecorderVisits.{visit_of};
ghost use Rattle.git_status.specs.Kept.{is_compared, is_left_out};

use crate::answer::Report;
use crate::lines::push_quoted;
use bstr::BString;
use git_attributes::{Attributes, Configured, is_unconverted};
use status_call::index_as_worktree::{Change, EntryStatus, Record};
use status_index::Mode;
use std::alloc::{AllocError, Global};
use std::io;
use text_output::print_all;

/// Returns the paths of files with other contents for which a conversion is asked that isn't made here. None if no notes are
/// asked for, or memory runs out: then no note is written.
pub(crate) fn noted_paths<T: Drop, U: Drop>(
    alloc: Global,
    notes: bool,
    attributes: &Attributes<'_>,
    configured: Configured,
    records: &[Record<'_, T, U>],
) -> Option<Vec<BString>> {
    if notes {
        unconverted_paths(alloc, attributes, configured, records)
    } else {
        None
    }
}

/// Returns the paths of files with other contents for which a conversion is asked that isn't made here. None if memory runs
/// out.
fn unconverted_paths<T: Drop, U: Drop>(
    alloc: Global,
    attributes: &Attributes<'_>,
    configured: Configured,
    records: &[Record<'_, T, U>],
) -> Option<Vec<BString>> {
    let mut paths = Vec::new(alloc);
    for record in records {
        if is_modified_file(record) && is_left_out(alloc, attributes, configured, record).ok()? {
            let path = record.relative_path.as_bytes();
            paths.push(BString::from_slice(alloc, path).ok()?).ok()?;
        }
    }
    Some(paths)
}

/// Returns whether an entry's content was compared.
fn is_compared<T, U>(status: &EntryStatus<T, U>) -> bool
    ensures { result ≡ is_compared status.now }
{
    matches!(
        status,
        EntryStatus::NeedsUpdate(_) | EntryStatus::Change(Change::Modification { .. })
    )
}

/// Returns whether a record's content was compared without a conversion that its attributes ask for.
///
/// # Errors
/// Out of memory.
pub(crate) fn is_left_out<T: Drop, U: Drop>(
    alloc: Global,
    attributes: &Attributes<'_>,
    configured: Configured,
    found: &Record<'_, T, U>,
) -> Result<bool, AllocError>
    ensures { IfOk result (λ it. it ≡ is_left_out (attributes_view attributes.now, configured) (visit_of found.now)) }
{
    if !is_compared(&found.status) {
        return Ok(false);
    }
    let states = attributes.states_of(alloc, found.relative_path.as_bytes())?;
    Ok(is_unconverted(&states, configured))
}

/// Returns whether a record's file has another content. Links aren't converted.
fn is_modified_file<T, U>(found: &Record<'_, T, U>) -> bool {
    let is_modified = matches!(
        &found.status,
        EntryStatus::Change(Change::Modification {
            content_change: Some(_),
            ..
        })
    );
    is_modified && found.entry.mode != Mode::Symlink
}

/// Writes a note for each file that git converts, and the status doesn't.
pub(crate) fn print_notes<E: io::Write>(
    alloc: Global,
    report: &Report,
    quote_all: bool,
    faults: &mut E,
) {
    if let Some(paths) = &report.unconverted {
        for path in paths {
            // If the line can't be written, there is nowhere left to report that.
            if let Ok(line) = note_of(alloc, path.as_bytes(), quote_all) {
                let _ = print_all(&line, faults);
            }
        }
    }
}

/// Returns the line of a note on a file.
fn note_of(alloc: Global, path: &[u8], quote_all: bool) -> Result<Vec<u8>, AllocError> {
    let mut line = Vec::from_slice(alloc, b"git dirty: note: ")?;
    push_quoted(&mut line, path, quote_all)?;
    line.extend_from_slice(b" has a filter or an encoding, which isn't applied\n")?;
    Ok(line)
}
