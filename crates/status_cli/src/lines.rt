//! The lines that a status or a replay prints. Each is appended to a buffer, which can be kept from line to line.
//! After an error the buffer may have anything.

ghost use Rattle.std.specs.Prelude.{◌≡◌, ◌++◌, ◌∷◌, [], ◌<◌, ◌^◌, OnOk};
ghost use Rattle.bstr.specs.BStr.{bstr_bytes};
ghost use Rattle.json.specs.Print.{quoted};
ghost use Rattle.status_call.specs.Counts.{skipped_of};
ghost use Rattle.status_joined.specs.Entries.{reported_entry};
ghost use Rattle.status_cli.specs.Lines.{conflict_text, letter_text, path_text, record_line, run_line, total_line};
ghost use Rattle.status_cli.specs.Lines.{entry_line as line_of_entry};

use bstr::{BStr, ByteSlice as _};
use gix_status::index_as_worktree::{Change, Conflict, EntryStatus, Outcome};
use gix_status::index_as_worktree_with_renames::Entry;
use json::Writer;
use status_format::entry::mode_word;
use std::alloc::{AllocError, Global};
use std::io::Write as _;
use std::{fmt, mem};

/// Appends the line of a record: the entry's place in the index, its status and its path.
pub fn push_record<T: Drop, U: Drop>(
    line: &mut Vec<u8>,
    alloc: Global,
    entry_index: usize,
    path: BStr<'_>,
    status: &EntryStatus<T, U>,
) -> Result<(), AllocError>
    ensures { OnOk result (line.new.items ≡ line.old.items ++ record_line entry_index (bstr_bytes path.entry) status.now) }
{
    let words = StatusWords(status);
    write!(line, "{entry_index} {words} ").map_err(|_| AllocError)?;
    push_path(line, alloc, path)?;
    end(line)
}

/// Appends the line of an entry of a status with untracked files, renames or sorted lines. A node that isn't in the index is
/// untracked, and a rewrite is a rename: the program asks for no others.
pub fn push_entry<T: Drop, U: Drop>(
    line: &mut Vec<u8>,
    alloc: Global,
    entry: &Entry<'_, T, U>,
) -> Result<(), AllocError>
    ensures { OnOk result (line.new.items ≡ line.old.items ++ line_of_entry (reported_entry entry.now)) }
{
    match entry {
        Entry::Modification {
            entry_index,
            rela_path,
            status,
            ..
        } => push_record(line, alloc, *entry_index, *rela_path, status),
        Entry::DirectoryContents { entry, .. } => {
            line.extend_from_slice(b"- added ")?;
            push_path(line, alloc, entry.rela_path.as_bstr())?;
            end(line)
        }
        Entry::Rewrite { .. } => {
            line.extend_from_slice(b"- renamed ")?;
            push_path(line, alloc, entry.source_rela_path())?;
            line.extend_from_slice(b" ")?;
            push_path(line, alloc, entry.destination_rela_path())?;
            end(line)
        }
    }
}

/// Appends the first line of a run of a replay. Runs are counted from 1.
pub fn push_run(line: &mut Vec<u8>, run: usize) -> Result<(), AllocError>
    ensures { OnOk result (line.new.items ≡ line.old.items ++ run_line run) }
{
    writeln!(line, "run {run}").map_err(|_| AllocError)
}

/// Appends the line of totals of a status. The counts of its skipped entries have a sum that fits, as in each outcome of a
/// status.
pub fn push_totals(line: &mut Vec<u8>, outcome: &Outcome) -> Result<(), AllocError>
    requires { skipped_of outcome.now < 2 ^ 64 }
    ensures { OnOk result (line.new.items ≡ line.old.items ++ total_line outcome.now) }
{
    let considered = Considered {
        considered: outcome.entries_to_process,
        processed: outcome.entries_processed,
        skipped: outcome.skipped(),
    };
    let work = Work(outcome);
    writeln!(line, "{considered}{work}").map_err(|_| AllocError)
}

/// Appends a path as a JSON text, in which U+FFFD replaces bytes that aren't UTF-8.
pub fn push_path(line: &mut Vec<u8>, alloc: Global, path: BStr<'_>) -> Result<(), AllocError>
    ensures { OnOk result (line.new.items ≡ line.old.items ++ path_text (bstr_bytes path.entry)) }
{
    let text = path.as_bytes().to_str_lossy(alloc)?;
    push_quoted(line, alloc, text.as_str())
}

/// Appends a text as a JSON text.
fn push_quoted(line: &mut Vec<u8>, alloc: Global, text: &str) -> Result<(), AllocError>
    ensures { OnOk result (line.new.items ≡ line.old.items ++ quoted text.now) }
{
    let mut writer = Writer::new(mem::replace(line, Vec::new(alloc)));
    let written = writer.string(text);
    *line = writer.into_inner();
    written
}

/// Ends a line.
fn end(line: &mut Vec<u8>) -> Result<(), AllocError>
    ensures { OnOk result (line.new.items ≡ line.old.items ++ 10 ∷ []) }
{
    line.push(b'\n')?;
    Ok(())
}

/// How many entries were considered, processed and skipped, as the line of totals begins.
#[derive(Clone, Copy)]
struct Considered {
    considered: usize,
    processed: usize,
    skipped: usize,
}

impl fmt::Display for Considered {
    ghost use Rattle.std.specs.Prelude.{Some};
    ghost use Rattle.status_cli.specs.Lines.{considered_text};

    ghost output = { λ c. Some (considered_text c.considered c.processed c.skipped) };

    fn fmt<W: fmt::Write>(&self, f: &mut fmt::Formatter<W>) -> fmt::Result {
        let (considered, processed, skipped) = (self.considered, self.processed, self.skipped);
        write!(
            f,
            "total: to process {considered}, processed {processed}, skipped {skipped}"
        )
    }
}

/// The calls of `lstat`, the entries to be updated and the racy ones, and what was read, as the line of totals goes on.
#[derive(Clone, Copy)]
struct Work<'a>(&'a Outcome);

impl fmt::Display for Work<'_> {
    ghost use Rattle.std.specs.Prelude.{Some};
    ghost use Rattle.status_cli.specs.Lines.{work_text};

    ghost output = { λ work. Some (work_text work.0.now) };

    fn fmt<W: fmt::Write>(&self, f: &mut fmt::Formatter<W>) -> fmt::Result {
        let Outcome {
            symlink_metadata_calls,
            entries_to_update,
            racy_clean,
            worktree_files_read,
            worktree_bytes,
            ..
        } = self.0;
        write!(
            f,
            ", lstat {symlink_metadata_calls}, to update {entries_to_update}, racy {racy_clean}, read {worktree_files_read}, bytes {worktree_bytes}"
        )
    }
}

/// The words for a status, between an entry's position and its path.
#[derive(Drop)]
struct StatusWords<'a, T, U>(&'a EntryStatus<T, U>);

impl<T: Drop, U: Drop> fmt::Display for StatusWords<'_, T, U> {
    ghost use Rattle.std.specs.Prelude.{Some};
    ghost use Rattle.status_cli.specs.Lines.{status_text};

    ghost output = { λ words. Some (status_text words.0.now) };

    fn fmt<W: fmt::Write>(&self, f: &mut fmt::Formatter<W>) -> fmt::Result {
        match self.0 {
            EntryStatus::Conflict { summary, .. } => write!(
                f,
                "conflict {}",
                conflict_words(*summary)
            ),
            EntryStatus::Change(Change::Removed) => f.write_str("removed"),
            EntryStatus::Change(Change::TypeChange { worktree_mode }) => {
                write!(f, "type {}", mode_word(*worktree_mode))
            }
            EntryStatus::Change(
                Change::Modification {
                    executable_bit_changed,
                    content_change,
                    set_entry_stat_size_zero,
                },
            ) => {
                let executable = letter(*executable_bit_changed, "x");
                let content = letter(content_change.is_some(), "c");
                let size = letter(*set_entry_stat_size_zero, "s");
                write!(f, "modified {executable}{content}{size}")
            }
            EntryStatus::Change(Change::SubmoduleModification(_)) => f.write_str("submodule"),
            EntryStatus::NeedsUpdate(_) => f.write_str("update"),
            EntryStatus::IntentToAdd => f.write_str("intent"),
        }
    }
}

/// Returns the letter, or a dash if it isn't set.
fn letter(is_set: bool, letter: &'static str) -> &'static str
    ensures { result.now ≡ letter_text is_set letter.now }
{
    if is_set { letter } else { "-" }
}

/// Returns a conflict's name, and the stages that it has.
fn conflict_words(conflict: Conflict) -> &'static str
    ensures { result.now ≡ conflict_text conflict }
{
    match conflict {
        Conflict::BothDeleted => "both-deleted 1",
        Conflict::AddedByUs => "added-by-us 2",
        Conflict::DeletedByThem => "deleted-by-them 12",
        Conflict::AddedByThem => "added-by-them 3",
        Conflict::DeletedByUs => "deleted-by-us 13",
        Conflict::BothAdded => "both-added 23",
        Conflict::BothModified => "both-modified 123",
    }
}
