//! The first column alone: what is staged in an index, and its conflicts.

ghost use Rattle.std.specs.Prelude.{◌≡◌, ◌==◌, ◌||◌, not, length, IfOk, OnOk, map};
ghost use Rattle.std.specs.Io.KnownBytes.{Appends};
ghost use Rattle.std.specs.List.{list_any};
ghost use Rattle.bstr.specs.BStr.{bstr_bytes};
ghost use Rattle.status_index.specs.Mode.{is_submodule};
ghost use Rattle.status_index.specs.States.{index_of};
ghost use Rattle.git_staged.specs.Staged.{staged_view};
ghost use Rattle.git_status.specs.Lines.{row_lines, with_staged};
ghost use Rattle.git_status.specs.StagedRuns.{IsStagedRun, staged_text, unmerged_row, unmerged_rows};

use crate::columns::{push_beside, push_each};
use crate::failure::Failure;
use crate::lines::{LineStyle, conflict_letters};
use bstr::BStr;
use git_staged::{FindStaged, Staged};
use status_base::worktree::Pathspec;
use status_call::index_as_worktree::Conflict;
use status_index::{Entry, State};
use std::alloc::{AllocError, Global};
use std::io;
use text_output::print_all;

/// A path in conflict.
#[derive(Clone, Copy)]
struct Unmerged<'index> {
    path: BStr<'index>,
    conflict: Conflict,
}

/// Prints a line for each selected path that is staged or in conflict, in the order of paths, or nothing without a style.
/// Returns whether there is one. No worktree is asked.
///
/// # Errors
/// The files of HEAD's commit can't be read, the output can't be written, or out of memory.
pub fn print_staged<H: FindStaged, P: Pathspec, O: io::Write>(
    alloc: Global,
    index: &State,
    head: &H,
    paths: &P,
    lines: Option<LineStyle>,
    output: &mut O,
) -> Result<bool, Failure>
    ensures { IsStagedRun (H.may_stage head.now) (P.included paths.now) (index_of index.now) lines (O.contents output.old) result (O.contents output.new) }
{
    let staged = match head.find_staged(alloc, index) {
        Ok(staged) => staged,
        Err(fault) => return Err(Failure::of_head(fault)),
    };
    let unmerged = unmerged_in(alloc, index, paths)?;
    print_text(alloc, lines, &staged, &unmerged, output)?;
    Ok(is_any(&staged, &unmerged))
}

/// Returns whether there is a staged change or a conflict.
fn is_any(staged: &[Staged], unmerged: &[Unmerged<'_>]) -> bool
    ensures { result ≡ (not (length (map staged_view staged.now) == 0) || not (length (map unmerged_row unmerged.now) == 0)) }
{
    !staged.is_empty() || !unmerged.is_empty()
}

/// Prints the lines of staged changes and conflicts, or nothing without a style.
///
/// # Errors
/// The output can't be written, or out of memory.
fn print_text<O: io::Write>(
    alloc: Global,
    lines: Option<LineStyle>,
    staged: &[Staged],
    unmerged: &[Unmerged<'_>],
    output: &mut O,
) -> Result<(), Failure>
    ensures { OnOk result (Appends (O.contents output.old) (O.contents output.new) (staged_text lines (map unmerged_row unmerged.now) (map staged_view staged.now))) }
{
    let Some(style) = lines else {
        return Ok(());
    };
    let text = text_of(alloc, style, staged, unmerged)?;
    print_all(&text, output).map_err(Failure::Output)
}

/// Returns the lines of staged changes and conflicts, in the order of paths.
///
/// # Errors
/// Out of memory.
fn text_of(
    alloc: Global,
    style: LineStyle,
    staged: &[Staged],
    unmerged: &[Unmerged<'_>],
) -> Result<Vec<u8>, AllocError>
    ensures { IfOk result (λ text. text.items ≡ row_lines style (with_staged (map unmerged_row unmerged.now) (map staged_view staged.now))) }
{
    let mut text = Vec::new(alloc);
    let mut rest = staged;
    for one in unmerged {
        let two = conflict_letters(one.conflict);
        rest = push_beside(&mut text, style, rest, one.path, two)?;
    }
    push_each(&mut text, style, rest)?;
    Ok(text)
}

/// Returns the paths of an index that are in conflict and of which a side is selected, in order.
///
/// # Errors
/// Out of memory.
fn unmerged_in<'index, P: Pathspec>(
    alloc: Global,
    index: &'index State,
    paths: &P,
) -> Result<Vec<Unmerged<'index>>, AllocError>
    ensures { IfOk result (λ found. map unmerged_row found.items ≡ unmerged_rows (P.included paths.now) (index_of index.now)) }
{
    let (entries, backing) = (index.entries(), index.path_backing());
    let mut found = Vec::new(alloc);
    let mut at = 0;
    while at < entries.len() {
        if entries[at].stage_raw() == 0 {
            at += 1;
            continue;
        }
        let path = entries[at].path_in(backing);
        let Some((conflict, more, _)) = Conflict::try_from_entry(entries, backing, at, path) else {
            unreachable!();
        };
        let end = at + more + 1;
        if is_selected(paths, path, &entries[at..end]) {
            found.push(Unmerged { path, conflict })?;
        }
        at = end;
    }
    Ok(found)
}

/// Returns whether a side of the conflict at a path is selected.
fn is_selected<P: Pathspec>(paths: &P, path: BStr<'_>, sides: &[Entry]) -> bool
    ensures { result ≡ list_any (λ e. P.included paths.now (bstr_bytes path.entry) (is_submodule e.mode)) sides.now }
{
    for side in sides {
        if paths.includes(path, side.mode.is_submodule()) {
            return true;
        }
    }
    false
}
