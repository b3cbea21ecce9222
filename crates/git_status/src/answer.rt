//! The lines of a status that was computed, and the report of what it found.

ghost use Rattle.std.specs.Prelude.{◌≡◌, IfErr, IfOk, OnOk, map};
ghost use Rattle.std.specs.Io.KnownBytes.{Appends};
ghost use Rattle.std.specs.List.{list_any};
ghost use Rattle.status_call.specs.RecorderVisits.{visit_of};
ghost use Rattle.git_staged.specs.Staged.{staged_view};
ghost use Rattle.git_status.specs.Besides.{beside_text, beside_view};
ghost use Rattle.git_status.specs.Lines.{row_lines, visit_rows, with_staged};
ghost use Rattle.git_status.specs.Runs.{IsCommandEnd, IsFound, IsPrintFailure, is_difference, printed_text};

use crate::beside::{Beside, push_others};
use crate::columns::{push_beside, push_each};
use crate::failure::Failure;
use crate::lines::{LineStyle, letters};
use bstr::BString;
use git_staged::Staged;
use status_call::index_as_worktree::{Error, Outcome, Record};
use std::alloc::{AllocError, Global};
use std::io;
use text_output::print_all;

/// The result of a status.
#[derive(Debug, Drop)]
pub struct Report {
    /// Whether something is staged, an entry differs from the worktree, or a node is untracked.
    pub dirty: bool,
    /// The counts of the status.
    pub outcome: Outcome,
    /// The files with other contents for which a conversion is asked that isn't made here. None if they aren't noted.
    pub unconverted: Option<Vec<BString>>,
}

/// Prints the lines of a status's records and of the findings next to them, and returns what was found.
///
/// # Errors
/// The output can't be written, or memory ran out; or those of `report_of`, after all lines were printed.
pub(crate) fn print_answer<T: Drop, U: Drop, O: io::Write>(
    alloc: Global,
    lines: Option<LineStyle>,
    beside: &Beside,
    records: &[Record<'_, T, U>],
    unconverted: Option<Vec<BString>>,
    answer: Result<Outcome, Error>,
    output: &mut O,
) -> Result<Report, Failure>
    ensures { IsCommandEnd lines (beside_view beside.now) (map visit_of records.now) answer (O.contents output.old) result (O.contents output.new) }
{
    print_lines(alloc, lines, beside, records, output)?;
    report_of(beside, records, unconverted, answer)
}

/// Prints these lines, or nothing if the command is quiet.
///
/// # Errors
/// The output can't be written, and a beginning of the lines is; or memory ran out, and nothing is printed.
fn print_lines<T: Drop, U: Drop, O: io::Write>(
    alloc: Global,
    lines: Option<LineStyle>,
    beside: &Beside,
    records: &[Record<'_, T, U>],
    output: &mut O,
) -> Result<(), Failure>
    ensures ok { OnOk result (Appends (O.contents output.old) (O.contents output.new) (printed_text lines (beside_view beside.now) (map visit_of records.now))) }
    ensures err { IfErr result (IsPrintFailure lines (beside_view beside.now) (map visit_of records.now) (O.contents output.old) (O.contents output.new)) }
{
    let Some(style) = lines else {
        return Ok(());
    };
    let text = lines_of(alloc, style, beside, records)?;
    print_all(&text, output).map_err(Failure::Output)
}

/// Returns what a status found.
///
/// # Errors
/// The status's error, or it ended early without a difference.
fn report_of<T: Drop, U: Drop>(
    beside: &Beside,
    records: &[Record<'_, T, U>],
    unconverted: Option<Vec<BString>>,
    answer: Result<Outcome, Error>,
) -> Result<Report, Failure>
    ensures { IsFound (beside_view beside.now) (map visit_of records.now) answer result }
{
    let outcome = match answer {
        Ok(outcome) => outcome,
        Err(error) => return Err(Failure::of_status(error)),
    };
    let differs = has_difference(records);
    if outcome.interrupted && !differs {
        return Err(Failure::Interrupted);
    }
    Ok(Report {
        dirty: differs || beside.is_anything(),
        outcome,
        unconverted,
    })
}

/// Returns the lines of what is staged and of records, in the order of paths, and then those of what else was found.
#[tactic(auto, using(crate::proofs::Besides::lines_more))]
fn lines_of<T: Drop, U: Drop>(
    alloc: Global,
    style: LineStyle,
    beside: &Beside,
    records: &[Record<'_, T, U>],
) -> Result<Vec<u8>, AllocError>
    ensures { IfOk result (λ lines. lines.items ≡ beside_text style (beside_view beside.now) (visit_rows (map visit_of records.now))) }
{
    let mut lines = merged_lines(alloc, style, &beside.staged, records)?;
    push_others(&mut lines, style, &beside.others)?;
    Ok(lines)
}

/// Returns the lines of what is staged and of records, in the order of paths.
fn merged_lines<T: Drop, U: Drop>(
    alloc: Global,
    style: LineStyle,
    staged: &[Staged],
    records: &[Record<'_, T, U>],
) -> Result<Vec<u8>, AllocError>
    ensures { IfOk result (λ lines. lines.items ≡ row_lines style (with_staged (visit_rows (map visit_of records.now)) (map staged_view staged.now))) }
{
    let mut lines = Vec::new(alloc);
    let mut rest = staged;
    for record in records {
        let Some(two) = letters(&record.status) else {
            continue;
        };
        rest = push_beside(&mut lines, style, rest, record.relative_path, two)?;
    }
    push_each(&mut lines, style, rest)?;
    Ok(lines)
}

/// Returns whether one of these records is of an entry that differs from the worktree.
pub fn has_difference<T: Drop, U: Drop>(records: &[Record<'_, T, U>]) -> bool
    ensures { result ≡ list_any is_difference (map visit_of records.now) }
{
    for record in records {
        if letters(&record.status).is_some() {
            return true;
        }
    }
    false
}
